// The generator: Marsaglia's xor128, and what is drawn from it. A step is by value; `next` takes one in a state that is lent, and every draw goes through it.
#![tactic(auto)]

ghost use Rattle.std.specs.Prelude.{◌≡◌, ◌+◌, ◌-◌, ◌*◌, ◌^◌, ◌≤◌, ◌<◌};
ghost use Rattle.random.specs.Generator.{seeded, next, low, between, unit};
ghost use Rattle.random.specs.Play.{on, value, searched};
ghost use Rattle.random.specs.Answers.{number};

use rules::Refusal;

// The generator state: four words.
#[derive(Clone, Copy)]
pub struct Random {
    pub x: u32,
    pub y: u32,
    pub z: u32,
    pub w: u32,
}

// How many draws may still be made, and how many the longest search made so far.
#[derive(Clone, Copy)]
pub struct Tally {
    pub left: u32,
    pub longest: u32,
}

// A state, and the tally of the draws from it.
#[derive(Clone, Copy)]
pub struct Draws {
    pub random: Random,
    pub tally: Tally,
}

// A refusal, and the draws as they are then. Written out where a rule refuses: a function would have a contract as long.
#[derive(Clone, Copy)]
pub struct Refused {
    pub refusal: Refusal,
    pub draws: Draws,
}

// What a rule gives: a value, and the draws after it; or a refusal.
pub type Outcome<T> = Result<(T, Draws), Refused>;

// The state that a seed gives.
pub fn from_seed(seed: u32) -> Random
    ensures { result ≡ seeded seed }
{
    Random {
        x: seed,
        y: 842502087,
        z: 3579807591,
        w: 273326509,
    }
}

// One step of the generator: `gen_unsigned`, whose result is the last word.
pub fn step(r: Random) -> Random
    ensures { result ≡ next r }
{
    let t = r.x ^ (r.x << 11);
    Random {
        x: r.y,
        y: r.z,
        z: r.w,
        w: r.w ^ (r.w >> 19) ^ t ^ (t >> 8),
    }
}

// The value of a step: the low 31 bits of the last word that it made.
pub fn low_bits(r: Random) -> u32
    ensures { result ≡ low r }
{
    r.w & 0x7fff_ffff
}

// One step of a state that is lent, and its value.
pub fn next(random: &mut Random) -> u32
    ensures { (random.new ≡ next random.old) × (result ≡ low (next random.old)) }
{
    let s = step(*random);
    *random = s;
    low_bits(s)
}

// A step by value: calls `next` on its own copy of the state.
fn lent_step(mut random: Random) -> (Random, u32)
    ensures { (result.0 ≡ next random) × (result.1 ≡ low (next random)) }
{
    let value = next(&mut random);
    (random, value)
}

// One draw: a step, where one is left. Its value is below 2^31.
pub fn draw(d: Draws) -> Outcome<u32>
    ensures { number result ≡ on value d }
{
    let tally = d.tally;
    let left = tally.left;
    if left == 0 {
        return Err(Refused {
            refusal: Refusal::NoDrawLeft,
            draws: d,
        });
    }
    let (random, value) = lent_step(d.random);
    let longest = tally.longest;
    let tally = Tally {
        left: left - 1,
        longest,
    };
    Ok((value, Draws { random, tally }))
}

// The draws after a search that made `made` of them: the longest search is raised.
pub fn after_search(d: Draws, made: u32) -> Draws
    ensures { result ≡ searched made d }
{
    let random = d.random;
    let tally = Tally {
        left: d.tally.left,
        longest: d.tally.longest.max(made),
    };
    Draws { random, tally }
}

// `next_int_range` of a value: a number from min up to, and without, max.
pub fn next_int_range(v: u32, min: u8, max: u8) -> u8
    requires { (v < 2 ^ 31) × (min < max) × (max ≤ 9) }
    ensures { result ≡ between min max v }
{
    let scaled = (v as u64 * (max - min) as u64) >> 31;
    min + scaled as u8
}

const INT_TO_REAL: f64 = 1.0 / 2147483648.0;

// `next_double` of a value: v / 2^31, with nothing lost.
pub fn next_double(v: u32) -> f64
    ensures { result ≡ unit v }
{
    INT_TO_REAL * v as f64
}
