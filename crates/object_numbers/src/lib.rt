// An object's values from the numbers that a host lends, and its answer as numbers. Assumes nothing.
#![tactic(auto)]

ghost use Rattle.std.specs.Prelude.{◌≡◌, List, ℕ, cond, Some, None};
ghost use Rattle.single.specs.Ends.{single_end};
ghost use Rattle.object_numbers.specs.Single.{saturate8, saturate16, is_set, kind_of, object_of, facts_of, stair_of, previous_of, told};

use mania::{Facts, PrevValues, Stair};
use model::{Kind, Object, Position};
use random::Random;
use single::{Converted, ObjectRefused};

// An answer: the refusal's number, or 0, and what the outputs get. Numbers, and 0 for no refusal: what the C interface hands over and the recorded
// lists hold.
#[derive(Clone, Copy)]
pub struct Told {
    pub number: u32,
    pub count: u32,
    pub mask: u32,
    pub last: u32,
    pub stair: u32,
    pub state: Random,
    pub draws: u32,
}

// A host's number for a field of 8 bits. One that the field cannot hold becomes its largest, which is refused as the number itself is.
pub fn saturate_u8(n: u32) -> u8
    ensures { result ≡ saturate8 n }
{
    u8::try_from(n).unwrap_or(u8::MAX)
}

// The same for 16 bits. One function over both would be longer than the two lines.
pub fn saturate_u16(n: u32) -> u16
    ensures { result ≡ saturate16 n }
{
    u16::try_from(n).unwrap_or(u16::MAX)
}

// A flag of the C interface: set where it is not 0.
fn is_set(n: u32) -> bool
    ensures { result ≡ is_set n }
{
    n != 0
}

// A value that may be absent is a flag and a number in the C interface. Of a distance this is `distance_of`, of a saturated sound `node_of`.
pub fn given<T: Copy>(flag: u32, value: T) -> Option<T>
    ensures { result ≡ cond (is_set flag) (Some value) None }
{
    is_set(flag).then_some(value)
}

// A kind is a number in the C interface. A number that is no kind's gives a slider that is refused by 6.
pub fn kind_of(
    kind: u32,
    repeats: u32,
    distance: Option<f64>,
    node: Option<u8>,
    duration: f64,
) -> Kind
    ensures { result ≡ kind_of kind (saturate16 repeats) distance node duration }
{
    let repeats = saturate_u16(repeats);
    match kind {
        0 => Kind::Circle,
        1 => Kind::Slider {
            repeats,
            distance,
            node,
        },
        2 => Kind::Spinner(duration),
        3 => Kind::Hold(duration),
        _ => Kind::Slider {
            repeats: u16::MAX,
            distance: None,
            node: None,
        },
    }
}

// This and the functions below have one parameter for each number of `sumopine_object`.
pub fn object_of(x: f32, y: f32, start: f64, sound: u32, kind: Kind) -> Object
    ensures { result ≡ object_of x y start (saturate8 sound) kind }
{
    let position = Position { x, y };
    let sound = saturate_u8(sound);
    Object {
        position,
        start,
        sound,
        kind,
    }
}

pub fn facts_of(
    difficulty: f64,
    multiplier: f64,
    beat: f64,
    velocity: f64,
    kiai: u32,
    density: f64,
) -> Facts
    ensures { result ≡ facts_of difficulty multiplier beat velocity kiai density }
{
    let kiai = is_set(kiai);
    Facts {
        difficulty,
        multiplier,
        beat,
        velocity,
        kiai,
        density,
    }
}

fn stair_of(reverse: u32) -> Stair
    ensures { result ≡ stair_of reverse }
{
    if is_set(reverse) {
        Stair::Reverse
    } else {
        Stair::Up
    }
}

pub fn previous_of(time: f64, x: f32, y: f32, mask: u32, last: u32, reverse: u32) -> PrevValues
    ensures { result ≡ previous_of time x y (saturate16 mask) (saturate8 last) reverse }
{
    let position = Position { x, y };
    let mask = saturate_u16(mask);
    let last = saturate_u8(last);
    let stair = stair_of(reverse);
    PrevValues {
        time,
        position,
        mask,
        last,
        stair,
    }
}

// The answer's numbers: after a refusal zeros, with its number and the state. No `From`: the contract would stand apart in a ghost member, and the call
// would be no shorter.
pub fn tell(end: Result<Converted, ObjectRefused>) -> Told
    ensures { (notes : List ℕ) → result ≡ told (single_end notes end).answer }
{
    match end {
        Ok(made) => Told {
            number: 0,
            count: made.count,
            mask: made.mask as u32,
            last: made.last as u32,
            stair: made.stair as u32,
            state: made.random,
            draws: made.draws,
        },
        Err(refused) => Told {
            number: u32::from(refused.refusal),
            count: 0,
            mask: 0,
            last: 0,
            stair: 0,
            state: refused.random,
            draws: 0,
        },
    }
}
