// `&mut Random` wrappers over the three by-value generators, written once over the trait `Generator`. `words` gets the notes; `spare` is working space, used
// by sliders alone. Both are slices: each generator requires the room for its own notes, and an array type would make a circle's caller lend 602 words.
#![tactic(auto)]

ghost use Rattle.std.specs.Prelude.{◌≡◌, ℕ, List, length};
ghost use Rattle.random.specs.declared.Draws.{Draws};
ghost use Rattle.generators.specs.Answers.{End, whole};

use pattern::Made;
use random::{Draws, Outcome, Random, Refused, Tally};
use rules::Refusal;

mod circle;
mod slider;
mod spinner;

// A refusal of a generator that alters a `&mut Random`: of the draws after it only the tally is left to give.
#[derive(Clone, Copy)]
pub struct LentRefused {
    pub refusal: Refusal,
    pub tally: Tally,
}

// The result of such a generator.
pub type LentEnd = Result<(Made, Tally), LentRefused>;

// The state that a generator left, and what it gives.
#[derive(Clone, Copy)]
pub struct Turn {
    pub random: Random,
    pub end: LentEnd,
}

// What one generator makes, by value.
pub trait Generator {
    // what it asks, of so many lent words and so much working space
    ghost asks: { Self → ℕ → ℕ → Type 0 };

    // what it makes from the draws: the words as they are then, and the outcome
    ghost makes: { Self → Draws → List ℕ → End → Type 0 };

    fn make(self, d: Draws, words: &mut [u64], spare: &mut [u64]) -> Outcome<Made>
        requires { asks self (length words.old) (length spare.old) }
        ensures { makes self d words.new result };
}

// The arguments of `generate` beside the state: the tally of the draws, and what the notes are made from.
#[derive(Clone, Copy)]
pub struct Ask<G> {
    pub tally: Tally,
    pub g: G,
}

// Splits an outcome into the state and the rest. No `From`, here and for `outcome`: each is called once, and a `From` states its contract in a ghost member.
pub fn turn_of(e: Outcome<Made>) -> Turn
    ensures { whole result.random result.end ≡ e }
{
    match e {
        Ok((made, d)) => Turn {
            random: d.random,
            end: Ok((made, d.tally)),
        },
        Err(e) => Turn {
            random: e.draws.random,
            end: Err(LentRefused {
                refusal: e.refusal,
                tally: e.draws.tally,
            }),
        },
    }
}

// The state is put back.
pub fn outcome(t: Turn) -> Outcome<Made>
    ensures { result ≡ whole t.random t.end }
{
    let random = t.random;
    match t.end {
        Ok((made, tally)) => Ok((made, Draws { random, tally })),
        Err(e) => Err(Refused {
            refusal: e.refusal,
            draws: Draws {
                random,
                tally: e.tally,
            },
        }),
    }
}

// The state is lent, and altered there.
pub fn generate<G: Generator>(
    random: &mut Random,
    ask: Ask<G>,
    words: &mut [u64],
    spare: &mut [u64],
) -> LentEnd
    requires { G.asks ask.g (length words.old) (length spare.old) }
    ensures { G.makes ask.g (record { random = random.old; tally = ask.tally }) words.new (whole random.new result) }
{
    let d = Draws {
        random: *random,
        tally: ask.tally,
    };
    let t = turn_of(ask.g.make(d, words, spare));
    *random = t.random;
    t.end
}

// Lends its state to `generate`.
fn lend<G: Generator>(mut random: Random, ask: Ask<G>, words: &mut [u64], spare: &mut [u64]) -> Turn
    requires { G.asks ask.g (length words.old) (length spare.old) }
    ensures { G.makes ask.g (record { random = random; tally = ask.tally }) words.new (whole result.random result.end) }
{
    let end = generate(&mut random, ask, words, spare);
    Turn { random, end }
}

// The same by value: lends the state of `d` to `generate`.
pub fn generate_owned<G: Generator>(
    d: Draws,
    g: G,
    words: &mut [u64],
    spare: &mut [u64],
) -> Outcome<Made>
    requires { G.asks g (length words.old) (length spare.old) }
    ensures { G.makes g d words.new result }
{
    let tally = d.tally;
    let ask = Ask { tally, g };
    outcome(lend(d.random, ask, words, spare))
}
