// The single-object entry: one object, its facts and previous values, a generator state and an allowance; its notes are written from the buffer's start.
#![tactic(auto)]

ghost use Rattle.std.specs.Prelude.{◌≡◌, ◌≤◌, length};
ghost use Rattle.model.specs.Limits.{most_notes};
ghost use Rattle.mania.specs.Single.{entry_refusal, single_object};
ghost use Rattle.single.specs.Ends.{single_end, Keeps};

use chart::layout::NOTE_SIZE;
use mania::{Facts, PrevValues, Stair};
use model::Object;
use model::limits::MOST_NOTES;
use pattern::Made;
use random::{Draws, Random, Tally};
use rules::Refusal;

// What an object made: the number of notes, the new mask, last column and stair, the state and the draws.
#[derive(Clone, Copy)]
pub struct Converted {
    pub count: u32,
    pub mask: u16,
    pub last: u8,
    pub stair: Stair,
    pub random: Random,
    pub draws: u32,
}

// A refusal, and the state that was lent: a host gets it back in every case.
#[derive(Clone, Copy)]
pub struct ObjectRefused {
    pub refusal: Refusal,
    pub random: Random,
}

// Writes the notes that an object made, where the buffer has room for them.
fn keep(
    o: Object,
    words: &[u64],
    made: Made,
    lent: Random,
    allowance: u32,
    e: Draws,
    notes: &mut [u8],
) -> Result<Converted, ObjectRefused>
    requires { (made.pattern.count ≤ most_notes) × (most_notes ≤ length words.now) × (e.tally.left ≤ allowance) }
    ensures { Keeps notes.old notes.new words.now o made lent allowance e result }
{
    let p = made.pattern;
    let count = p.count;
    if notes.len() < NOTE_SIZE * count {
        return Err(ObjectRefused {
            refusal: Refusal::ChartTooShort,
            random: lent,
        });
    }
    notes::put_notes(0, o, &words[..count], notes);
    let after = e.tally;
    Ok(Converted {
        count: count as u32,
        mask: p.mask,
        last: p.last,
        stair: made.stair,
        random: e.random,
        draws: allowance - after.left,
    })
}

// The rule of an object that passed the checks.
fn generate(
    f: Facts,
    v: PrevValues,
    columns: u8,
    o: Object,
    lent: Random,
    allowance: u32,
    notes: &mut [u8],
) -> Result<Converted, ObjectRefused>
    requires { entry_refusal f v columns o ≡ 0 }
    ensures { single_end notes.new result ≡ single_object f v columns o lent allowance notes.old }
{
    // Fixed memory, as in `convert`.
    let mut words: [u64; MOST_NOTES] = [0; MOST_NOTES];
    let mut spare: [u64; MOST_NOTES] = [0; MOST_NOTES];
    let tally = Tally {
        left: allowance,
        longest: 0,
    };
    let d = Draws {
        random: lent,
        tally,
    };
    let (made, e) = object::generate(f, v, columns, o, &mut words, &mut spare, d).map_err(
        |refused| ObjectRefused {
            refusal: refused.refusal,
            random: lent,
        },
    )?;
    keep(o, &words, made, lent, allowance, e, notes)
}

// The checks in their order, and then the object's rule.
pub fn convert_object(
    f: Facts,
    v: PrevValues,
    columns: u8,
    o: Object,
    lent: Random,
    allowance: u32,
    notes: &mut [u8],
) -> Result<Converted, ObjectRefused>
    ensures { single_end notes.new result ≡ single_object f v columns o lent allowance notes.old }
{
    entry::entry_refusal(f, v, columns, o).map_err(|refusal| ObjectRefused {
        refusal,
        random: lent,
    })?;
    generate(f, v, columns, o, lent, allowance, notes)
}
