// A single object: what goes in are the parameters of `sumopine_object` up to the duration, in their order, and the four words of the state. Flags
// and the kind have 32 bits, mask and repeats 16, last column, columns and sounds 8. Its numbers go on with the count of notes, mask, last
// column, stair, state and draws; what is due are its notes. The places are those of sumopine_object's parameters in an entry, as oracle/compare writes
// them.
ghost use Rattle.std.specs.Prelude.{◌<◌};

use crate::lent::holds;
use crate::list::Entry;
use crate::numbers::{byte, double, half, single, word};
use mania::{Facts, PrevValues};
use model::Object;
use object_numbers::Told;
use random::Random;

fn facts(s: &[u8]) -> Facts {
    object_numbers::facts_of(
        double(s, 0),
        double(s, 8),
        double(s, 16),
        double(s, 24),
        word(s, 32),
        double(s, 36),
    )
}

fn previous(s: &[u8]) -> PrevValues {
    object_numbers::previous_of(
        double(s, 44),
        single(s, 52),
        single(s, 56),
        half(s, 60) as u32,
        byte(s, 62) as u32,
        word(s, 63),
    )
}

fn object(s: &[u8]) -> Object {
    let distance = object_numbers::given(word(s, 91), double(s, 95));
    let node = object_numbers::given(word(s, 103), byte(s, 107));
    let kind = object_numbers::kind_of(
        word(s, 85),
        half(s, 89) as u32,
        distance,
        node,
        double(s, 108),
    );
    object_numbers::object_of(
        single(s, 68),
        single(s, 72),
        double(s, 76),
        byte(s, 84) as u32,
        kind,
    )
}

fn state(s: &[u8], at: usize) -> Random
    requires { at < 256 }
{
    Random {
        x: word(s, at),
        y: word(s, at + 4),
        z: word(s, at + 8),
        w: word(s, at + 12),
    }
}

// By hand: `==` on a `Told` made of these words would be no shorter, and a state and a `Told` would need a derive for it alone.
fn same_numbers(t: Told, numbers: &[u8]) -> bool {
    let due = state(numbers, 28);
    t.number == word(numbers, 8)
        && t.count == word(numbers, 12)
        && t.mask == word(numbers, 16)
        && t.last == word(numbers, 20)
        && t.stair == word(numbers, 24)
        && t.state.x == due.x
        && t.state.y == due.y
        && t.state.z == due.z
        && t.state.w == due.w
        && t.draws == word(numbers, 44)
}

// Whether an object ends as recorded, in every number and in every byte of the buffer.
pub fn agrees(entry: Entry, notes: &mut [u8]) -> bool {
    let s = entry.input;
    let end = single::convert_object(
        facts(s),
        previous(s),
        byte(s, 67),
        object(s),
        state(s, 116),
        word(entry.numbers, 4),
        notes,
    );
    same_numbers(object_numbers::tell(end), entry.numbers) && holds(notes, entry.due)
}
