// A recorded list. An entry is three parts, each behind its length in 32 bits: what goes in, the numbers beside it, and the bytes that
// are due. The numbers have 32 bits each, with the highest byte first: the buffer's length, the allowance, the answer's number, and what
// the kind of list adds (jobs.rt, objects.rt).
ghost use Rattle.std.specs.Prelude.{◌≡◌, ◌+◌, length, IfSome};

use crate::numbers::word;

// An entry of a list. `buffer` and `number`, the buffer's length and the answer's number, are read from the list: where an entry has fewer numbers, from
// the bytes after them.
#[derive(Clone, Copy)]
pub struct Entry<'a> {
    pub input: &'a [u8],
    pub numbers: &'a [u8],
    pub due: &'a [u8],
    pub buffer: usize,
    pub number: u32,
}

// The part that a list begins with, and the list after it; nothing where the list is cut.
fn part<'a>(list: &'a [u8]) -> Option<(&'a [u8], &'a [u8])>
    ensures { IfSome result (λ p. length list.now ≡ 4 + length p.0.now + length p.1.now) }
{
    let (_, rest) = list.split_at_checked(4)?;
    rest.split_at_checked(word(list, 0) as usize)
}

// The entry that a list begins with, and the list after it; nothing where the list is cut. The lengths of the three parts, four bytes before each, and
// of what is after them make up the list's.
pub fn first_entry<'a>(list: &'a [u8]) -> Option<(Entry<'a>, &'a [u8])>
    ensures { IfSome result (λ p. length list.now ≡ 12 + length p.0.input.now + length p.0.numbers.now + length p.0.due.now + length p.1.now) }
{
    let (input, list) = part(list)?;
    let buffer = word(list, 4) as usize;
    let number = word(list, 12);
    let (numbers, list) = part(list)?;
    let (due, list) = part(list)?;
    Some((
        Entry {
            input,
            numbers,
            due,
            buffer,
            number,
        },
        list,
    ))
}
