// A job: its record goes in. Its numbers go on with the object, the draws and the longest search; what is due is its chart, which has the
// draws in its header.
use crate::lent::{holds, is_zero};
use crate::list::Entry;
use crate::numbers::word;

// Whether a job ends as recorded, in every number and in every byte of the buffer.
pub fn agrees(entry: Entry, chart: &mut [u8]) -> bool {
    let numbers = entry.numbers;
    // Of the numbers alone, as the others here: `entry.number` may be of the bytes after them.
    let number = word(numbers, 8);
    match convert::convert(entry.input, chart, word(numbers, 4)) {
        Ok(made) => {
            number == 0
                && made.length == entry.due.len()
                && made.longest == word(numbers, 20)
                && holds(chart, entry.due)
        }
        Err(refused) => {
            u32::from(refused.refusal) == number
                && refused.object == word(numbers, 12)
                && refused.draws == word(numbers, 16)
                && is_zero(chart)
        }
    }
}
