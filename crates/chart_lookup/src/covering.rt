// The holds that cover an instant.
ghost use Rattle.std.specs.Prelude.{◌≡◌, ◌≤◌, ◌<◌, length, get_or};
ghost use Rattle.chart.specs.Chart.{notes_in, blank};
ghost use Rattle.chart_lookup.specs.Lookup.{Covering, wanted, places, filled, given, told};
ghost use Rattle.chart_lookup.specs.Search.{Stretch, held_from};

use crate::starts::starting_before;
use chart_reader::counted::Notes;
use exact_times::instant::Instant;
use exact_times::moments::{covers, first_after};
use rules::Refusal;

// Whether the note of a place is a hold that covers an instant. Most notes end before it, circles too, so the kind is looked at last.
fn is_covering(notes: Notes, place: u32, at: Instant) -> bool
    requires { place < notes.count }
    ensures { result ≡ wanted (Covering at.t) (get_or (notes_in notes.entry.chart.now) place blank) }
{
    let n = notes.note(place);
    covers(n.start, n.duration, at) && n.hold
}

// The place of the first such hold, or `end` where there is none before it: the callers count from there either way.
fn first_covering(notes: Notes, end: u32, at: Instant) -> u32
    requires { end ≤ notes.count }
    ensures { (result ≤ end) × (held_from at.t result notes.entry.chart.now ≡ held_from at.t 0 notes.entry.chart.now) }
{
    (0..end).find(|i| is_covering(notes, *i, at)).unwrap_or(end)
}

// How many there are from a place on. A loop: by std's `filter` and `count` the check finds no proof.
fn count_covering(notes: Notes, first: u32, end: u32, at: Instant) -> u32
    requires { Stretch (wanted (Covering at.t)) (notes_in notes.chart.now) first end }
    ensures { result ≡ length (held_from at.t first notes.entry.chart.now) }
{
    let mut found = 0;
    for i in first..end {
        if is_covering(notes, i, at) {
            found += 1;
        }
    }
    found
}

// Writes the places of those from a place on, `found` of them. Later entries keep their values. A `while`, since the loop ends with the last place written,
// not with the last note.
fn write_covering(notes: Notes, first: u32, end: u32, found: u32, at: Instant, list: &mut [u32])
    requires { Stretch (wanted (Covering at.t)) (notes_in notes.chart.now) first end
        × (found ≡ length (held_from at.t first notes.chart.now)) × (found ≤ length list.old) }
    ensures { list.new ≡ filled (held_from at.t first notes.entry.chart.now) list.old }
{
    let mut k = 0;
    let mut i = first;
    while k < found {
        if is_covering(notes, i, at) {
            list[k as usize] = i;
            k += 1;
        }
        i += 1;
    }
}

// The lookup in a chart that was read. Only notes that start at or before the instant are looked at. Inlined, it takes an instruction more for each note.
#[inline(never)]
pub fn list_covering(notes: Notes, at: Instant, list: &mut [u32]) -> Result<Option<u32>, Refusal>
    ensures { (told result, list.new) ≡ given (places (wanted (Covering at.t)) 0 (notes_in notes.entry.chart.now)) list.old }
{
    let end = starting_before(notes, first_after(at));
    let first = first_covering(notes, end, at);
    let found = count_covering(notes, first, end, at);
    if found == 0 {
        return Ok(None);
    }
    if found as usize > list.len() {
        return Err(Refusal::ListTooShort);
    }
    write_covering(notes, first, end, found, at, list);
    Ok(Some(found))
}
