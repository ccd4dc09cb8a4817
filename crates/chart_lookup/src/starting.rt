// The notes that start within two times.
ghost use Rattle.std.specs.Prelude.{◌≡◌, ◌+◌, ◌^◌, ◌≤◌, ◌<◌, length};
ghost use Rattle.chart.specs.Chart.{notes_in};
ghost use Rattle.chart_lookup.specs.Lookup.{Starting, wanted, places, filled, given, told};
ghost use Rattle.chart_lookup.specs.Search.{run};

use crate::starts::starting_before;
use chart_reader::counted::Notes;
use exact_times::instant::Instant;
use exact_times::moments::{first_after, first_at};
use rules::Refusal;

// Writes consecutive places. Later entries keep their values.
fn write_run(first: u32, found: u32, list: &mut [u32])
    requires { (first + found < 2 ^ 32) × (found ≤ length list.old) }
    ensures { list.new ≡ filled (run first found) list.old }
{
    for k in 0..found {
        list[k as usize] = first + k;
    }
}

// The lookup in a chart that was read. Starts never fall, so the places follow one another.
pub fn list_starting(
    notes: Notes,
    from: Instant,
    to: Instant,
    list: &mut [u32],
) -> Result<Option<u32>, Refusal>
    ensures { (told result, list.new) ≡ given (places (wanted (Starting from.t to.t)) 0 (notes_in notes.entry.chart.now)) list.old }
{
    let first = starting_before(notes, first_at(from));
    let end = starting_before(notes, first_after(to));
    if end <= first {
        return Ok(None);
    }
    let found = end - first;
    if found as usize > list.len() {
        return Err(Refusal::ListTooShort);
    }
    write_run(first, found, list);
    Ok(Some(found))
}
