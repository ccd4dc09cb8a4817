// The note of a column whose start is nearest to a time.
ghost use Rattle.std.specs.Prelude.{◌≡◌, Ok, ◌≤◌};
ghost use Rattle.std.proofs.Math.Option.{none};
ghost use Rattle.exact_times.specs.Instants.{instant};
ghost use Rattle.chart.specs.Chart.{notes_in};
ghost use Rattle.chart_lookup.specs.Lookup.{told};
ghost use Rattle.chart_lookup.specs.Nearest.{nearest, placed, seeking, sought};
ghost use Rattle.chart_lookup.specs.Search.{Following, Last, past};

use crate::starts::starting_before;
use chart_reader::counted::Notes;
use chart_reader::read;
use exact_times::instant::Instant;
use exact_times::moments::{first_at, nearer};
use rules::Refusal;

// The place of the first note of a column from a place on. A loop: by std's `find` it takes an instruction more for each note that is passed.
fn next_of(notes: Notes, column: u32, from: u32) -> Option<u32>
    requires { from ≤ notes.count }
    ensures { Following (notes_in notes.entry.chart.now) column from result }
{
    for i in from..notes.count {
        if (notes.note(i).column as u32) == column {
            return Some(i);
        }
    }
    None
}

// The place of the last note of a column before a place. A loop: std has laws on what `find` gives of a range, but not of one taken from its end.
fn last_of(notes: Notes, column: u32, end: u32) -> Option<u32>
    requires { end ≤ notes.count }
    ensures { Last (notes_in notes.entry.chart.now) column end (past result) }
{
    for place in (0..end).rev() {
        if (notes.note(place).column as u32) == column {
            return Some(place);
        }
    }
    None
}

// The nearest note of a column in a chart that was read: the next one from the time on, or the last one before it, of equal starts the first.
// Each `next_of` stands where its answer is used: kept in a local over the search backward, it takes an instruction more for each note that is passed.
fn nearest_of(notes: Notes, column: u32, at: Instant) -> Option<u32>
    ensures { told (Ok result) ≡ placed (nearest column (instant at.t) none 0 (notes_in notes.entry.chart.now)) }
{
    let end = starting_before(notes, first_at(at));
    let Some(last) = last_of(notes, column, end) else {
        return next_of(notes, column, end);
    };
    let start = notes.note(last).start;
    if let Some(next) = next_of(notes, column, end)
        && nearer(start, notes.note(next).start, at)
    {
        return Some(next);
    }
    next_of(notes, column, starting_before(notes, start))
}

// The lookup in a chart that was read.
fn seek(notes: Notes, columns: u32, column: u32, t: f64) -> Result<Option<u32>, Refusal>
    ensures { told result ≡ seeking columns (notes_in notes.entry.chart.now) column t }
{
    let at = Instant::new(t).ok_or(Refusal::Times)?;
    if column >= columns {
        return Err(Refusal::ColumnOffDeck);
    }
    Ok(nearest_of(notes, column, at))
}

// The place of the note of a column whose start is nearest to a time, or none where the column has no note.
pub fn nearest_note(chart: &[u8], column: u32, t: f64) -> Result<Option<u32>, Refusal>
    ensures { told result ≡ sought chart.now column t }
{
    let header = read(chart)?;
    seek(Notes::new(chart, header), header.columns, column, t)
}
