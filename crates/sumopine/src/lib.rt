// What a host in C links. A slice is two arguments there, a pointer and a length, and a number behind a `&mut` is a pointer. Assumes nothing.
// include/sumopine.h declares these functions.
#![tactic(auto)]

pub mod hit_objects;
pub mod lookups;
pub mod one_object;
pub mod ranges;
pub mod sheets;

ghost use Rattle.std.specs.Prelude.{◌≡◌};
ghost use Rattle.job.specs.Job.{job};
ghost use Rattle.job.specs.Job as Job;
ghost use Rattle.chart.specs.Chart.{reading, note_in};
ghost use Rattle.sheet.specs.Sheet as Sheet;
ghost use Rattle.hit_object_lines.specs.Told as Told;
ghost use Rattle.sumopine.specs.HitObjects.{outcome_number, outcome_length};
ghost use Rattle.sumopine.specs.Sheets.{sheet_number, sheet_length};
ghost use Rattle.sumopine.specs.Numbers.{number_of, length_of, object_of, longest_of, read_number, read_version, read_columns, read_notes, read_draws, is_found, column_in, hold_in, start_in, duration_in, has_object_in, object_in};

use rules::Refusal;

// An answer as two numbers: 0 and the bytes written, or the refusal's number and 0. Two clauses, since the sheet and the lines define an outcome each. Other
// answers are converted in place: one function for all of them would take a conversion and its contract.
fn measured(answer: Result<usize, Refusal>, length: &mut u64) -> u32
    ensures lines { (result ≡ outcome_number (Told.told answer)) × (length.new ≡ outcome_length (Told.told answer)) }
    ensures sheet { (result ≡ sheet_number (Sheet.told answer)) × (length.new ≡ sheet_length (Sheet.told answer)) }
{
    match answer {
        Ok(k) => {
            *length = k as u64;
            0
        }
        Err(refusal) => {
            *length = 0;
            u32::from(refusal)
        }
    }
}

// A job, of a record's bytes: 0, the chart's length and the most draws of one search, or the refusal's number and the object's index; and the draws made.
#[unsafe(no_mangle)]
pub extern "C" fn sumopine_convert(
    bytes: &[u8],
    chart: &mut [u8],
    allowance: u32,
    length: &mut u64,
    object: &mut u32,
    draws: &mut u32,
    longest_search: &mut u32,
) -> u32
    ensures value { result ≡ number_of (job bytes.now chart.old allowance).answer }
    ensures length_after { length.new ≡ length_of (job bytes.now chart.old allowance).answer }
    ensures object_after { object.new ≡ object_of (job bytes.now chart.old allowance).answer }
    ensures draws_after { draws.new ≡ Job.draws bytes.now chart.old allowance }
    ensures longest_search_after { longest_search.new ≡ longest_of (job bytes.now chart.old allowance).answer }
    ensures chart_after { chart.new ≡ (job bytes.now chart.old allowance).chart }
{
    match convert::convert(bytes, chart, allowance) {
        Ok(made) => {
            *length = made.length as u64;
            *object = 0;
            *draws = chart_reader::draws_in(chart);
            *longest_search = made.longest;
            0
        }
        Err(refused) => {
            *length = 0;
            *object = refused.object;
            *draws = refused.draws;
            *longest_search = 0;
            u32::from(refused.refusal)
        }
    }
}

// Reads a chart: 0, its version and the three numbers of its header, or 14 and zeros.
#[unsafe(no_mangle)]
pub extern "C" fn sumopine_read_chart(
    chart: &[u8],
    version: &mut u32,
    columns: &mut u32,
    notes: &mut u32,
    draws: &mut u32,
) -> u32
    ensures value { result ≡ read_number (reading chart.now) }
    ensures version_after { version.new ≡ read_version (reading chart.now) }
    ensures columns_after { columns.new ≡ read_columns (reading chart.now) }
    ensures notes_after { notes.new ≡ read_notes (reading chart.now) }
    ensures draws_after { draws.new ≡ read_draws (reading chart.now) }
{
    match chart_reader::read(chart) {
        Ok(header) => {
            *version = u32::from(u8::from(header.version));
            *columns = header.columns;
            *notes = header.notes;
            *draws = header.draws;
            0
        }
        Err(refusal) => {
            *version = 0;
            *columns = 0;
            *notes = 0;
            *draws = 0;
            u32::from(refusal)
        }
    }
}

// The note of an index, counted from 0: 1 and its fields where the bytes go on to its end, else 0 and zeros.
#[unsafe(no_mangle)]
pub extern "C" fn sumopine_note(
    chart: &[u8],
    index: u32,
    column: &mut u32,
    hold: &mut u32,
    start: &mut u64,
    duration: &mut u64,
    has_object: &mut u32,
    object: &mut u32,
) -> u32
    ensures value { result ≡ is_found (note_in chart.now index) }
    ensures column_after { column.new ≡ column_in (note_in chart.now index) }
    ensures hold_after { hold.new ≡ hold_in (note_in chart.now index) }
    ensures start_after { start.new ≡ start_in (note_in chart.now index) }
    ensures duration_after { duration.new ≡ duration_in (note_in chart.now index) }
    ensures has_object_after { has_object.new ≡ has_object_in (note_in chart.now index) }
    ensures object_after { object.new ≡ object_in (note_in chart.now index) }
{
    match chart_reader::note(chart, index) {
        Some(n) => {
            *column = n.column as u32;
            *hold = u32::from(n.hold);
            *start = n.start;
            *duration = n.duration;
            *has_object = u32::from(n.origin.is_some());
            *object = u32::from(n.origin.unwrap_or(0));
            1
        }
        None => {
            *column = 0;
            *hold = 0;
            *start = 0;
            *duration = 0;
            *has_object = 0;
            *object = 0;
            0
        }
    }
}
