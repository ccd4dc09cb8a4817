// The chart reader.
#![tactic(auto)]

pub mod counted;
pub mod time;

ghost use Rattle.std.specs.Prelude.{◌≡◌, cond, None, Some, ◌≤◌, ◌<◌, length, get_or, drop};
ghost use Rattle.chart.specs.Layout.{header_size, column_values, chart_size_in, most_in_chart};
ghost use Rattle.chart.specs.Order.{rank};
ghost use Rattle.chart.specs.Chart.{version_of, columns_of, count_of, draws_of, ok_head, ok_rows, ok_note, lasts, reading, meaning, note_in, found, notes_in, blank};
ghost use Rattle.floats.specs.Format.{infinity};

use crate::time::within;
use chart::bytes::get;
use chart::layout::HEADER_SIZE;
use chart::order::precedes;
use chart::rows::{note_in, zeros_ok};
use chart::{BLANK, Header, Note, Version, layout};
use floats::Float;
use rules::Refusal;

// A hold lasts; the duration of a circle is zero bits.
fn lasting(hold: bool, duration: u64) -> bool
    requires { duration < infinity }
    ensures { result ≡ lasts hold duration }
{
    if hold { 0 < duration } else { duration == 0 }
}

// Whether a note may stand after `last`.
fn may_stand(columns: u8, last: Note, n: Note) -> bool
    requires { (columns < column_values) × (last.column < column_values) }
    ensures { result ≡ ok_note columns (rank last) n }
{
    if n.column >= columns {
        return false;
    }
    if n.start >= f64::INFINITY_BITS {
        return false;
    }
    if n.duration >= f64::INFINITY_BITS {
        return false;
    }
    if precedes(n, last) {
        return false;
    }
    if !lasting(n.hold, n.duration) {
        return false;
    }
    within(n.start, n.duration)
}

// The version by the header's first four bits. No `TryFrom`: a note is read from bytes of any header, where a number other than 1 reads as 2; the reader of
// a whole chart tests it.
fn version_of(chart: &[u8]) -> Version
    requires { 1 ≤ length chart.now }
    ensures { result ≡ version_of chart.now }
{
    if chart[0] / 16 == 1 {
        Version::One
    } else {
        Version::Two
    }
}

// Whether the notes that a header states may stand there, one after another. By places and no chunks: a note is defined of all the bytes from its place on.
fn rows_ok(header: Header, chart: &[u8]) -> bool
    requires { (header.columns < column_values) × (chart_size_in header.version header.notes ≤ length chart.now) × (header.notes ≤ most_in_chart) }
    ensures { result ≡ ok_rows header.version header.columns 0 header.notes (drop header_size chart.now) }
{
    let version = header.version;
    let columns = header.columns as u8;
    let mut last = BLANK;
    for i in 0..header.notes as usize {
        let at = layout::place(version, i);
        if !zeros_ok(version, chart, at) {
            return false;
        }
        let n = note_in(version, chart, at);
        if !may_stand(columns, last, n) {
            return false;
        }
        last = n;
    }
    true
}

// The draws in a chart's header.
pub fn draws_in(chart: &[u8]) -> u32
    requires { header_size ≤ length chart.now }
    ensures { result ≡ draws_of chart.now }
{
    get(chart, 4, 4) as u32
}

// What the header says, where there are its eight bytes at least, version 1 or 2, columns 1 to 9, and as many bytes as the stated notes
// take: one test after another, as the definition lists them.
fn header_of(chart: &[u8]) -> Option<Header>
    ensures { result ≡ cond (ok_head chart.now) (Some (record { version = version_of chart.now; columns = columns_of chart.now; notes = count_of chart.now; draws = draws_of chart.now })) None }
{
    if chart.len() < HEADER_SIZE {
        return None;
    }
    let version = version_of(chart);
    let columns = chart[0] % 16;
    let notes = get(chart, 1, 3);
    if chart[0] / 16 != u8::from(version) {
        return None;
    }
    if columns < 1 {
        return None;
    }
    if columns > 9 {
        return None;
    }
    if chart.len() != layout::place(version, notes as usize) {
        return None;
    }
    Some(Header {
        version,
        columns: u32::from(columns),
        notes: notes as u32,
        draws: draws_in(chart),
    })
}

pub fn read(chart: &[u8]) -> Result<Header, Refusal>
    ensures { meaning result ≡ reading chart.now }
{
    let header = header_of(chart).ok_or(Refusal::BrokenChart)?;
    if !rows_ok(header, chart) {
        return Err(Refusal::BrokenChart);
    }
    Ok(header)
}

// The note of an index, counted from 0.
pub fn note(chart: &[u8], index: u32) -> Option<Note>
    ensures { found result ≡ note_in chart.now index }
{
    if chart.len() < HEADER_SIZE {
        return None;
    }
    let version = version_of(chart);
    let at = layout::place(version, index as usize);
    if at + layout::note_size(version) > chart.len() {
        return None;
    }
    Some(note_in(version, chart, at))
}

// The note of a place in a chart that was read: there is one, and `BLANK` is as in the definition's `get_or`.
pub fn note_of(chart: &[u8], place: u32) -> Note
    requires { place < length (notes_in chart.now) }
    ensures { result ≡ get_or (notes_in chart.now) place blank }
{
    note(chart, place).unwrap_or(BLANK)
}
