// The chart sheet for the engineer's folder: pages of 64 lines, a note to a line, put into a lent buffer. `s` and `at` are as in `text`.
#![tactic(auto)]

mod layout;
mod shown;

ghost use Rattle.std.specs.Prelude.{◌≡◌, ◌+◌, ◌*◌, ◌^◌, ◌≤◌, ◌<◌, length};
ghost use Rattle.chart.specs.Layout.{most_in_chart};
ghost use Rattle.chart.specs.Bytes.{splice};
ghost use Rattle.chart.specs.Chart.{notes_in};
ghost use Rattle.sheet.specs.Layout.{page_lines, line_width, line_size};
ghost use Rattle.sheet.specs.Sheet.{milliseconds, mark, note_text, head_text, text_at, line_at, lines, pages, told, given, sheeted};
ghost use Rattle.sheet.specs.Fits.{StartFits, NoteFits};

use chart::Note;
use chart_reader::counted::Notes;
use chart_reader::read;
use floats::{Way, to_count};
use layout::{
    LINE_SIZE, LINE_WIDTH, NUMBER_WIDTH, PAGE_LINES, PAGE_NOTES, START_WIDTH, WORD_WIDTH,
};
use rules::Refusal;
use shown::Sheet;
use text::{put_right, put_run, put_word};

// How many pages so many notes take.
fn pages_of(count: u32) -> u32
    requires { count ≤ most_in_chart }
    ensures { result ≡ pages count }
{
    count.div_ceil(PAGE_NOTES).max(1)
}

// A start in whole milliseconds, cut downward: `hit_object_lines::milliseconds` is nearly the same by another definition, and neither crate knows the other.
fn start_of(start: u64) -> u32
    requires { StartFits start }
    ensures { result ≡ milliseconds start }
{
    to_count(f64::from_bits(start), Way::Floor)
}

fn mark_of(hold: bool) -> u8
    ensures { result ≡ mark hold }
{
    if hold { b'#' } else { b'o' }
}

// Stores the text of a page's first line from `at`, and gives the index after it. All other bytes keep their values, as below.
fn put_head(s: &mut [u8], at: usize, page: u32) -> usize
    requires { (page < 10 ^ 6) × (at + line_width ≤ length s.old) }
    ensures value { result ≡ at + length (head_text page) }
    ensures s_after { s.new ≡ splice s.old at (head_text page) }
{
    let word = put_word(s, at, b"PAGE");
    let gap = put_run(s, word, b' ', WORD_WIDTH - 4);
    put_right(s, gap, NUMBER_WIDTH, page)
}

// Stores the text of a note's line.
fn put_note(s: &mut [u8], at: usize, columns: u32, n: Note) -> usize
    requires { NoteFits columns n × (at + line_width ≤ length s.old) }
    ensures value { result ≡ at + length (note_text columns n) }
    ensures s_after { s.new ≡ splice s.old at (note_text columns n) }
{
    let column = n.column as usize;
    let start = put_right(s, at, START_WIDTH, start_of(n.start));
    let gap = put_word(s, start, b" ");
    let before = put_run(s, gap, b'.', column);
    let note = put_run(s, before, mark_of(n.hold), 1);
    put_run(s, note, b'.', columns as usize - (column + 1))
}

// Stores the text of the line with index i of a chart's sheet: a page's first, a note's, or none.
fn put_text(sheet: Sheet, i: u32, s: &mut [u8], at: usize) -> usize
    requires { (i < page_lines * pages sheet.notes.count) × (at + line_width ≤ length s.old) }
    ensures value { (result ≡ at + length (text_at sheet.entry.columns (notes_in sheet.entry.notes.chart.now) i)) × (result ≤ at + line_width) }
    ensures s_after { s.new ≡ splice s.old at (text_at sheet.entry.columns (notes_in sheet.entry.notes.chart.now) i) }
{
    let page = i / PAGE_LINES;
    let line = i % PAGE_LINES;
    if line == 0 {
        return put_head(s, at, page + 1);
    }
    let place = PAGE_NOTES * page + (line - 1);
    if place >= sheet.notes.count {
        return at;
    }
    put_note(s, at, sheet.columns, sheet.notes.note(place))
}

// Stores the line with index i, with spaces to the edge and its line feed.
fn put_line(sheet: Sheet, i: u32, s: &mut [u8])
    requires { (i < page_lines * pages sheet.notes.count) × (line_size * i + line_size ≤ length s.old) }
    ensures { s.new ≡ splice s.old (line_size * i) (line_at sheet.entry.columns (notes_in sheet.entry.notes.chart.now) i) }
{
    let at = LINE_SIZE * (i as usize);
    let end = put_text(sheet, i, s, at);
    let edge = put_run(s, end, b' ', at + LINE_WIDTH - end);
    put_word(s, edge, b"\n");
}

// Stores the first lines of a chart's sheet, so many, from the start of the buffer.
fn put_lines(sheet: Sheet, end: u32, s: &mut [u8])
    requires { (end ≤ page_lines * pages sheet.notes.count) × (line_size * end ≤ length s.old) }
    ensures { s.new ≡ splice s.old 0 (lines sheet.entry.columns (notes_in sheet.entry.notes.chart.now) end) }
{
    for i in 0..end {
        put_line(sheet, i, s);
    }
}

// The sheet of a chart that was read.
fn put_read(sheet: Sheet, s: &mut [u8]) -> Result<usize, Refusal>
    ensures { (told result, s.new) ≡ given
        (lines sheet.entry.columns (notes_in sheet.entry.notes.chart.now) (page_lines * pages sheet.entry.notes.count)) s.old }
{
    let end = PAGE_LINES * pages_of(sheet.notes.count);
    let size = LINE_SIZE * (end as usize);
    if s.len() < size {
        return Err(Refusal::SheetTooShort);
    }
    put_lines(sheet, end, s);
    Ok(size)
}

// Stores a chart's sheet from the start of the buffer, and gives its length. Later bytes keep their values; on a refusal all do.
pub fn put_sheet(chart: &[u8], s: &mut [u8]) -> Result<usize, Refusal>
    ensures { (told result, s.new) ≡ sheeted chart.now s.old }
{
    let header = read(chart)?;
    let sheet = Sheet {
        notes: Notes::new(chart, header),
        columns: header.columns,
    };
    put_read(sheet, s)
}
