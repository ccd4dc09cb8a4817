// The text of a chart, as `charttext` prints it: one line at a time into a lent buffer, or a whole chart. `s` and `at` are as in `text`.
#![tactic(auto)]

ghost use Rattle.std.specs.Prelude.{◌≡◌, ◌+◌, ◌*◌, ◌≤◌, length};
ghost use Rattle.chart.specs.Bytes.{splice};
ghost use Rattle.chart.specs.Chart.{notes_in};
ghost use Rattle.chart_text.specs.Text.{draws_line, head_line, note_line, note_lines, refusal_line, text};

use chart::Note;
use chart_reader::counted::Notes;
use chart_reader::read;
use text::{put_decimal, put_named, put_with_hex, put_word};

// Stores a line of two numbers and the draws from `at`, each number after its word, and gives the index after it.
fn put_draws_line(
    s: &mut [u8],
    at: usize,
    first: &[u8],
    a: u32,
    second: &[u8],
    b: u32,
    draws: u32,
) -> usize
    requires { (length first.now ≤ 8) × (length second.now ≤ 8) × (at + 64 ≤ length s.old) }
    ensures value { (result ≡ at + length (draws_line first.now a second.now b draws)) × (result ≤ at + 64) }
    ensures s_after { s.new ≡ splice s.old at (draws_line first.now a second.now b draws) }
{
    let one = put_named(s, at, first, a);
    let two = put_named(s, one, second, b);
    let three = put_named(s, two, b" draws ", draws);
    put_word(s, three, b"\n")
}

// Stores a chart's first line from `at`, where there is room for 64 bytes, and gives the index after it.
pub fn put_head_line(s: &mut [u8], at: usize, columns: u32, notes: u32, draws: u32) -> usize
    requires { at + 64 ≤ length s.old }
    ensures value { (result ≡ at + length (head_line columns notes draws)) × (result ≤ at + 64) }
    ensures s_after { s.new ≡ splice s.old at (head_line columns notes draws) }
{
    put_draws_line(s, at, b"columns ", columns, b" notes ", notes, draws)
}

// Stores a note's line from `at`, where there is room for 51 bytes, and gives the index after it.
pub fn put_note_line(s: &mut [u8], at: usize, n: Note) -> usize
    requires { at + 51 ≤ length s.old }
    ensures value { (result ≡ at + length (note_line n)) × (result ≤ at + 51) }
    ensures s_after { s.new ≡ splice s.old at (note_line n) }
{
    let a = put_decimal(s, at, n.column as u32);
    if n.hold {
        let b = put_with_hex(s, a, b" H ", n.start);
        let c = put_with_hex(s, b, b" ", n.duration);
        return put_word(s, c, b"\n");
    }
    let b = put_with_hex(s, a, b" C ", n.start);
    put_word(s, b, b"\n")
}

// Stores the line of a refused job from `at`, where there is room for 64 bytes, and gives the index after it.
pub fn put_refusal_line(s: &mut [u8], at: usize, number: u32, object: u32, draws: u32) -> usize
    requires { at + 64 ≤ length s.old }
    ensures value { (result ≡ at + length (refusal_line number object draws)) × (result ≤ at + 64) }
    ensures s_after { s.new ≡ splice s.old at (refusal_line number object draws) }
{
    put_draws_line(s, at, b"refused ", number, b" object ", object, draws)
}

// Stores the lines of the notes of a chart from `at`, where there is room for 51 bytes each, and gives the index after them.
fn put_note_lines(notes: Notes, s: &mut [u8], at: usize) -> usize
    requires { at + 51 * notes.count ≤ length s.old }
    ensures value { (result ≡ at + length (note_lines (notes_in notes.entry.chart.now))) × (result ≤ at + 51 * notes.entry.count) }
    ensures s_after { s.new ≡ splice s.old at (note_lines (notes_in notes.entry.chart.now)) }
{
    let mut next = at;
    for i in 0..notes.count {
        let n = notes.note(i);
        next = put_note_line(s, next, n);
    }
    next
}

// Stores the text of a chart, where there is room for 3 bytes for each of its bytes and 40 more, and gives its length.
pub fn put_chart(chart: &[u8], s: &mut [u8]) -> usize
    requires { 3 * length chart.now + 40 ≤ length s.old }
    ensures value { (result ≡ length (text chart.now)) × (result ≤ length s.old) }
    ensures s_after { s.new ≡ splice s.old 0 (text chart.now) }
{
    match read(chart) {
        Ok(header) => {
            let at = put_head_line(s, 0, header.columns, header.notes, header.draws);
            put_note_lines(Notes::new(chart, header), s, at)
        }
        Err(_) => 0,
    }
}
