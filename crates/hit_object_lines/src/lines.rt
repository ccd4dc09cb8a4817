// A note's line. `s` and `at` are as in `text`.
ghost use Rattle.std.specs.Prelude.{◌≡◌, ◌+◌, ◌≤◌, ◌<◌, length};
ghost use Rattle.chart.specs.Bytes.{splice};
ghost use Rattle.hit_object_lines.specs.Lines.{circle, hold, head_text, line_text, x_of, line_of};
ghost use Rattle.hit_object_lines.specs.Laws.Notes.{Writable};

use crate::times::milliseconds;
use chart::Note;
use text::{places, put_number, put_word};

// After x: y is 192 in every line.
pub const Y_PART: &[u8] = b",192,";

// After the start of a circle: type 1, no hit sound, no hit sample.
pub const CIRCLE_PART: &[u8] = b",1,0,0:0:0:0:\n";

// After the start of a hold: type 128, no hit sound.
pub const HOLD_PART: &[u8] = b",128,0,";

// After the end of a hold: no hit sample.
pub const END_PART: &[u8] = b":0:0:0:0:\n";

// The least whole number not below column * 512 / columns.
fn x_of(columns: u8, column: u8) -> u32
    requires { 0 < columns }
    ensures { result ≡ x_of columns column }
{
    (u32::from(column) * 512).div_ceil(u32::from(columns))
}

fn head_size(x: u32, start: u32) -> usize
    ensures { (result ≡ length (head_text x start)) × (result ≤ 25) }
{
    places(x) + Y_PART.len() + places(start)
}

// How many bytes a note's line has.
pub fn line_size(columns: u8, n: Note) -> usize
    requires { Writable columns n }
    ensures { (result ≡ length (line_text (line_of columns n))) × (result ≤ 52) }
{
    let start = milliseconds(n.start);
    let size = head_size(x_of(columns, n.column), start);
    if n.hold {
        return size + HOLD_PART.len() + places(start + milliseconds(n.duration)) + END_PART.len();
    }
    size + CIRCLE_PART.len()
}

// Stores x, y and the start from `at`, and gives the index after them. All other bytes keep their values, as below.
fn put_head(s: &mut [u8], at: usize, x: u32, start: u32) -> usize
    requires { at + length (head_text x start) ≤ length s.old }
    ensures value { result ≡ at + length (head_text x start) }
    ensures s_after { s.new ≡ splice s.old at (head_text x start) }
{
    let a = put_number(s, at, x);
    let b = put_word(s, a, Y_PART);
    put_number(s, b, start)
}

fn put_circle(s: &mut [u8], at: usize, x: u32, start: u32) -> usize
    requires { at + length (line_text (circle x start)) ≤ length s.old }
    ensures value { result ≡ at + length (line_text (circle x start)) }
    ensures s_after { s.new ≡ splice s.old at (line_text (circle x start)) }
{
    let a = put_head(s, at, x, start);
    put_word(s, a, CIRCLE_PART)
}

fn put_hold(s: &mut [u8], at: usize, x: u32, start: u32, end: u32) -> usize
    requires { at + length (line_text (hold x start end)) ≤ length s.old }
    ensures value { result ≡ at + length (line_text (hold x start end)) }
    ensures s_after { s.new ≡ splice s.old at (line_text (hold x start end)) }
{
    let a = put_head(s, at, x, start);
    let b = put_word(s, a, HOLD_PART);
    let c = put_number(s, b, end);
    put_word(s, c, END_PART)
}

// Stores a note's line.
pub fn put_line(s: &mut [u8], at: usize, columns: u8, n: Note) -> usize
    requires { Writable columns n × (at + length (line_text (line_of columns n)) ≤ length s.old) }
    ensures value { result ≡ at + length (line_text (line_of columns n)) }
    ensures s_after { s.new ≡ splice s.old at (line_text (line_of columns n)) }
{
    let x = x_of(columns, n.column);
    let start = milliseconds(n.start);
    if n.hold {
        return put_hold(s, at, x, start, start + milliseconds(n.duration));
    }
    put_circle(s, at, x, start)
}
