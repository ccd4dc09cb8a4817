// A line, and its note.
ghost use Rattle.std.specs.Prelude.{◌≡◌, ◌≤◌, ◌<◌, length, IfSome, None};
ghost use Rattle.model.specs.Limits.{latest_end};
ghost use Rattle.hit_object_lines.specs.Reading.{head, hold_on, line, note_on, note_of_line};
ghost use Rattle.chart.specs.Chart.{found};
ghost use Rattle.hit_object_reader.specs.Told.{InTime, head_told, line_of, line_told, row_told};

use crate::deck::Deck;
use crate::digits::number;
use chart::Note;
use hit_object_lines::lines::{CIRCLE_PART, END_PART, HOLD_PART, Y_PART};
use hit_object_lines::times::time_of;

// x, and the start in milliseconds. That they are at most `latest_end` stands in the contracts: a hold's end would need a type of its own for one arm.
#[derive(Clone, Copy)]
pub struct Head {
    pub x: u32,
    pub start: u32,
}

// What a line says.
#[derive(Clone, Copy)]
pub enum Line {
    Circle(Head),
    Hold(Head, u32),
}

// What s begins with, and what follows it: here x and the start.
fn head_on(s: &[u8]) -> Option<(Head, &[u8])>
    ensures value { head_told result ≡ head s.now }
    ensures bounds { IfSome result (λ p. (p.0.x ≤ latest_end) × (p.0.start ≤ latest_end) × (length p.1.now < length s.now)) }
{
    let (x, y) = number(s)?;
    let time = y.strip_prefix(Y_PART)?;
    let (start, rest) = number(time)?;
    Some((Head { x, start }, rest))
}

// The rest of a hold, from its type on.
fn hold_on(head: Head, s: &[u8]) -> Option<(Line, &[u8])>
    requires { (head.x ≤ latest_end) × (head.start ≤ latest_end) }
    ensures value { line_told result ≡ hold_on head.x head.start s.now }
    ensures bounds { IfSome result (λ p. InTime (line_of p.0) × (length p.1.now < length s.now)) }
{
    let time = s.strip_prefix(HOLD_PART)?;
    let (end, sample) = number(time)?;
    let rest = sample.strip_prefix(END_PART)?;
    Some((Line::Hold(head, end), rest))
}

// A line.
fn line_on(s: &[u8]) -> Option<(Line, &[u8])>
    ensures value { line_told result ≡ line s.now }
    ensures bounds { IfSome result (λ p. InTime (line_of p.0) × (length p.1.now < length s.now)) }
{
    let (head, kind) = head_on(s)?;
    match kind.strip_prefix(CIRCLE_PART) {
        Some(rest) => Some((Line::Circle(head), rest)),
        None => hold_on(head, kind),
    }
}

// A line's note; none where a hold does not last.
fn note_of(deck: Deck, line: Line) -> Option<Note>
    requires { InTime (line_of line) }
    ensures value { found result ≡ note_of_line deck.columns (line_of line) }
    ensures bounds { IfSome result (λ n. (n.column < deck.columns) × (n.origin ≡ None)) }
{
    match line {
        Line::Circle(head) => Some(Note {
            column: deck.column_of(head.x),
            hold: false,
            origin: None,
            start: time_of(head.start),
            duration: 0,
        }),
        Line::Hold(head, end) => {
            if end <= head.start {
                return None;
            }
            Some(Note {
                column: deck.column_of(head.x),
                hold: true,
                origin: None,
                start: time_of(head.start),
                duration: time_of(end - head.start),
            })
        }
    }
}

// The note of a line that s begins with, and what follows it.
pub fn note_on(deck: Deck, s: &[u8]) -> Option<(Note, &[u8])>
    ensures value { row_told result ≡ note_on deck.columns s.now }
    ensures bounds { IfSome result (λ p. (p.0.column < deck.columns) × (p.0.origin ≡ None) × (length p.1.now < length s.now)) }
{
    let (line, rest) = line_on(s)?;
    Some((note_of(deck, line)?, rest))
}
