// Hit object lines of the osu! file format, version 14: a line for each note of a chart.
#![tactic(auto)]

pub mod lines;
mod score;
pub mod times;

ghost use Rattle.std.specs.Prelude.{◌≡◌, true, ◌≤◌, length};
ghost use Rattle.chart.specs.Bytes.{splice};
ghost use Rattle.chart.specs.Chart.{notes_in};
ghost use Rattle.hit_object_lines.specs.Lines.{chart_lines, all_whole, writing_notes, writing};
ghost use Rattle.hit_object_lines.specs.Told.{told, size_of, size_told};

use crate::lines::{line_size, put_line};
use crate::score::Score;
use crate::times::is_whole;
use chart_reader::counted::Notes;
use chart_reader::read;
use rules::Refusal;

// How many bytes a chart's lines have, if every time is a whole number of milliseconds.
fn text_size(score: Score) -> Option<usize>
    ensures { size_told result ≡ size_of score.entry.columns (notes_in score.entry.notes.chart.now) }
{
    let mut size: usize = 0;
    for i in 0..score.notes.count {
        let n = score.notes.note(i);
        if !is_whole(score.columns, n) {
            return None;
        }
        size += line_size(score.columns, n);
    }
    Some(size)
}

fn put_lines(score: Score, s: &mut [u8])
    requires whole { all_whole (notes_in score.notes.chart.now) ≡ true }
    requires room { length (chart_lines score.columns (notes_in score.notes.chart.now)) ≤ length s.old }
    ensures { s.new ≡ splice s.old 0 (chart_lines score.entry.columns (notes_in score.entry.notes.chart.now)) }
{
    let mut at = 0;
    for i in 0..score.notes.count {
        let n = score.notes.note(i);
        at = put_line(s, at, score.columns, n);
    }
}

// Writes the lines of a chart that was read.
fn write_notes(score: Score, text: &mut [u8]) -> Result<usize, Refusal>
    ensures result_value { told result ≡ (writing_notes score.entry.columns (notes_in score.entry.notes.chart.now) text.old).0 }
    ensures text_after { text.new ≡ (writing_notes score.entry.columns (notes_in score.entry.notes.chart.now) text.old).1 }
{
    let size = text_size(score).ok_or(Refusal::NotWhole)?;
    if size > text.len() {
        return Err(Refusal::TextTooShort);
    }
    put_lines(score, text);
    Ok(size)
}

// Writes the lines of a chart from the start of `text`, and gives how many bytes they have. The bytes after them keep their values; on a refusal all do.
pub fn write_lines(chart: &[u8], text: &mut [u8]) -> Result<usize, Refusal>
    ensures result_value { told result ≡ (writing chart.now text.old).0 }
    ensures text_after { text.new ≡ (writing chart.now text.old).1 }
{
    let header = read(chart)?;
    let score = Score {
        notes: Notes::new(chart, header),
        columns: header.columns as u8,
    };
    write_notes(score, text)
}
