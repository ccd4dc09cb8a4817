// Hit object lines of the osu! file format, read: their notes, as a chart of version 1.
#![tactic(auto)]

pub mod deck;
pub mod digits;
pub mod rows;

ghost use Rattle.std.specs.Prelude.{◌≡◌, ◌≤◌, length};
ghost use Rattle.std.proofs.Math.Option.{some};
ghost use Rattle.chart.specs.Layout.{chart_size_in};
ghost use Rattle.chart.specs.declared.Version.TheVariants.{One};
ghost use Rattle.chart.specs.Bytes.{splice};
ghost use Rattle.chart.specs.Chart.{body};
ghost use Rattle.hit_object_lines.specs.Told.{told};
ghost use Rattle.hit_object_lines.specs.Reading.{notes_on, notes_for, reading_of, reading};
ghost use Rattle.hit_object_reader.specs.Told.{checked_told, count_of, lines_notes};

use crate::deck::Deck;
use crate::rows::note_on;
use chart::layout::{HEADER_SIZE, MOST_IN_CHART, OLD_NOTE_SIZE};
use chart::order::precedes;
use chart::rows::put_note;
use chart::{Note, Version};
use chart_writer::put_header;
use rules::Refusal;

// Reads every line: how many there are, if each has its shape, and none comes before the one above it. By `while`, here and below: what is left of the
// text tells when the lines end.
fn check_lines(s: &[u8], deck: Deck) -> Option<u32>
    ensures { checked_told result ≡ count_of (notes_for deck.columns s.now) }
{
    let mut last = chart::BLANK;
    let mut count: u32 = 0;
    let mut rest = s;
    while !rest.is_empty() {
        if count == MOST_IN_CHART {
            return None;
        }
        let (note, tail) = note_on(deck, rest)?;
        if precedes(note, last) {
            return None;
        }
        last = note;
        count += 1;
        rest = tail;
    }
    Some(count)
}

// Stores the notes of lines that were checked behind a header; `i` is the place of the next.
fn put_notes(s: &[u8], deck: Deck, chart: &mut [u8])
    requires lines { notes_on (length s.now) deck.columns s.now ≡ some (lines_notes deck.columns s.now) }
    requires room { chart_size_in One (length (lines_notes deck.columns s.now)) ≤ length chart.old }
    ensures { chart.new ≡ splice chart.old 8 (body One (lines_notes deck.columns s.now)) }
{
    let mut rest = s;
    let mut i: usize = 0;
    while let Some((note, tail)) = note_on(deck, rest) {
        put_note(Version::One, chart, HEADER_SIZE + OLD_NOTE_SIZE * i, note);
        i += 1;
        rest = tail;
    }
}

// Writes the chart of a text, version 1 with `columns` columns, from the start of `chart`, and gives how many bytes it has. Later bytes keep their
// values; on a refusal all do.
pub fn read_lines(s: &[u8], columns: u32, chart: &mut [u8]) -> Result<usize, Refusal>
    ensures result_value { told result ≡ (reading s.now columns chart.old).0 }
    ensures chart_after { chart.new ≡ (reading s.now columns chart.old).1 }
{
    let deck = Deck::new(columns).ok_or(Refusal::HitObjects)?;
    let count = check_lines(s, deck).ok_or(Refusal::HitObjects)?;
    let size = HEADER_SIZE + OLD_NOTE_SIZE * count as usize;
    if size > chart.len() {
        return Err(Refusal::ChartTooShort);
    }
    put_header(Version::One, chart, deck.columns, count, 0);
    put_notes(s, deck, chart);
    Ok(size)
}
