// An object's notes, from the words that its generator left to the bytes of a chart.
#![tactic(auto)]

ghost use Rattle.std.specs.Prelude.{◌≡◌, map, ◌*◌, ◌≤◌, ◌<◌, length};
ghost use Rattle.chart.specs.Layout.{note_size};
ghost use Rattle.chart.specs.declared.Version.TheVariants.{Two};
ghost use Rattle.chart.specs.Bytes.{splice};
ghost use Rattle.mania.specs.Chart.{pattern_of, body};
ghost use Rattle.mania.specs.Made as Made;
ghost use Rattle.slider_notes.specs.Words.{note_of_word};
ghost use Rattle.object.specs.Notes.{note_at};
ghost use Rattle.notes.specs.Columns.{in_column};

use chart::Version;
use chart::layout::NOTE_SIZE;
use mania::Note;
use model::{Kind, Object};

// A note of the object at an index, with its times as bit patterns.
fn pattern_of(index: u16, n: Note) -> chart::Note
    ensures { result ≡ pattern_of index n }
{
    let start = std::num::f64_to_bits_with_nan(n.start);
    let duration = std::num::f64_to_bits_with_nan(n.duration);
    chart::Note {
        column: n.column,
        hold: n.hold,
        origin: Some(index),
        start,
        duration,
    }
}

// A circle in column 0.
fn circle(start: f64) -> Note
    ensures { result ≡ Made.circle 0 start }
{
    Note {
        column: 0,
        hold: false,
        start,
        duration: 0.0,
    }
}

// `value`. The test always holds, but the compiler cannot know: otherwise it would split a value that is the same in every round of a loop into
// bytes before the loop, and store them one by one.
fn pinned(value: u64, at: usize, size: usize) -> u64
    requires { at < size }
    ensures { result ≡ value }
{
    if at < size { value } else { 0 }
}

// Writes the note `n` once for each word, in the word's column. Its times become bit patterns once, before the loop. By index,
// here and below: `i` is the place of the word and of the note.
fn put_in_columns(index: u16, n: Note, words: &[u64], s: &mut [u8])
    requires { note_size * length words.now ≤ length s.old }
    ensures { s.new ≡ splice s.old 0 (body index (map (in_column n) words.now)) }
{
    let p = pattern_of(index, n);
    for i in 0..words.len() {
        let at = NOTE_SIZE * i;
        let row = chart::Note {
            column: pattern::column_of(words[i]),
            start: pinned(p.start, at, s.len()),
            duration: pinned(p.duration, at, s.len()),
            ..p
        };
        chart::rows::put_note(Version::Two, s, at, row);
    }
}

// Writes a slider's notes: each word has its own start and end.
fn put_slider_notes(index: u16, words: &[u64], s: &mut [u8])
    requires { note_size * length words.now ≤ length s.old }
    ensures { s.new ≡ splice s.old 0 (body index (map note_of_word words.now)) }
{
    for i in 0..words.len() {
        let n = slider_notes::note_of(words[i]);
        let p = pattern_of(index, n);
        chart::rows::put_note(Version::Two, s, NOTE_SIZE * i, p);
    }
}

// Writes the notes of the object at `index`, one a word, from the first byte of `s` on. All other bytes keep their values. The kinds are told apart
// before any loop, so that nothing depends on a duration that the kind does not have.
pub fn put_notes(index: u16, o: Object, words: &[u64], s: &mut [u8])
    requires { note_size * length words.now ≤ length s.old }
    ensures { s.new ≡ splice s.old 0 (body index (map (note_at o) words.now)) }
{
    match o.kind {
        Kind::Circle => put_in_columns(index, circle(o.start), words, s),
        Kind::Slider { .. } => put_slider_notes(index, words, s),
        Kind::Spinner(duration) | Kind::Hold(duration) => {
            let n = end_time_object::end_note_at(o, duration, 0);
            put_in_columns(index, n, words, s)
        }
    }
}
