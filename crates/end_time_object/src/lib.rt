// The generator of a spinner or a hold: one note.
#![tactic(auto)]

ghost use Rattle.std.specs.Prelude.{◌≡◌, ◌<◌, length, eqb, if◌then◌else◌};
ghost use Rattle.std.specs.Int.Count.{ones};
ghost use Rattle.random.specs.Play.{on};
ghost use Rattle.random.specs.Answers.{number};
ghost use Rattle.mania.specs.EndTimeObject as Rule;
ghost use Rattle.pattern.specs.Answers.{Generates};
ghost use Rattle.end_time_object.specs.Answers.{end_note_at};

pub mod generator;

use generator::EndTimeObjectPatternGenerator;
use mania::{Next, Note};
use model::{Object, sound};
use pattern::search::Search;
use pattern::{Made, Pattern};
use random::{Draws, Outcome, Refused};
use rules::Refusal;

// How long the note lasts.
fn lasting(o: Object, duration: f64) -> f64
    ensures { result ≡ Rule.lasting o duration }
{
    o.start + duration - o.start
}

// The columns that the note must not take: the previous pattern's, unless they fill the deck.
fn barred(mask: u16, columns: u8) -> u16
    ensures { result ≡ (if eqb (ones mask) columns then 0 else mask) }
{
    if pattern::column_count(mask) == columns as u32 {
        0
    } else {
        mask
    }
}

// A drawn column, off the previous pattern.
fn end_column(d: Draws, g: EndTimeObjectPatternGenerator) -> Outcome<u8>
    ensures { number result ≡ on (Rule.end_column g.v g.columns) d }
{
    let columns = g.columns;
    let taken = barred(g.v.mask, columns);
    let low = pattern::random_start(columns);
    let (c, drawn) = pattern::get_random_column(d, low, columns)?;
    let search = Search {
        next: Next::Draw,
        columns,
        initial: c,
        lower: low,
        upper: columns,
        taken,
    };
    pattern::find_available_column(drawn, search)
}

// The note's column: of 8 columns the special one for a short finish.
fn note_column(d: Draws, g: EndTimeObjectPatternGenerator, lasts: f64) -> Outcome<u8>
    ensures { number result ≡ on (Rule.note_column g.v g.columns g.o lasts) d }
{
    let finish = sound::has_flag(g.o.sound, sound::FINISH);
    if (g.columns == 8) & finish & (lasts < 1000.0) {
        return Ok((0, d));
    }
    end_column(d, g)
}

// The note at a column: a hold where it lasts 100 or more. Two cases, as the definition has them.
fn end_note(o: Object, lasts: f64, c: u8) -> Note
    ensures { result ≡ Rule.end_note o lasts c }
{
    if 100.0 <= lasts {
        Note {
            column: c,
            hold: true,
            start: o.start,
            duration: lasts,
        }
    } else {
        Note {
            column: c,
            hold: false,
            start: o.start,
            duration: 0.0,
        }
    }
}

// The note of a word.
pub fn end_note_at(o: Object, duration: f64, w: u64) -> Note
    ensures { result ≡ end_note_at o duration w }
{
    let lasts = lasting(o, duration);
    end_note(o, lasts, pattern::column_of(w))
}

// One note; the previous pattern and the stair stay.
pub fn generate_by_value(
    d: Draws,
    g: EndTimeObjectPatternGenerator,
    words: &mut [u64],
) -> Outcome<Made>
    requires { 0 < length words.old }
    ensures { Generates (end_note_at g.o g.duration) words.new (on (Rule.generate g.v g.columns g.o g.duration) d) 1 result }
{
    let lasts = lasting(g.o, g.duration);
    let (c, next) = note_column(d, g, lasts)?;
    if g.columns <= c {
        return Err(Refused {
            refusal: Refusal::OffDeck,
            draws: next,
        });
    }
    words[0] = c as u64;
    let pattern = Pattern {
        mask: g.v.mask,
        last: g.v.last,
        count: 1,
    };
    Ok((
        Made {
            pattern,
            stair: g.v.stair,
        },
        next,
    ))
}
