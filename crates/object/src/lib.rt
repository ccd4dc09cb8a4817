// The notes of one object, by its kind, for the walk and for the single-object entry. Facts, previous values, columns and object are four parameters, as in
// the definitions, so the deck's bounds stand in the two contracts below. `words` and `spare` are the caller's memory, since there is no heap; only sliders
// use `spare`.
#![tactic(auto)]

ghost use Rattle.std.specs.Prelude.{◌≡◌, ◌^◌, ◌≤◌, ◌<◌, length};
ghost use Rattle.model.specs.Limits.{latest_start, most_notes, most_repeats};
ghost use Rattle.random.specs.Play.{on};
ghost use Rattle.floats.specs.Laws.Values.{UpTo};
ghost use Rattle.mania.specs.HitObject as HitObject;
ghost use Rattle.mania.specs.PathObject as PathObject;
ghost use Rattle.pattern.specs.Answers.{Generates};
ghost use Rattle.circle_notes.specs.Answers.{circle_at};
ghost use Rattle.slider_notes.specs.Words.{note_of_word};
ghost use Rattle.object.specs.Contract.{Asks, Ends};

use end_time_object::generator::EndTimeObjectPatternGenerator;
use mania::{Facts, PrevValues};
use model::{Kind, Object};
use path_object::ready::ReadySlider;
use pattern::Made;
use random::{Draws, Outcome};

// A circle's notes.
fn generate_circle(
    f: Facts,
    v: PrevValues,
    columns: u8,
    o: Object,
    words: &mut [u64],
    spare: &mut [u64],
    d: Draws,
) -> Outcome<Made>
    requires { (1 ≤ columns) × (columns ≤ 9) × (v.last < columns) × (most_notes ≤ length words.old) }
    ensures { Generates (circle_at o.start) words.new (on (HitObject.generate (HitObject.new f v columns o)) d) 14 result }
{
    let g = hit_object::new(f, v, columns, o);
    let circle = circle_notes::circle::Circle { g };
    let ready = hit_object::ready::ReadyCircle { circle };
    generators::generate_owned(d, ready, words, spare)
}

// A slider's notes.
fn generate_slider(
    f: Facts,
    v: PrevValues,
    columns: u8,
    o: Object,
    repeats: u16,
    distance: Option<f64>,
    node: Option<u8>,
    words: &mut [u64],
    spare: &mut [u64],
    d: Draws,
) -> Outcome<Made>
    requires { (1 ≤ columns) × (columns ≤ 9) × (repeats ≤ most_repeats) × UpTo latest_start o.start × (most_notes ≤ length words.old) × (most_notes ≤ length spare.old) }
    ensures { Generates note_of_word words.new (on (PathObject.generate (PathObject.new f v columns o repeats distance node)) d) most_notes result }
{
    let g = slider_times::new(f, v, columns, o, repeats, distance, node);
    generators::generate_owned(d, ReadySlider { g }, words, spare)
}

// By the object's kind, as `convert` goes. The notes stand in `words` in walk order; `spare` is working space.
pub fn generate(
    f: Facts,
    v: PrevValues,
    columns: u8,
    o: Object,
    words: &mut [u64],
    spare: &mut [u64],
    d: Draws,
) -> Outcome<Made>
    requires { Asks v columns o (length words.old) (length spare.old) }
    ensures { Ends f v columns o d words.new result }
{
    match o.kind {
        Kind::Circle => generate_circle(f, v, columns, o, words, spare, d),
        Kind::Slider {
            repeats,
            distance,
            node,
        } => generate_slider(f, v, columns, o, repeats, distance, node, words, spare, d),
        Kind::Spinner(duration) | Kind::Hold(duration) => {
            let g = EndTimeObjectPatternGenerator {
                v,
                columns,
                o,
                duration,
            };
            generators::generate_owned(d, g, words, spare)
        }
    }
}
