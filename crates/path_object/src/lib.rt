// pattern_generator/path_object.rs: the patterns of a slider. Each function is a rule of mania/specs/PathObject.antt, and writes its notes into the
// lent buffer, whose room it asks, as slider_patterns does.
#![tactic(auto)]

pub mod ready;

ghost use Rattle.std.specs.Prelude.{◌≡◌, leb, ltb, ◌-◌, ◌*◌, ◌≤◌, ◌<◌, length, if◌then◌else◌};
ghost use Rattle.model.specs.Limits.{most_notes};
ghost use Rattle.mania.specs.PatternType.{force_not_stack, ◌⊔ₜ◌};
ghost use Rattle.std.specs.Int.Count.{ones};
ghost use Rattle.random.specs.Play.{on};
ghost use Rattle.mania.specs.PathObject as Path;
ghost use Rattle.pattern.specs.Answers.{Generates};
ghost use Rattle.slider_notes.specs.Words.{note_of_word};
ghost use Rattle.slider_notes.specs.Answers.{Places};

use mania::PathObjectPatternGenerator;
use model::limits::LATEST_END;
use pattern::{EMPTY, Made, Pattern};
use random::{Draws, Outcome, Refused};
use ready::ReadySlider;
use rules::Refusal;
use slider_patterns::slider::Slider;
use slider_times::Chance;

// ---- the branches in their order

// Fewer spans than this can be tiled.
fn tile_limit(columns: u8) -> u32
    requires { 2 ≤ columns }
    ensures { result ≡ Path.tile_limit columns }
{
    let start = pattern::random_start(columns);
    (columns - 1 - start) as u32
}

// `generate_` with more than one span.
pub fn generate_spans(d: Draws, slider: Slider, words: &mut [u64]) -> Outcome<Pattern>
    requires { (most_notes ≤ length words.old) × (slider.g.length * slider.g.spans ≤ slider.g.end - slider.g.start) }
    ensures { Places words.new (on (Path.generate_spans slider.g) d) most_notes result }
{
    let g = slider.g;
    let span = g.length;
    let difficulty = g.difficulty;
    if span <= 90 {
        return slider_patterns::generate_random_hold_notes(d, slider, words, 1);
    }
    if span <= 120 {
        let flags = g.flags | pattern::FORCE_NOT_STACK;
        return slider_patterns::generate_random_notes(d, slider, words, flags, g.spans + 1);
    }
    if span <= 160 {
        return slider_patterns::generate_stair(d, slider, words);
    }
    let fast = (span <= 200) & (3.0 < difficulty);
    if fast {
        return slider_patterns::generate_random_multiple_notes(d, slider, words);
    }
    let lasts = g.end.saturating_sub(g.start);
    if 4000 <= lasts {
        let chance = Chance {
            p2: 0.23,
            p3: 0.0,
            p4: 0.0,
        };
        return slider_patterns::generate_n_random_notes(d, slider, words, chance);
    }
    let limit = tile_limit(g.columns);
    let tiled = (400 < span) & (g.spans < limit);
    if tiled {
        return slider_patterns::generate_tiled_hold_notes(d, slider, words);
    }
    slider_patterns::generate_hold_and_normal_notes(d, slider, words)
}

// The flags of one short span: `FORCE_NOT_STACK` unless the previous pattern fills the deck.
fn span_flags(g: PathObjectPatternGenerator) -> u16
    ensures { result ≡ (if ltb (ones g.mask) g.columns then g.flags ⊔ₜ force_not_stack else g.flags) }
{
    if pattern::leaves_some(g.columns, g.mask) {
        g.flags | pattern::FORCE_NOT_STACK
    } else {
        g.flags
    }
}

// The notes of one short span.
fn span_notes(length: u32) -> u32
    ensures { result ≡ (if leb 80 length then 2 else 1) }
{
    if 80 <= length { 2 } else { 1 }
}

// `generate_` with one span.
pub fn generate_span(d: Draws, slider: Slider, words: &mut [u64]) -> Outcome<Pattern>
    requires { most_notes ≤ length words.old }
    ensures { Places words.new (on (Path.generate_span slider.g) d) most_notes result }
{
    let g = slider.g;
    let span = g.length;
    if span <= 110 {
        let flags = span_flags(g);
        let n = span_notes(span);
        return slider_patterns::generate_random_notes(d, slider, words, flags, n);
    }
    let rare = pattern::has_type(g.flags, pattern::LOW_PROBABILITY);
    let chance = slider_times::chances_by(g.difficulty, rare);
    slider_patterns::generate_n_random_notes(d, slider, words, chance)
}

// `generate_`
pub fn generate_core(d: Draws, ready: ReadySlider, words: &mut [u64]) -> Outcome<Pattern>
    requires { (most_notes ≤ length words.old) × (ready.g.end ≤ Path.latest) }
    ensures { Places words.new (on (Path.generate_core ready.g) d) most_notes result }
{
    let g = ready.g;
    let columns = g.columns;
    let spans = g.spans;
    if columns == 1 {
        let p = slider_notes::put_slider_note(words, EMPTY, 0, g.start, g.end);
        return Ok((p, d));
    }
    let slider = Slider { g };
    if 1 < spans {
        return generate_spans(d, slider, words);
    }
    generate_span(d, slider, words)
}

// `generate`. The notes stand in `words` in walk order; `spare` is working space.
pub fn generate_by_value(
    d: Draws,
    ready: ReadySlider,
    words: &mut [u64],
    spare: &mut [u64],
) -> Outcome<Made>
    requires { (most_notes ≤ length spare.old) × (most_notes ≤ length words.old) }
    ensures { Generates note_of_word words.new (on (Path.generate ready.g) d) most_notes result }
{
    let end = ready.g.end;
    if LATEST_END < end {
        return Err(Refused {
            refusal: Refusal::SliderEnd,
            draws: d,
        });
    }
    let (p, next) = generate_core(d, ready, spare)?;
    let pattern = slider_notes::split(spare, p, end, words);
    let stair = ready.g.stair;
    Ok((Made { pattern, stair }, next))
}
