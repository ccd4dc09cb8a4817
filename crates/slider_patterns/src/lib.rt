// pattern_generator/path_object.rs: each of a slider's patterns. Each function is a rule of mania/specs/PathObject.antt, and writes its notes into the
// lent buffer: a slice, of which each asks the room, since an array would ask 602 words of a circle's caller too.
#![tactic(auto)]

pub mod slider;

ghost use Rattle.std.specs.Prelude.{◌≡◌, ◌&&◌, ltb, ◌+◌, ◌-◌, ◌*◌, ◌≤◌, ◌<◌, min, length, if◌then◌else◌};
ghost use Rattle.model.specs.Limits.{most_notes, most_long_spans};
ghost use Rattle.mania.specs.PatternType.{force_not_stack, contains};
ghost use Rattle.std.specs.Int.Count.{ones};
ghost use Rattle.random.specs.Play.{on};
ghost use Rattle.mania.specs.Steps.{double};
ghost use Rattle.mania.specs.PatternGenerator.{random_start};
ghost use Rattle.mania.specs.PathObject as Path;
ghost use Rattle.random.specs.Answers.{number};
ghost use Rattle.slider_times.specs.Chances.{chances};
ghost use Rattle.slider_notes.specs.Answers.{Places};

use mania::PathObjectPatternGenerator;
use model::sound;
use pattern::{EMPTY, Pattern};
use random::{Draws, Outcome};
use slider::Slider;
use slider_notes::{add_besides, add_holds, any_column};
use slider_times::Chance;

// Whether a slider's own column moves off the previous pattern.
fn is_moved(g: PathObjectPatternGenerator, flags: u16) -> bool
    ensures { result ≡ (contains flags force_not_stack && ltb (ones g.mask) g.columns) }
{
    let apart = pattern::has_type(flags, pattern::FORCE_NOT_STACK);
    apart & pattern::leaves_some(g.columns, g.mask)
}

// `head_column`
fn head_column(d: Draws, slider: Slider, flags: u16) -> Outcome<u8>
    ensures { number result ≡ on (Path.head_column slider.g flags) d }
{
    let g = slider.g;
    let own = pattern::get_column(g.x, g.columns);
    if is_moved(g, flags) {
        return slider_notes::find_column(d, g.columns, own, g.mask);
    }
    Ok((own, d))
}

// How many of n holds find no room off the previous pattern, and come anywhere.
fn holds_over(columns: u8, mask: u16, n: u32) -> u32
    requires { (1 ≤ columns) × (n ≤ 6) }
    ensures { (result ≡ n + ones mask - (columns - random_start columns)) × (result ≤ 22) }
{
    let deck = columns - pattern::random_start(columns);
    let all = n + pattern::column_count(mask);
    all.saturating_sub(deck as u32)
}

// `generate_random_hold_notes`
pub fn generate_random_hold_notes(
    d: Draws,
    slider: Slider,
    words: &mut [u64],
    n: u32,
) -> Outcome<Pattern>
    requires { (most_notes ≤ length words.old) × (n ≤ 6) }
    ensures { Places words.new (on (Path.generate_random_hold_notes slider.g n) d) most_notes result }
{
    let g = slider.g;
    let off = pattern::room(g.columns, g.mask).min(n);
    let over = holds_over(g.columns, g.mask, n);
    let (c, next) = any_column(d, g.columns)?;
    let (some, after) = add_holds(next, g, words, g.mask, off, c, EMPTY)?;
    let (all, end) = add_holds(after, g, words, 0, over, some.column, some.pattern)?;
    Ok((all.pattern, end))
}

// `generate_random_notes`
pub fn generate_random_notes(
    d: Draws,
    slider: Slider,
    words: &mut [u64],
    flags: u16,
    n: u32,
) -> Outcome<Pattern>
    requires { (most_notes ≤ length words.old) × (n ≤ slider.g.spans + 1) }
    ensures { Places words.new (on (Path.generate_random_notes slider.g flags n) d) most_notes result }
{
    let (c, next) = head_column(d, slider, flags)?;
    let turns = slider.turns(n, c);
    slider_notes::add_row(next, turns, words, EMPTY)
}

// `generate_stair`
pub fn generate_stair(d: Draws, slider: Slider, words: &mut [u64]) -> Outcome<Pattern>
    requires { most_notes ≤ length words.old }
    ensures { Places words.new (on (Path.generate_stair slider.g) d) most_notes result }
{
    let g = slider.g;
    let (v, next) = random::draw(d)?;
    let chance = random::next_double(v);
    let c = pattern::get_column(g.x, g.columns);
    let turns = slider.turns(g.spans + 1, c);
    slider_notes::add_stair(next, turns, words, 0.5 < chance, EMPTY)
}

// `generate_random_multiple_notes`
pub fn generate_random_multiple_notes(
    d: Draws,
    slider: Slider,
    words: &mut [u64],
) -> Outcome<Pattern>
    requires { most_notes ≤ length words.old }
    ensures { Places words.new (on (Path.generate_random_multiple_notes slider.g) d) most_notes result }
{
    let g = slider.g;
    let (v, next) = random::draw(d)?;
    let legacy = slider_notes::legacy(g.columns);
    let interval = random::next_int_range(v, 1, g.columns - legacy);
    let c = pattern::get_column(g.x, g.columns);
    let turns = slider.turns(g.spans + 1, c);
    slider_notes::add_rows(next, turns, words, interval, EMPTY)
}

// `generate_n_random_notes`
pub fn generate_n_random_notes(
    d: Draws,
    slider: Slider,
    words: &mut [u64],
    chance: Chance,
) -> Outcome<Pattern>
    requires { most_notes ≤ length words.old }
    ensures { Places words.new (on (Path.generate_n_random_notes slider.g (chances chance)) d) most_notes result }
{
    let g = slider.g;
    let k = slider_times::capped(g.columns, chance);
    let two = slider_times::can_generate_two_notes(g);
    let p2 = if two { 1.0 } else { k.p2 };
    let (n, next) = pattern::get_random_note_count(d, p2, k.p3, k.p4, 0.0, 0.0)?;
    generate_random_hold_notes(next, slider, words, n as u32)
}

// `generate_tiled_hold_notes`
pub fn generate_tiled_hold_notes(d: Draws, slider: Slider, words: &mut [u64]) -> Outcome<Pattern>
    requires { most_notes ≤ length words.old }
    ensures { Places words.new (on (Path.generate_tiled_hold_notes slider.g) d) most_notes result }
{
    let g = slider.g;
    let end = g.start + g.length * g.spans;
    let n = g.spans.min(g.columns as u32);
    let (c, next) = head_column(d, slider, g.flags)?;
    let turns = slider.turns(n, c);
    slider_notes::add_tiles(next, turns, words, end, EMPTY)
}

// `one_or_two`
fn one_or_two(d: Draws, p2: f64) -> Outcome<u8>
    ensures { number result ≡ on (Path.one_or_two p2) d }
{
    pattern::get_random_note_count(d, p2, 0.0, 0.0, 0.0, 0.0)
}

// `beside_count`: how many circles stand beside the hold.
fn beside_count(d: Draws, g: PathObjectPatternGenerator) -> Outcome<u8>
    ensures { number result ≡ on (Path.beside_count g) d }
{
    let few = g.columns < 6;
    let difficulty = g.difficulty;
    if 6.5 < difficulty {
        return one_or_two(d, 0.63);
    }
    if 4.0 < difficulty {
        return one_or_two(d, if few { 0.12 } else { 0.45 });
    }
    if 2.5 < difficulty {
        return one_or_two(d, if few { 0.0 } else { 0.24 });
    }
    Ok((0, d))
}

// `generate_hold_and_normal_notes`
pub fn generate_hold_and_normal_notes(
    d: Draws,
    slider: Slider,
    words: &mut [u64],
) -> Outcome<Pattern>
    requires { (most_notes ≤ length words.old) × (slider.g.spans ≤ most_long_spans) }
    ensures { Places words.new (on (Path.generate_hold_and_normal_notes slider.g) d) most_notes result }
{
    let g = slider.g;
    let bare = !sound::has_flag(g.head, sound::WHISTLE | sound::FINISH | sound::CLAP);
    let (hold, next) = head_column(d, slider, g.flags)?;
    let p = slider_notes::put_slider_note(words, EMPTY, hold, g.start, g.end);
    let (c, after) = any_column(next, g.columns)?;
    let (n, end) = beside_count(after, g)?;
    let k = n.min(g.columns - 1);
    let turns = slider.turns(g.spans + 1, c);
    add_besides(end, turns, words, hold, bare, k as u32, p)
}
