// pattern_generator/hit_object.rs: the generator of a circle's pattern. Its columns are written into a lent buffer, one word a note, in walk order.
// Whoever calls lends the room: 16 words, more than a circle's notes take.
#![tactic(auto)]

pub mod ready;

ghost use Rattle.std.specs.Prelude.{◌≡◌, ◌&&◌, ◌≤◌, map, length};
ghost use Rattle.random.specs.Play.{on};
ghost use Rattle.mania.specs.PatternType.{contains};
ghost use Rattle.mania.specs.HitObject as Rule;
ghost use Rattle.pattern.specs.Answers.{placed, AtMost, Generates};
ghost use Rattle.circle_notes.specs.Answers.{circle_at};

use circle_notes::circle::Circle;
use mania::{Facts, HitObjectPatternGenerator, PrevValues, Stair};
use model::Object;
use pattern::{Made, Pattern};
use random::{Draws, Outcome};
use ready::ReadyCircle;

// `new`: four values one by one, as the definition takes them.
pub fn new(f: Facts, v: PrevValues, columns: u8, o: Object) -> HitObjectPatternGenerator
    ensures { result ≡ Rule.new f v columns o }
{
    let by_time = hit_object_type::type_by_time(f, v, o);
    let flags = hit_object_type::type_by_sound(columns, o.sound, by_time);
    HitObjectPatternGenerator {
        columns,
        x: o.position.x,
        start: o.start,
        sound: o.sound,
        difficulty: f.difficulty,
        mask: v.mask,
        last: v.last,
        stair: v.stair,
        flags,
    }
}

// ---- the branches in their order

// Whether the previous pattern has notes, and the convert type names what is done with them.
fn repeats(g: HitObjectPatternGenerator, bits: u16) -> bool
    ensures { result ≡ (contains g.flags bits && Rule.some g) }
{
    pattern::has_type(g.flags, bits) & (g.mask != 0)
}

// Whether its single note is turned round.
fn cycles(g: HitObjectPatternGenerator) -> bool
    ensures { result ≡ Rule.cycles g }
{
    let has = pattern::has_type(g.flags, pattern::CYCLE);
    let alone = pattern::column_count(g.mask) == 1;
    let off_special = (g.columns != 8) | (g.last != 0);
    let off_centre = (g.columns % 2 == 0) | (g.last != g.columns / 2);
    has & alone & off_special & off_centre
}

// Whether it is a single note that a stair goes on from.
fn climbs(g: HitObjectPatternGenerator, stair: u16) -> bool
    ensures { result ≡ (Rule.alone g && contains g.flags stair) }
{
    (pattern::column_count(g.mask) == 1) & pattern::has_type(g.flags, stair)
}

// The next column of a stair: a function as the reverse stair's is, since the rule names both.
fn stair_column(ready: ReadyCircle) -> u8
    ensures { result ≡ Rule.stair_column ready.circle.g }
{
    let g = ready.circle.g;
    pattern::next_column(g.columns, g.last)
}

// The next column of a reverse stair; off the deck before column 0.
fn reverse_stair_column(ready: ReadyCircle) -> u8
    ensures { result ≡ Rule.reverse_stair_column ready.circle.g }
{
    let g = ready.circle.g;
    if g.last == pattern::random_start(g.columns) {
        g.columns - 1
    } else {
        g.last.wrapping_sub(1)
    }
}

// A circle's pattern.
fn generate_core(d: Draws, ready: ReadyCircle, words: &mut [u64]) -> Outcome<Pattern>
    requires { 16 ≤ length words.old }
    ensures { (placed (circle_at ready.circle.g.start) words.new result ≡ on (Rule.generate_core ready.circle.g) d) × AtMost 14 result }
{
    let circle = ready.circle;
    let g = circle.g;
    if g.columns == 1 {
        return circle_notes::new_note(d, g, 0, words);
    }
    if repeats(g, pattern::REVERSE) {
        return circle_notes::reversed(d, circle, words);
    }
    if cycles(g) {
        let c = circle_notes::image(g.columns, g.last);
        return circle_notes::new_note(d, g, c, words);
    }
    if repeats(g, pattern::FORCE_STACK) {
        return circle_notes::stacked(d, circle, words);
    }
    if climbs(g, pattern::STAIR) {
        let c = stair_column(ready);
        return circle_notes::new_note(d, g, c, words);
    }
    if climbs(g, pattern::REVERSE_STAIR) {
        let c = reverse_stair_column(ready);
        return circle_notes::new_note(d, g, c, words);
    }
    if pattern::has_type(g.flags, pattern::KEEP_SINGLE) {
        return circle_notes::generate_random_notes(d, circle, 1, words);
    }
    if pattern::has_type(g.flags, pattern::MIRROR) {
        let m = hit_object_type::mirrored_by(g.difficulty);
        return circle_notes::generate_random_pattern_with_mirrored(d, circle, m, words);
    }
    let rare = pattern::has_type(g.flags, pattern::LOW_PROBABILITY);
    let chances = hit_object_type::chances_by(g.difficulty, rare);
    circle_notes::generate_random_pattern(d, circle, chances, words)
}

// ---- the whole rule

// The stair after a note at column c.
fn turned(circle: Circle, c: u8, s: Stair) -> Stair
    ensures { result ≡ Rule.turned circle.g c s }
{
    let g = circle.g;
    let low = pattern::random_start(g.columns);
    let down = pattern::has_type(g.flags, pattern::REVERSE_STAIR);
    let up = pattern::has_type(g.flags, pattern::STAIR);
    if down & (c == low) {
        Stair::Up
    } else if up & (c == g.columns - 1) {
        Stair::Reverse
    } else {
        s
    }
}

// The stair after all of a pattern's notes, one a word.
fn stair_after(circle: Circle, notes: &[u64]) -> Stair
    ensures { result ≡ Rule.stair_after circle.g circle.g.stair (map (circle_at circle.g.start) notes.now) }
{
    notes.iter().fold(
        circle.g.stair,
        |s, w| turned(circle, pattern::column_of(*w), s),
    )
}

pub fn generate_by_value(d: Draws, ready: ReadyCircle, words: &mut [u64]) -> Outcome<Made>
    requires { 16 ≤ length words.old }
    ensures { Generates (circle_at ready.circle.g.start) words.new (on (Rule.generate ready.circle.g) d) 14 result }
{
    let (pattern, next) = generate_core(d, ready, words)?;
    let stair = stair_after(ready.circle, &words[..pattern.count]);
    Ok((Made { pattern, stair }, next))
}
