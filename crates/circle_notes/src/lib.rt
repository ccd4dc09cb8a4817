// pattern_generator/hit_object.rs: the notes of each of a circle's patterns. Their columns are written into a lent buffer, one word a note, in walk order.
// Whoever calls lends the room, since there is no heap: 16 words, more than a circle's notes take; `add_note`, `add_one` and `add_pair` ask for what they put.
#![tactic(auto)]

pub mod circle;

ghost use Rattle.std.specs.Prelude.{◌≡◌, ℕ, ◌+◌, ◌-◌, ◌≤◌, ◌<◌, min, length};
ghost use Rattle.std.specs.Int.Count.{ones};
ghost use Rattle.random.specs.Play.{on};
ghost use Rattle.mania.specs.Pattern.{empty};
ghost use Rattle.mania.specs.PatternGenerator.{random_start};
ghost use Rattle.mania.specs.HitObject as Rule;
ghost use Rattle.pattern.specs.Answers.{pattern, placed, AtMost};
ghost use Rattle.circle_notes.specs.Answers.{circle_at, each};

use circle::Circle;
use mania::{CircleChances, HitObjectPatternGenerator, MirrorChances, Next};
use model::sound;
use pattern::Pattern;
use pattern::search::Search;
use random::{Draws, Outcome, Refused};
use rules::Refusal;

// A note more, at column c.
fn add_note(
    d: Draws,
    g: HitObjectPatternGenerator,
    c: u8,
    p: Pattern,
    words: &mut [u64],
) -> Outcome<Pattern>
    requires { (g.columns ≤ 9) × (p.count < length words.old) }
    ensures { (placed (circle_at g.start) words.new result ≡ on (Rule.add_note g c (pattern (circle_at g.start) words.old p)) d) × AtMost (p.count + 1) result }
{
    if g.columns <= c {
        return Err(Refused {
            refusal: Refusal::OffDeck,
            draws: d,
        });
    }
    words[p.count] = c as u64;
    let mask = pattern::with_column(p.mask, c);
    Ok((
        Pattern {
            mask,
            last: c,
            count: p.count + 1,
        },
        d,
    ))
}

// One note, in an empty pattern. It takes `g`: a deck of no column is refused here, and a `Circle` would ask for one.
pub fn new_note(
    d: Draws,
    g: HitObjectPatternGenerator,
    c: u8,
    words: &mut [u64],
) -> Outcome<Pattern>
    requires { (g.columns ≤ 9) × (16 ≤ length words.old) }
    ensures { (placed (circle_at g.start) words.new result ≡ on (Rule.add_note g c empty) d) × AtMost 14 result }
{
    add_note(d, g, c, pattern::EMPTY, words)
}

// The note of column i of the previous pattern, if it has one, at column c.
fn add_one(
    d: Draws,
    circle: Circle,
    i: u8,
    c: u8,
    p: Pattern,
    words: &mut [u64],
) -> Outcome<Pattern>
    requires { (i < 16) × (p.count < length words.old) }
    ensures { (placed (circle_at circle.g.start) words.new result ≡ on (Rule.add_one circle.g i c (pattern (circle_at circle.g.start) words.old p)) d) × AtMost (p.count + 1) result }
{
    if pattern::is_free(circle.g.mask, i) {
        return Ok((p, d));
    }
    add_note(d, circle.g, c, p, words)
}

// The mirror image of a column.
pub fn image(columns: u8, c: u8) -> u8
    requires { c < columns }
    ensures { result ≡ Rule.image columns c }
{
    pattern::random_start(columns) + columns - c - 1
}

// The notes of the previous pattern, each at the column that `to` gives for its own.
fn add_each<F: Fn(u8) -> u8>(d: Draws, circle: Circle, to: F, words: &mut [u64]) -> Outcome<Pattern>
    requires { (16 ≤ length words.old) × ((i : ℕ) → i < circle.g.columns → F.pre to i) }
    ensures { ((t : ℕ → ℕ) → ((i c : ℕ) → i < circle.g.columns → F.post to i c → c ≡ t i) → placed (circle_at circle.g.start) words.new result ≡ on (each circle.g t) d) × AtMost 14 result }
{
    let low = pattern::random_start(circle.g.columns);
    let mut rest = d;
    let mut p = pattern::EMPTY;
    for i in low..circle.g.columns {
        let c = to(i);
        let (q, next) = add_one(rest, circle, i, c, p, words)?;
        p = q;
        rest = next;
    }
    Ok((p, rest))
}

// The notes of the previous pattern, each at its mirror image.
pub fn reversed(d: Draws, circle: Circle, words: &mut [u64]) -> Outcome<Pattern>
    requires { 16 ≤ length words.old }
    ensures { (placed (circle_at circle.g.start) words.new result ≡ on (Rule.reversed circle.g) d) × AtMost 14 result }
{
    add_each(d, circle, |i| image(circle.g.columns, i), words)
}

// The notes of the previous pattern, each at its own column.
pub fn stacked(d: Draws, circle: Circle, words: &mut [u64]) -> Outcome<Pattern>
    requires { 16 ≤ length words.old }
    ensures { (placed (circle_at circle.g.start) words.new result ≡ on (Rule.stacked circle.g) d) × AtMost 14 result }
{
    add_each(d, circle, |i| i, words)
}

// How a search goes on: gathered circles step.
fn next_of(g: HitObjectPatternGenerator) -> Next
    ensures { result ≡ Rule.next_of g }
{
    if pattern::has_type(g.flags, pattern::GATHERED) {
        Next::Step
    } else {
        Next::Draw
    }
}

// A number of notes, each searched from the one before, off the pattern so far and off the mask `barred`.
fn add_random(
    d: Draws,
    circle: Circle,
    barred: u16,
    n: u8,
    first: u8,
    words: &mut [u64],
) -> Outcome<Pattern>
    requires { (first < circle.g.columns) × (n ≤ 6) × (16 ≤ length words.old) }
    ensures { (placed (circle_at circle.g.start) words.new result ≡ on (Rule.add_random circle.g barred n first empty) d) × AtMost 6 result }
{
    let columns = circle.g.columns;
    let low = pattern::random_start(columns);
    let how = next_of(circle.g);
    let mut rest = d;
    let mut p = pattern::EMPTY;
    let mut at = first;
    for _ in 0..n {
        let search = Search {
            next: how,
            columns,
            initial: at,
            lower: low,
            upper: columns,
            taken: p.mask | barred,
        };
        let (c, next) = pattern::find_available_column(rest, search)?;
        let (q, after) = add_note(next, circle.g, c, p, words)?;
        p = q;
        rest = after;
        at = c;
    }
    Ok((p, rest))
}

// Random notes; where stacking is forbidden, off the previous pattern and at most as many as there is room for.
pub fn generate_random_notes(
    d: Draws,
    circle: Circle,
    count: u8,
    words: &mut [u64],
) -> Outcome<Pattern>
    requires { (count ≤ 6) × (16 ≤ length words.old) }
    ensures { (placed (circle_at circle.g.start) words.new result ≡ on (Rule.generate_random_notes circle.g count) d) × AtMost 6 result }
{
    let g = circle.g;
    let first = pattern::get_column(g.x, g.columns);
    if pattern::has_type(g.flags, pattern::FORCE_NOT_STACK) {
        let n = pattern::room(g.columns, g.mask).min(count as u32);
        return add_random(d, circle, g.mask, n as u8, first, words);
    }
    add_random(d, circle, 0, count, first, words)
}

// Of 8 columns the special one too, where the sound has clap and finish.
fn add_special(d: Draws, circle: Circle, p: Pattern, words: &mut [u64]) -> Outcome<Pattern>
    requires { (p.count ≤ 13) × (16 ≤ length words.old) }
    ensures { (placed (circle_at circle.g.start) words.new result ≡ on (Rule.add_special circle.g (pattern (circle_at circle.g.start) words.old p)) d) × AtMost 14 result }
{
    let g = circle.g;
    let low = pattern::random_start(g.columns);
    let clap = sound::has_flag(g.sound, sound::CLAP);
    let finish = sound::has_flag(g.sound, sound::FINISH);
    if (0 < low) & (clap & finish) {
        return add_note(d, g, 0, p, words);
    }
    Ok((p, d))
}

pub fn generate_random_pattern(
    d: Draws,
    circle: Circle,
    chances: CircleChances,
    words: &mut [u64],
) -> Outcome<Pattern>
    requires { 16 ≤ length words.old }
    ensures { (placed (circle_at circle.g.start) words.new result ≡ on (Rule.generate_random_pattern circle.g chances) d) × AtMost 14 result }
{
    let (n, next) = hit_object_type::get_random_note_count(d, circle.g, chances)?;
    let (p, after) = generate_random_notes(next, circle, n, words)?;
    add_special(after, circle, p, words)
}

// ---- mirrored

// `2 ≤ circle.g.columns` stays a clause: of the four functions that ask it three would take a second struct apart, to call those that take a circle.

// A note and its mirror image.
fn add_pair(d: Draws, circle: Circle, c: u8, p: Pattern, words: &mut [u64]) -> Outcome<Pattern>
    requires { (c < circle.g.columns) × (p.count + 1 < length words.old) }
    ensures { (placed (circle_at circle.g.start) words.new result ≡ on (Rule.add_pair circle.g c (pattern (circle_at circle.g.start) words.old p)) d) × AtMost (p.count + 2) result }
{
    let other = image(circle.g.columns, c);
    let (q, next) = add_note(d, circle.g, c, p, words)?;
    add_note(next, circle.g, other, q, words)
}

// A number of notes and their mirror images, each searched from the one before in the left half. Not one with `add_random`: it would take how to search, up
// to where, off what, and what to put.
fn add_mirrored(d: Draws, circle: Circle, n: u8, first: u8, words: &mut [u64]) -> Outcome<Pattern>
    requires { (2 ≤ circle.g.columns) × (first < circle.g.columns) × (n ≤ 6) × (16 ≤ length words.old) }
    ensures { (placed (circle_at circle.g.start) words.new result ≡ on (Rule.add_mirrored circle.g n first empty) d) × AtMost 12 result }
{
    let columns = circle.g.columns;
    let low = pattern::random_start(columns);
    let half = columns / 2;
    let mut rest = d;
    let mut p = pattern::EMPTY;
    let mut at = first;
    for _ in 0..n {
        let search = Search {
            next: Next::Draw,
            columns,
            initial: at,
            lower: low,
            upper: half,
            taken: p.mask,
        };
        let (c, next) = pattern::find_available_column(rest, search)?;
        let (q, after) = add_pair(next, circle, c, p, words)?;
        p = q;
        rest = after;
        at = c;
    }
    Ok((p, rest))
}

// The note at the centre, if it comes.
fn add_centre(
    d: Draws,
    circle: Circle,
    centre: bool,
    p: Pattern,
    words: &mut [u64],
) -> Outcome<Pattern>
    requires { (p.count ≤ 12) × (16 ≤ length words.old) }
    ensures { (placed (circle_at circle.g.start) words.new result ≡ on (Rule.add_centre circle.g centre (pattern (circle_at circle.g.start) words.old p)) d) × AtMost 13 result }
{
    if centre {
        return add_note(d, circle.g, circle.g.columns / 2, p, words);
    }
    Ok((p, d))
}

// A mirrored pattern of a number of notes at each side, from its first column on.
fn mirror_from(d: Draws, circle: Circle, n: u8, centre: bool, words: &mut [u64]) -> Outcome<Pattern>
    requires { (2 ≤ circle.g.columns) × (n ≤ 6) × (16 ≤ length words.old) }
    ensures { (placed (circle_at circle.g.start) words.new result ≡ on (Rule.mirror_from circle.g n centre) d) × AtMost 14 result }
{
    let low = pattern::random_start(circle.g.columns);
    let (c, next) = pattern::get_random_column(d, low, circle.g.columns / 2)?;
    let (p, after) = add_mirrored(next, circle, n, c, words)?;
    let (q, end) = add_centre(after, circle, centre, p, words)?;
    add_special(end, circle, q, words)
}

// The mirrored pattern: the centre's draw comes first.
fn mirror_notes(
    d: Draws,
    circle: Circle,
    chances: MirrorChances,
    words: &mut [u64],
) -> Outcome<Pattern>
    requires { (2 ≤ circle.g.columns) × (16 ≤ length words.old) }
    ensures { (placed (circle_at circle.g.start) words.new result ≡ on (Rule.mirror_notes circle.g chances) d) × AtMost 14 result }
{
    let m = hit_object_type::mirrored_chances(circle.g.columns, chances);
    let p2 = floats::clamp(0.0, 1.0, m.p2);
    let p3 = floats::clamp(0.0, 1.0, m.p3);
    let (v, next) = random::draw(d)?;
    let val = random::next_double(v);
    let (n, after) = pattern::get_random_note_count(next, p2, p3, 0.0, 0.0, 0.0)?;
    let middle = hit_object_type::at_centre(circle.g.columns, n, m.centre, val);
    mirror_from(after, circle, n, middle, words)
}

// A mirrored pattern; where stacking is forbidden, a random one.
pub fn generate_random_pattern_with_mirrored(
    d: Draws,
    circle: Circle,
    m: MirrorChances,
    words: &mut [u64],
) -> Outcome<Pattern>
    requires { (2 ≤ circle.g.columns) × (16 ≤ length words.old) }
    ensures { (placed (circle_at circle.g.start) words.new result ≡ on (Rule.generate_random_pattern_with_mirrored circle.g m) d) × AtMost 14 result }
{
    if pattern::has_type(circle.g.flags, pattern::FORCE_NOT_STACK) {
        let chances = hit_object_type::unmirrored(m);
        return generate_random_pattern(d, circle, chances, words);
    }
    mirror_notes(d, circle, m, words)
}
