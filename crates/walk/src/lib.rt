// The walk: what each object finds and leaves, and the objects one after another.
#![tactic(auto)]

ghost use Rattle.std.specs.Prelude.{◌≡◌, ℕ, ◌+◌, ◌^◌, ◌≤◌, ◌<◌, List, length};
ghost use Rattle.chart.specs.Layout.{indices, most_in_chart};
ghost use Rattle.model.specs.Limits.{most_notes};
ghost use Rattle.rules.specs.Each.{Each};
ghost use Rattle.record.specs.Object.{objects};
ghost use Rattle.mania.specs.Convert as Convert;
ghost use Rattle.mania.specs.Convert.{span_in, position_after, time_after, leaves, walk_after};
ghost use Rattle.mania.specs.PathObject.{span_length};
ghost use Rattle.mania.specs.Range.{InRange};
ghost use Rattle.density.specs.Queued.{queued};
ghost use Rattle.walk.specs.declared.Song.{Song};
ghost use Rattle.walk.specs.Kept.{walk_of};
ghost use Rattle.walk.specs.Steps.{Given, InForceOf, InForceAt, Meets, Keeps, Sound, Steps, rule, Ends};

use chart::layout::{HEADER_SIZE, NOTE_SIZE};
use density::times::Density;
use density::{compute_density, node_time, nodes};
use mania::{Facts, PrevValues, Stair};
use model::{Kind, Object, Position};
use notes::put_notes;
use pattern::Made;
use points::{Lasting, Passed, difficulty_point_at, effect_point_at, timing_point_at};
use random::{Draws, Outcome, Refused};
use record::entries::Entries;
use record::layout::ENTRY;
use record_object::read_object;
use rules::Refusal;

// What the walk keeps between objects; `notes` counts the notes so far.
#[derive(Clone, Copy)]
pub struct Walk {
    pub prev: PrevValues,
    pub density: Density,
    pub notes: u32,
}

// The length of a slider's span.
fn span_of(f: Facts, o: Object, repeats: u16, distance: Option<f64>) -> u32
    ensures { result ≡ span_length f o repeats distance }
{
    let spans = repeats as u32 + 1;
    let start = slider_times::start_time(o);
    let end = slider_times::end_time(f, o, spans, distance);
    slider_times::span_length(start, end, spans)
}

// The same of any object: 0 where it has no spans.
#[tactic(auto, unfolding(mania::specs::Convert::span_in))]
fn span_in(f: Facts, o: Object) -> u32
    ensures { result ≡ span_in f o o.kind }
{
    match o.kind {
        Kind::Slider {
            repeats,
            distance,
            ..
        } => span_of(f, o, repeats, distance),
        _ => 0,
    }
}

// The density that an object meets: a circle counts in it.
#[tactic(auto, unfolding(mania::specs::Convert::meets))]
fn meets(o: Object, d: Density) -> Density
    ensures { queued result ≡ Convert.meets o.kind o.start (queued d) }
{
    match o.kind {
        Kind::Circle => compute_density(d, o.start),
        _ => d,
    }
}

// The density after an object whose span length is given.
#[tactic(auto, unfolding(mania::specs::Convert::leaves))]
fn density_after(o: Object, span: u32, d: Density) -> Density
    ensures { queued result ≡ leaves o span o.kind (queued d) }
{
    match o.kind {
        Kind::Circle => d,
        Kind::Slider { repeats, .. } => nodes(d, o, span, repeats as u32 + 2),
        Kind::Spinner(duration) | Kind::Hold(duration) => compute_density(d, o.start + duration),
    }
}

// The previous time after an object whose span length is given.
#[tactic(auto, unfolding(mania::specs::Convert::time_after))]
fn time_after(o: Object, span: u32) -> f64
    ensures { result ≡ time_after o span o.kind }
{
    match o.kind {
        Kind::Circle => o.start,
        Kind::Slider { repeats, .. } => node_time(o, span, repeats as u32 + 1),
        Kind::Spinner(duration) | Kind::Hold(duration) => o.start + duration,
    }
}

// The previous position after an object.
#[tactic(auto, unfolding(mania::specs::Convert::position_after))]
fn position_after(o: Object) -> Position
    ensures { result ≡ position_after o o.kind }
{
    match o.kind {
        Kind::Circle | Kind::Slider { .. } => o.position,
        Kind::Spinner(_) | Kind::Hold(_) => Position { x: 256.0, y: 192.0 },
    }
}

// ---- an object of the walk

// How many points each list has. The lists follow one another, from the first bit of the part that the walk receives for them.
#[derive(Clone, Copy)]
pub struct PointCounts {
    pub timing: usize,
    pub difficulty: usize,
    pub effect: usize,
}

// The numbers that the walk takes of a song. Nothing is asked of the difficulty: it may be any that the single-object entry
// allows. What is asked of the columns stands in `Given` beside what the points are asked, and once where an object is converted.
#[derive(Clone, Copy)]
pub struct Song {
    pub columns: u8,
    pub difficulty: f64,
    pub multiplier: f64,
    pub points: PointCounts,
}

// The values of the points in force.
#[derive(Clone, Copy)]
pub struct InForce {
    pub beat: Lasting<f64>,
    pub velocity: Lasting<f64>,
    pub kiai: Lasting<bool>,
}

// What the walk begins with: values that are in force at no time. No `Option`: the test that each object has then serves the first.
fn none_in_force() -> InForce
    ensures { (points : List ℕ) (g : Song) → InForceOf points g result }
{
    let passed = Passed {
        number: 0,
        from: 0.0,
        until: 0.0,
    };
    let value = Lasting { value: 0.0, passed };
    InForce {
        beat: value,
        velocity: value,
        kiai: Lasting {
            value: false,
            passed,
        },
    }
}

// The values at the time t, after those at another time: each is looked for only where it has ended.
fn in_force_at(points: &[u8], g: Song, c: InForce, t: f64) -> InForce
    requires { Given points.now g × InForceOf points.now g c }
    ensures { InForceOf points.now g result × InForceAt points.now g t result }
{
    let n = g.points;
    let timing = Entries {
        s: points,
        at: 0,
        count: n.timing,
    };
    let difficulty = Entries {
        s: points,
        at: ENTRY * n.timing,
        count: n.difficulty,
    };
    let effect = Entries {
        s: points,
        at: difficulty.at + ENTRY * n.difficulty,
        count: n.effect,
    };
    let beat = timing_point_at(timing, c.beat, t);
    let velocity = difficulty_point_at(difficulty, c.velocity, t);
    let kiai = effect_point_at(effect, c.kiai, t);
    InForce {
        beat,
        velocity,
        kiai,
    }
}

// What an object meets.
#[derive(Clone, Copy)]
pub struct Met {
    pub density: Density,
    pub facts: Facts,
}

// The density and the facts that an object meets.
fn meet(g: Song, c: InForce, before: Density, o: Object) -> Met
    ensures { Meets g c before o result }
{
    let density = meets(o, before);
    let facts = Facts {
        difficulty: g.difficulty,
        multiplier: g.multiplier,
        beat: c.beat.value,
        velocity: c.velocity.value,
        kiai: c.kiai.value,
        density: density.value,
    };
    Met { density, facts }
}

// The walk's state after an object: `m` is what it met, `made` what its generator made.
fn after_object(o: Object, m: Met, made: Made, w: Walk) -> Walk
    requires { w.notes + made.pattern.count < 2 ^ 32 }
    ensures { walk_of result ≡ walk_after m.facts o (queued m.density) made.pattern.mask made.pattern.last made.stair made.pattern.count (walk_of w) }
{
    let span = span_in(m.facts, o);
    Walk {
        prev: PrevValues {
            time: time_after(o, span),
            position: position_after(o),
            mask: made.pattern.mask,
            last: made.pattern.last,
            stair: made.stair,
        },
        density: density_after(o, span, m.density),
        notes: w.notes + made.pattern.count as u32,
    }
}

// Writes an object's notes after those of the objects before it, and gives what the walk keeps then; or 11, where the chart has no room for them.
fn keep(
    chart: &mut [u8],
    words: &[u64],
    index: u32,
    o: Object,
    m: Met,
    made: Made,
    w: Walk,
    d: Draws,
) -> Outcome<Walk>
    requires { (index < indices) × (made.pattern.count ≤ most_notes) × (most_notes ≤ length words.now) × (w.notes ≤ most_in_chart) }
    ensures { Keeps chart.old chart.new words.now index o m made w d result }
{
    let count = made.pattern.count;
    let before = w.notes as usize;
    if chart.len() < HEADER_SIZE + NOTE_SIZE * (before + count) {
        return Err(Refused {
            refusal: Refusal::ChartTooShort,
            draws: d,
        });
    }
    put_notes(
        index as u16,
        o,
        &words[..count],
        &mut chart[HEADER_SIZE + NOTE_SIZE * before..],
    );
    Ok((after_object(o, m, made, w), d))
}

// Converts an object and writes its notes. `words` and `spare` are the caller's memory, as in `object`.
fn convert_object(
    chart: &mut [u8],
    words: &mut [u64],
    spare: &mut [u64],
    g: Song,
    c: InForce,
    w: Walk,
    index: u32,
    o: Object,
    d: Draws,
) -> Outcome<Walk>
    requires { (index < indices) × (1 ≤ g.columns) × (g.columns ≤ 9) × Sound g.columns w × InRange o × (w.notes ≤ most_in_chart) × (most_notes ≤ length words.old) × (most_notes ≤ length spare.old) }
    ensures { Steps chart.old chart.new index g c w o d result }
{
    let m = meet(g, c, w.density, o);
    let (made, after) = object::generate(m.facts, w.prev, g.columns, o, words, spare, d)?;
    keep(chart, words, index, o, m, made, w, after)
}

// A refusal of the walk, and the index of the object that it came to.
#[derive(Clone, Copy)]
pub struct Stopped {
    pub index: u32,
    pub refused: Refused,
}

// `PrevValues::default`, and no density yet.
fn beginning() -> Walk
    ensures { walk_of result ≡ Convert.beginning }
{
    let density = density::new();
    Walk {
        prev: PrevValues::NONE,
        density,
        notes: 0,
    }
}

// The walk over a list's objects; `points` is the part of the record that starts with the first timing point. It gives how many notes it made, which stand
// in walk order from byte 8 of the chart on, and the draws after it.
pub fn walk_objects(
    points: &[u8],
    list: Entries,
    chart: &mut [u8],
    words: &mut [u64],
    spare: &mut [u64],
    g: Song,
    d: Draws,
) -> Result<(u32, Draws), Stopped>
    requires { Given points.now g × Each InRange (objects list.s.now list.at list.count) × (list.at ≤ 7) × (8 ≤ length chart.old) × (most_notes ≤ length words.old) × (most_notes ≤ length spare.old) }
    ensures { Ends (rule points.now list.entry.s.now g (length chart.old) list.entry.at list.entry.count d) chart.old chart.new result }
{
    let mut w = beginning();
    let mut c = none_in_force();
    let mut here = list.at;
    let mut rest = d;
    for i in 0..list.count as u32 {
        let read = read_object(list.s, here);
        let o = read.object;
        c = in_force_at(points, g, c, o.start);
        // A match, and no `map_err` with `?`: with them the job of examples/song.job takes 1.2 percent more instructions.
        match convert_object(chart, words, spare, g, c, w, i, o, rest) {
            Ok((after, left)) => {
                w = after;
                rest = left;
                here = read.next;
            }
            Err(refused) => {
                return Err(Stopped { index: i, refused });
            }
        }
    }
    Ok((w.notes, rest))
}
