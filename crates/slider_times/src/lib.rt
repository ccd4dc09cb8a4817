// What a slider's pattern is made from: its times, and the chances of its notes. Each function is a definition of mania/specs/PathObject.antt.
#![tactic(auto)]

ghost use Rattle.std.specs.Prelude.{◌≡◌, ◌+◌, ◌-◌, ◌/◌, ◌<◌, ◌≤◌, if◌then◌else◌};
ghost use Rattle.mania.specs.PatternType.{low_probability};
ghost use Rattle.mania.specs.PathObject as Path;
ghost use Rattle.slider_times.specs.Chances.{chances, caps_of};

use floats::Way;
use mania::{Facts, PathObjectPatternGenerator, PrevValues};
use model::{Object, sound};

// The chances of two, three and four notes. Not `mania::CircleChances`: the rule of sliders has a record of three, and a fifth would be 0 in every line.
#[derive(Clone, Copy)]
pub struct Chance {
    pub p2: f64,
    pub p3: f64,
    pub p4: f64,
}

// ---- chances

impl Chance {
    fn new(p2: f64, p3: f64, p4: f64) -> Chance
        ensures { chances result ≡ record { p2 = p2; p3 = p3; p4 = p4 } }
    {
        Chance { p2, p3, p4 }
    }
}

// The caps on 2, 3 and 4 notes, by column count from 0 on. A cap of 1 caps nothing.
const CAPS: [[f64; 3]; 10] = [
    [1.0, 1.0, 1.0],
    [1.0, 1.0, 1.0],
    [0.0, 0.0, 0.0],
    [0.1, 0.0, 0.0],
    [0.3, 0.04, 0.0],
    [0.34, 0.1, 0.03],
    [1.0, 1.0, 1.0],
    [1.0, 1.0, 1.0],
    [1.0, 1.0, 1.0],
    [1.0, 1.0, 1.0],
];

// The caps of a column count, up to the last that the table has.
pub fn caps(columns: usize) -> Chance
    requires { columns ≤ 9 }
    ensures { chances result ≡ caps_of columns }
{
    Chance {
        p2: CAPS[columns][0],
        p3: CAPS[columns][1],
        p4: CAPS[columns][2],
    }
}

// The chances, each at most its cap.
pub fn capped(columns: u8, c: Chance) -> Chance
    requires { columns ≤ 9 }
    ensures { chances result ≡ Path.capped columns (chances c) }
{
    let k = caps(columns as usize);
    Chance {
        p2: floats::min(c.p2, k.p2),
        p3: floats::min(c.p3, k.p3),
        p4: floats::min(c.p4, k.p4),
    }
}

// The chances of one span by the conversion difficulty.
pub fn chances_by(difficulty: f64, rare: bool) -> Chance
    ensures { chances result ≡ Path.chances_by difficulty rare }
{
    if 6.5 < difficulty {
        return if rare {
            Chance::new(0.78, 0.3, 0.0)
        } else {
            Chance::new(0.85, 0.36, 0.03)
        };
    }
    if 4.0 < difficulty {
        return if rare {
            Chance::new(0.43, 0.08, 0.0)
        } else {
            Chance::new(0.56, 0.18, 0.0)
        };
    }
    if 2.5 < difficulty {
        return if rare {
            Chance::new(0.3, 0.0, 0.0)
        } else {
            Chance::new(0.37, 0.08, 0.0)
        };
    }
    if rare {
        Chance::new(0.17, 0.0, 0.0)
    } else {
        Chance::new(0.27, 0.0, 0.0)
    }
}

// `can_generate_two_notes`
pub fn can_generate_two_notes(g: PathObjectPatternGenerator) -> bool
    ensures { result ≡ Path.two_notes g }
{
    let low = pattern::has_type(g.flags, pattern::LOW_PROBABILITY);
    let own = sound::has_flag(g.sound, sound::CLAP | sound::FINISH);
    let head = sound::has_flag(g.head, sound::CLAP | sound::FINISH);
    !low & (own | head)
}

// ---- the times

// `get_precision_adjusted_beat_len`
pub fn adjusted_beat(velocity: f64, beat: f64) -> f64
    ensures { result ≡ Path.adjusted_beat velocity beat }
{
    let as_beat = -100.0 / velocity;
    if as_beat < 0.0 {
        let x = floats::clamp(10.0, 10000.0, floats::narrow(-as_beat));
        beat * (std::num::f32_to_f64_with_nan(x) / 100.0)
    } else {
        beat * 1.0
    }
}

// A missing distance is 0. A function, under its definition's name: the proof of `end_time` goes by its contract.
pub fn distance_of(distance: Option<f64>) -> f64
    ensures { result ≡ Path.distance_of distance }
{
    distance.unwrap_or(0.0)
}

// A missing first node sound is the object's own. A function as well: the proof of `new` goes by its contract.
pub fn head_sound(node: Option<u8>, sound: u8) -> u8
    ensures { result ≡ Path.head_sound node sound }
{
    node.unwrap_or(sound)
}

// The start, rounded to the nearest whole number, ties to even.
pub fn start_time(o: Object) -> u32
    ensures { result ≡ Path.start_time o }
{
    floats::to_count(o.start, Way::Even)
}

// The end: floor of start + distance·beat·spans·0.01 / multiplier.
pub fn end_time(f: Facts, o: Object, spans: u32, distance: Option<f64>) -> u32
    ensures { result ≡ Path.end_time f o spans distance }
{
    let beat = adjusted_beat(f.velocity, f.beat);
    let path = distance_of(distance) * beat;
    let whole = path * (spans as f64) * 0.01;
    let start = start_time(o);
    floats::to_count((start as f64) + whole / f.multiplier, Way::Floor)
}

// The flags of a slider: `LOW_PROBABILITY` outside of kiai.
fn first_flags(kiai: bool) -> u16
    ensures { result ≡ (if kiai then 0 else low_probability) }
{
    if kiai { 0 } else { pattern::LOW_PROBABILITY }
}

// The length of one span.
pub fn span_length(start: u32, end: u32, spans: u32) -> u32
    requires { 1 ≤ spans }
    ensures { result ≡ (end - start) / spans }
{
    end.saturating_sub(start) / spans
}

// `new`. The facts, the previous values, the columns and the object, and a slider's own three values, one by one, as the definition takes them: `o` of another
// kind has no such values.
pub fn new(
    f: Facts,
    v: PrevValues,
    columns: u8,
    o: Object,
    repeats: u16,
    distance: Option<f64>,
    node: Option<u8>,
) -> PathObjectPatternGenerator
    ensures { result ≡ Path.new f v columns o repeats distance node }
{
    let spans = (repeats as u32) + 1;
    let start = start_time(o);
    let end = end_time(f, o, spans, distance);
    let stair = v.stair;
    let x = o.position.x;
    PathObjectPatternGenerator {
        columns,
        x,
        sound: o.sound,
        head: head_sound(node, o.sound),
        difficulty: f.difficulty,
        mask: v.mask,
        stair,
        start,
        end,
        spans,
        length: span_length(start, end, spans),
        flags: first_flags(f.kiai),
    }
}
