// The convert type of a circle, and the chances of its notes.
#![tactic(auto)]

ghost use Rattle.std.specs.Prelude.{◌≡◌, ◌<◌, if◌then◌else◌};
ghost use Rattle.random.specs.Play.{on};
ghost use Rattle.random.specs.Answers.{number};
ghost use Rattle.mania.specs.Steps.{double};
ghost use Rattle.mania.specs.PatternType.{stair_bit};
ghost use Rattle.mania.specs.HitObject as Rule;

use mania::{CircleChances, Facts, HitObjectPatternGenerator, MirrorChances, PrevValues, Stair};
use model::{Object, sound};
use random::{Draws, Outcome};

// Whether an object is under 20 from the one before. Of the sums whose nearest root is 20 the smallest is 400 − 2^−15.
fn near(v: PrevValues, o: Object) -> bool
    ensures { result ≡ Rule.near v o }
{
    let here = o.position;
    let there = v.position;
    let dx = here.x - there.x;
    let dy = here.y - there.y;
    dx * dx + dy * dy < 399.999969482421875
}

// No `From`: a stair has a bit here and another number in the C interface.
fn stair_bit(s: Stair) -> u16
    ensures { result ≡ stair_bit s }
{
    match s {
        Stair::Up => pattern::STAIR,
        Stair::Reverse => pattern::REVERSE_STAIR,
    }
}

// The bits by the time and the separation since the object before, the density and the kiai.
pub fn type_by_time(f: Facts, v: PrevValues, o: Object) -> u16
    ensures { result ≡ Rule.type_by_time f v o }
{
    let since = o.start - v.time;
    let dense = f.beat / 2.5;
    let close = near(v, o);
    if since <= 80.0 {
        return pattern::FORCE_NOT_STACK | pattern::KEEP_SINGLE;
    }
    if since <= 95.0 {
        return pattern::FORCE_NOT_STACK | pattern::KEEP_SINGLE | stair_bit(v.stair);
    }
    if since <= 105.0 {
        return pattern::FORCE_NOT_STACK | pattern::LOW_PROBABILITY;
    }
    if since <= 125.0 {
        return pattern::FORCE_NOT_STACK;
    }
    if (since <= 135.0) & close {
        return pattern::CYCLE | pattern::KEEP_SINGLE;
    }
    if (since <= 150.0) & close {
        return pattern::FORCE_STACK | pattern::LOW_PROBABILITY;
    }
    if close & (dense <= f.density) {
        return pattern::REVERSE | pattern::LOW_PROBABILITY;
    }
    if f.density < dense {
        return 0;
    }
    if f.kiai {
        return 0;
    }
    pattern::LOW_PROBABILITY
}

// The bits by the sound.
pub fn type_by_sound(columns: u8, sound: u8, flags: u16) -> u16
    ensures { result ≡ Rule.type_by_sound columns sound flags }
{
    if pattern::has_type(flags, pattern::KEEP_SINGLE) {
        return flags;
    }
    if sound::has_flag(sound, sound::FINISH) & (columns != 8) {
        return flags | pattern::MIRROR;
    }
    if sound::has_flag(sound, sound::CLAP) {
        return flags | pattern::GATHERED;
    }
    flags
}

// ---- chances

// The caps on 2, 3, 4 and 5 notes, by column count from 0 on. A cap of 1 caps nothing.
const CAPS: [[f64; 4]; 10] = [
    [1.0, 1.0, 1.0, 1.0],
    [1.0, 1.0, 1.0, 1.0],
    [0.0, 0.0, 0.0, 0.0],
    [0.1, 0.0, 0.0, 0.0],
    [0.23, 0.04, 0.0, 0.0],
    [1.0, 0.15, 0.03, 0.0],
    [1.0, 1.0, 1.0, 1.0],
    [1.0, 1.0, 1.0, 1.0],
    [1.0, 1.0, 1.0, 1.0],
    [1.0, 1.0, 1.0, 1.0],
];

// The chances, each at most its cap.
fn capped(columns: u8, c: CircleChances) -> CircleChances
    requires { columns < 10 }
    ensures { result ≡ Rule.capped columns c }
{
    let i = columns as usize;
    CircleChances {
        p2: floats::min(c.p2, CAPS[i][0]),
        p3: floats::min(c.p3, CAPS[i][1]),
        p4: floats::min(c.p4, CAPS[i][2]),
        p5: floats::min(c.p5, CAPS[i][3]),
    }
}

// 1 − max((1 − p)·2, low)
fn halved(p: f64, low: f64) -> f64
    ensures { result ≡ Rule.halved p low }
{
    1.0 - floats::max((1.0 - p) * 2.0, low)
}

// The chances of a mirrored pattern, by column count.
pub fn mirrored_chances(columns: u8, m: MirrorChances) -> MirrorChances
    ensures { result ≡ Rule.mirrored_chances columns m }
{
    match columns {
        2 => MirrorChances {
            centre: 0.0,
            p2: 0.0,
            p3: 0.0,
        },
        3 => MirrorChances {
            centre: floats::min(m.centre, 0.03),
            p2: 0.0,
            p3: 0.0,
        },
        4 => MirrorChances {
            centre: 0.0,
            p2: halved(m.p2, 0.8),
            p3: 0.0,
        },
        5 => MirrorChances {
            centre: floats::min(m.centre, 0.03),
            p2: m.p2,
            p3: 0.0,
        },
        6 => MirrorChances {
            centre: 0.0,
            p2: halved(m.p2, 0.05),
            p3: halved(m.p3, 0.85),
        },
        _ => m,
    }
}

// The chances of a mirrored pattern, by the conversion difficulty.
pub fn mirrored_by(difficulty: f64) -> MirrorChances
    ensures { result ≡ Rule.mirrored_by difficulty }
{
    if difficulty > 6.5 {
        MirrorChances {
            centre: 0.12,
            p2: 0.38,
            p3: 0.12,
        }
    } else if difficulty > 4.0 {
        MirrorChances {
            centre: 0.12,
            p2: 0.17,
            p3: 0.0,
        }
    } else {
        MirrorChances {
            centre: 0.12,
            p2: 0.0,
            p3: 0.0,
        }
    }
}

// Chances of two and of three notes, and none of more.
fn two_or_three(p2: f64, p3: f64) -> CircleChances
    ensures { result ≡ record { p2 = p2; p3 = p3; p4 = double 0 1; p5 = double 0 1 } }
{
    CircleChances {
        p2,
        p3,
        p4: 0.0,
        p5: 0.0,
    }
}

// The chances of a random pattern, by the conversion difficulty; smaller where they are to be rare.
pub fn chances_by(difficulty: f64, rare: bool) -> CircleChances
    ensures { result ≡ Rule.chances_by difficulty rare }
{
    if difficulty > 6.5 {
        return if rare {
            two_or_three(0.78, 0.42)
        } else {
            two_or_three(1.0, 0.62)
        };
    }
    if difficulty > 4.0 {
        return if rare {
            two_or_three(0.35, 0.08)
        } else {
            two_or_three(0.52, 0.15)
        };
    }
    if difficulty > 2.0 {
        return if rare {
            two_or_three(0.18, 0.0)
        } else {
            two_or_three(0.45, 0.0)
        };
    }
    two_or_three(0.0, 0.0)
}

// A drawn count of notes: the caps first, and then a clap makes two notes certain.
pub fn get_random_note_count(
    d: Draws,
    g: HitObjectPatternGenerator,
    chances: CircleChances,
) -> Outcome<u8>
    requires { g.columns < 10 }
    ensures { number result ≡ on (Rule.count_of g chances) d }
{
    let c = capped(g.columns, chances);
    let clap = sound::has_flag(g.sound, sound::CLAP);
    let p2 = if clap { 1.0 } else { c.p2 };
    pattern::get_random_note_count(d, p2, c.p3, c.p4, c.p5, 0.0)
}

// Whether a note comes at the centre.
pub fn at_centre(columns: u8, n: u8, centre: f64, val: f64) -> bool
    ensures { result ≡ Rule.at_centre columns n centre val }
{
    (columns % 2 != 0) & (n != 3) & (val > 1.0 - centre)
}

fn half(x: f64) -> f64
    ensures { result ≡ Rule.half x }
{
    x / 2.0
}

// The chances of a random pattern in place of a mirrored one.
pub fn unmirrored(m: MirrorChances) -> CircleChances
    ensures { result ≡ Rule.unmirrored m }
{
    CircleChances {
        p2: half(1.0) + half(m.p2),
        p3: m.p2,
        p4: half(m.p2 + m.p3),
        p5: m.p3,
    }
}
