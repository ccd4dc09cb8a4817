// The data of the conversion, shared by its code and its rules. The rules are in specs/.
#![tactic(auto)]

use model::Position;

// ---- what an object meets

// The facts in force at an object.
#[derive(Clone, Copy)]
pub struct Facts {
    pub difficulty: f64,
    pub multiplier: f64,
    pub beat: f64,
    pub velocity: f64,
    pub kiai: bool,
    pub density: f64,
}

// `STAIR` and `REVERSE_STAIR`.
#[derive(Clone, Copy)]
pub enum Stair {
    Up,
    Reverse,
}

// What the objects before left: `PrevValues`. The previous pattern is its mask and its last column.
#[derive(Clone, Copy)]
pub struct PrevValues {
    pub time: f64,
    pub position: Position,
    pub mask: u16,
    pub last: u8,
    pub stair: Stair,
}

impl PrevValues {
    // `PrevValues::default`, before the first object. A constant, since proofs compute it.
    pub const NONE: PrevValues = PrevValues {
        time: 0.0,
        position: Position { x: 0.0, y: 0.0 },
        mask: 0,
        last: 0,
        stair: Stair::Up,
    };
}

// ---- what an object makes

// A note of a chart. A circle's duration is 0. Times as numbers: `chart::Note` has their bits, which any bytes may spell.
#[derive(Clone, Copy)]
pub struct Note {
    pub column: u8,
    // Beside the duration: the definitions make a note of both, as a chart's bytes have both.
    pub hold: bool,
    pub start: f64,
    pub duration: f64,
}

// A slider's note in whole milliseconds: a circle where its two times are equal.
#[derive(Clone, Copy)]
pub struct SliderNote {
    pub column: u8,
    pub start: u32,
    pub end: u32,
}

// ---- the generators

// How a search goes on from a column that is taken: by draws, or by steps of one.
#[derive(Clone, Copy)]
pub enum Next {
    Draw,
    Step,
}

// `HitObjectPatternGenerator`: what a circle's pattern is made from. `flags` is its convert type.
#[derive(Clone, Copy)]
pub struct HitObjectPatternGenerator {
    pub columns: u8,
    pub x: f32,
    pub start: f64,
    pub sound: u8,
    pub difficulty: f64,
    pub mask: u16,
    pub last: u8,
    pub stair: Stair,
    pub flags: u16,
}

// The chances of 2 to 5 notes of a circle.
#[derive(Clone, Copy)]
pub struct CircleChances {
    pub p2: f64,
    pub p3: f64,
    pub p4: f64,
    pub p5: f64,
}

// The chances of a note at the centre, and of two and of three notes at each side: other chances than a circle's.
#[derive(Clone, Copy)]
pub struct MirrorChances {
    pub centre: f64,
    pub p2: f64,
    pub p3: f64,
}

// `PathObjectPatternGenerator`: what a slider's pattern is made from. Times are whole milliseconds; `length` is that of one span, `head` the first
// node's sound, and `flags` is its convert type.
#[derive(Clone, Copy)]
pub struct PathObjectPatternGenerator {
    pub columns: u8,
    pub x: f32,
    pub sound: u8,
    pub head: u8,
    pub difficulty: f64,
    pub mask: u16,
    pub stair: Stair,
    pub start: u32,
    pub end: u32,
    pub spans: u32,
    pub length: u32,
    pub flags: u16,
}
