// The data of a song, shared by the record and the conversion.
#![tactic(auto)]

pub mod limits;
pub mod sound;

// The settings of a song.
#[derive(Clone, Copy)]
pub struct Settings {
    pub hp: f32,
    pub cs: f32,
    pub od: f32,
    pub ar: f32,
    pub multiplier: f64,
}

// ---- for the definitions alone, with the Rust's names: the code reads these from the record

#[derive(Clone, Copy)]
pub struct BreakPeriod {
    pub start: f64,
    pub end: f64,
}

// The beat length from a time on.
#[derive(Clone, Copy)]
pub struct TimingPoint {
    pub time: f64,
    pub beat: f64,
}

// The slider velocity from a time on.
#[derive(Clone, Copy)]
pub struct DifficultyPoint {
    pub time: f64,
    pub velocity: f64,
}

// Kiai or not from a time on.
#[derive(Clone, Copy)]
pub struct EffectPoint {
    pub time: f64,
    pub kiai: bool,
}

// ---- objects

#[derive(Clone, Copy)]
pub struct Position {
    pub x: f32,
    pub y: f32,
}

// What an object is. A spinner's duration and a slider's distance travel inside it: a missing distance counts as 0, and a missing sound of the first node is
// the object's own.
#[derive(Clone, Copy)]
pub enum Kind {
    Circle,
    Slider {
        repeats: u16,
        distance: Option<f64>,
        node: Option<u8>,
    },
    Spinner(f64),
    Hold(f64),
}

// An object is a position, a start and a kind; its sound comes with it, as `hit_sounds` does in the Rust.
#[derive(Clone, Copy)]
pub struct Object {
    pub position: Position,
    pub start: f64,
    pub sound: u8,
    pub kind: Kind,
}
