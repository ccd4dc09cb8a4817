// Document 01's limits that code names. specs/Limits.antt has the same numbers.

// Repeats of a slider: the largest count delivered.
pub const MOST_REPEATS: u16 = 299;

// Notes of an object: two in each of 301 rows.
pub const MOST_NOTES: usize = 602;

// Objects of a song.
pub const MOST_OBJECTS: u32 = 4095;

// The latest end of a slider, in ms.
pub const LATEST_END: u32 = 33554431;

// The range of each float field, both ends included: hp, cs, od and ar,
pub const LEAST_SETTING: f32 = 0.0;

pub const MOST_SETTING: f32 = 10.0;

// the slider multiplier,
pub const LEAST_MULTIPLIER: f64 = 0.4;

pub const MOST_MULTIPLIER: f64 = 3.6;

// the time of a break or a point,
pub const LEAST_TIME: f64 = -MOST_TIME;

pub const MOST_TIME: f64 = 16777215.0;

// a beat length,
pub const LEAST_BEAT: f64 = 6.0;

pub const MOST_BEAT: f64 = 60000.0;

// a velocity,
pub const LEAST_VELOCITY: f64 = 0.1;

pub const MOST_VELOCITY: f64 = 10.0;

// an object's start and a duration,
pub const LEAST_SPAN: f64 = 0.0;

pub const MOST_SPAN: f64 = MOST_TIME;

// x and y,
pub const LEAST_COORDINATE: f32 = -512.0;

pub const MOST_COORDINATE: f32 = 1024.0;

// a slider's distance.
pub const LEAST_DISTANCE: f64 = 0.0;

pub const MOST_DISTANCE: f64 = 131072.0;

// The highest difficulty.
pub const MOST_DIFFICULTY: f64 = 12.0;

// Draws of one column search.
pub const SEARCH_LIMIT: u32 = 4096;
