// Where the parts of a record stand, in bits; specs/Layout.antt has the same numbers.

// The header's fields, from the record's first bit on. The lists follow it, the breaks first.
pub const VERSION: usize = 0;

pub const KEYS: usize = 4;

pub const HP: usize = 8;

pub const CS: usize = 40;

pub const OD: usize = 72;

pub const AR: usize = 104;

pub const MULTIPLIER: usize = 136;

pub const BREAK_COUNT: usize = 200;

pub const TIMING_COUNT: usize = 208;

pub const DIFFICULTY_COUNT: usize = 220;

pub const EFFECT_COUNT: usize = 232;

pub const OBJECT_COUNT: usize = 244;

pub const BREAKS: usize = 256;

// An entry of a list: its second field (a break's end, what a point says) from its first bit on, and its width.
pub const SECOND: usize = 64;

pub const ENTRY: usize = 128;

pub const EFFECT_ENTRY: usize = 65;

// An object's fields, from its first bit on, which is that of its kind; then what the kind adds, and the end if that is a duration.
pub const SOUND: usize = 2;

pub const X: usize = 6;

pub const Y: usize = 38;

pub const START: usize = 70;

pub const ADDED: usize = 134;

pub const DURATION_END: usize = 198;

// What a slider adds, from its first bit on, which is that of the repeats: whether a distance is given, and the distance.
pub const REPEATS_WIDTH: usize = 10;

pub const IS_GIVEN: usize = REPEATS_WIDTH;

pub const DISTANCE: usize = 11;
