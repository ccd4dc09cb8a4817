// The sheet's layout, in lines and places. specs/Layout.antt says what they are.
pub const PAGE_LINES: u32 = 64;

pub const PAGE_NOTES: u32 = 63;

pub const LINE_WIDTH: usize = 40;

pub const LINE_SIZE: usize = 41;

pub const WORD_WIDTH: usize = 34;

pub const NUMBER_WIDTH: usize = 6;

pub const START_WIDTH: usize = 9;
