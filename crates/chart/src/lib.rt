// The chart: its notes, and a note in bytes.
#![tactic(auto)]

pub mod bytes;
pub mod layout;
pub mod order;
pub mod rows;

// The version of a chart's layout. The converter writes version 2.
#[derive(Clone, Copy)]
pub enum Version {
    One = 1,
    Two = 2,
}

// A note of the chart. Its origin is the object that it was made from, by the index in the record; a chart of version 1 does not tell it. Its start and
// its duration are the bit patterns of two f64. That the column has four bits is a clause of the functions that ask it, and no invariant: each literal of a note
// would prove it.
#[repr(C)]
#[derive(Clone, Copy)]
pub struct Note {
    pub column: u8,
    // Beside the duration, as in the bytes: the reader has to see a circle that has one, to refuse it.
    pub hold: bool,
    pub origin: Option<u16>,
    pub start: u64,
    pub duration: u64,
}

// In place of a note before the first. A note and no `Option`: the first is then tested as every other. A constant and no `Default`, since
// proofs compute it.
pub const BLANK: Note = Note {
    column: 0,
    hold: false,
    origin: None,
    start: 0,
    duration: 0,
};

// What a chart's header says, once the chart is read. The columns are a u32, as the C interface gives them.
#[derive(Clone, Copy)]
pub struct Header {
    pub version: Version,
    pub columns: u32,
    pub notes: u32,
    pub draws: u32,
}
