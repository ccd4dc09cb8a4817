// The chart's layout, in bytes. specs/Layout.antt has the same sizes.
ghost use Rattle.std.specs.Prelude.{◌≡◌, ◌^◌, ◌<◌};
ghost use Rattle.chart.specs.Layout.{version_number, head_size, column_unit, hold_unit, zero_unit, note_size_in, chart_size_in};

use crate::Version;

pub const HEADER_SIZE: usize = 8;

// A note of version 2, which the converter writes.
pub const NOTE_SIZE: usize = 19;

// A note of version 1.
pub const OLD_NOTE_SIZE: usize = 17;

// Notes of a chart: their count has 24 bits.
pub const MOST_IN_CHART: u32 = 16777215;

// A version's number in the header.
impl From<Version> for u8 {
    ghost from_gives = { λ version number. number ≡ version_number version };

    fn from(version: Version) -> u8 {
        version as u8
    }
}

// The head of a note, and in it as a number what the column counts, what the hold's bit counts, and what the object counts.
pub(crate) fn head_size(version: Version) -> usize
    ensures { result ≡ head_size version }
{
    match version {
        Version::One => 1,
        Version::Two => 3,
    }
}

pub(crate) fn column_unit(version: Version) -> u64
    ensures { result ≡ column_unit version }
{
    match version {
        Version::One => 16,
        Version::Two => 1048576,
    }
}

pub(crate) fn hold_unit(version: Version) -> u64
    ensures { result ≡ hold_unit version }
{
    match version {
        Version::One => 8,
        Version::Two => 524288,
    }
}

pub(crate) fn zero_unit(version: Version) -> u64
    ensures { result ≡ zero_unit version }
{
    match version {
        Version::One => 8,
        Version::Two => 128,
    }
}

// A note of a version.
pub fn note_size(version: Version) -> usize
    ensures { (result ≡ note_size_in version) × (result < 2 ^ 8) }
{
    match version {
        Version::One => OLD_NOTE_SIZE,
        Version::Two => NOTE_SIZE,
    }
}

// Where the note of an index begins, and so the size of a chart of as many notes.
pub fn place(version: Version, index: usize) -> usize
    requires { index < 2 ^ 32 }
    ensures { (result ≡ chart_size_in version index) × (result < 2 ^ 40) }
{
    HEADER_SIZE + note_size(version) * index
}
