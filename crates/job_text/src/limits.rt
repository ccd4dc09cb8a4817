// The buffers and the allowance with which a program converts a record. specs/Limits.antt has the same numbers.

// The longest record, in bytes.
pub const LONGEST_RECORD: usize = 65536;

// A program's input buffer: one byte more than a record may have, so that a longer input shows.
pub const INPUT_BYTES: usize = LONGEST_RECORD + 1;

// The chart buffer.
pub const CHART_BYTES: usize = 65536;

// The text buffer: a chart's text has at most 3 bytes for each of the chart's, and its first line or a refusal's at most 64.
pub const TEXT_BYTES: usize = 3 * CHART_BYTES + 64;

// The sheet buffer: 62 pages, since a chart in the chart buffer has at most 3,854 notes.
pub const SHEET_BYTES: usize = 62 * 2624;

// The draws that a job may make.
pub const ALLOWANCE: u32 = 1_000_000;
