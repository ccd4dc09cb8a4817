// A note in bytes.
ghost use Rattle.std.specs.Prelude.{◌≡◌, ◌+◌, ◌%◌, ◌^◌, ◌≤◌, ◌<◌, eqb, length, drop};
ghost use Rattle.chart.specs.Layout.{head_size, note_size_in, note_size, zero_unit};
ghost use Rattle.chart.specs.declared.Version.TheVariants.{One, Two};
ghost use Rattle.chart.specs.Bytes.{be, splice};
ghost use Rattle.chart.specs.Chart as Chart;
ghost use Rattle.chart.specs.Chart.{note_of, note_bytes};

use crate::bytes::{get, get3, get8, put, put3, put8};
use crate::layout::{column_unit, head_size, hold_unit, zero_unit};
use crate::{Note, Version};

// Objects that a head can tell.
const INDICES: u64 = 4096;

// The head of the note in the bytes from `at`.
fn head_at(version: Version, s: &[u8], at: usize) -> u64
    requires { at + note_size_in version ≤ length s.now }
    ensures { (result ≡ Chart.head_of version (drop at s.now)) × (result < 256 ^ head_size version) }
{
    match version {
        Version::One => get(s, at, 1),
        Version::Two => get3(s, at),
    }
}

// The object that a head tells.
fn origin_of(version: Version, head: u64) -> Option<u16>
    ensures { result ≡ Chart.origin_of version head }
{
    match version {
        Version::One => None,
        Version::Two => Some((head / zero_unit(version) % INDICES) as u16),
    }
}

fn note_by(version: Version, s: &[u8], at: usize) -> Note
    requires { at + note_size_in version ≤ length s.now }
    ensures { result ≡ note_of version (drop at s.now) }
{
    let head = head_at(version, s, at);
    let size = head_size(version);
    Note {
        column: (head / column_unit(version)) as u8,
        hold: head % column_unit(version) >= hold_unit(version),
        origin: origin_of(version, head),
        start: get8(s, at + size),
        duration: get8(s, at + size + 8),
    }
}

// The note of version 2 in the bytes from `at`.
pub fn note_at(s: &[u8], at: usize) -> Note
    requires { at + note_size ≤ length s.now }
    ensures { result ≡ note_of Two (drop at s.now) }
{
    note_by(Version::Two, s, at)
}

// The note of a version in the bytes from `at`. A call for each version, so that its sizes are literals: as one call, charts took 2.1 to 2.3 times the
// instructions to read (20,000 notes 2.12 for 0.94 million).
pub fn note_in(version: Version, s: &[u8], at: usize) -> Note
    requires { at + note_size_in version ≤ length s.now }
    ensures { result ≡ note_of version (drop at s.now) }
{
    match version {
        Version::One => note_by(Version::One, s, at),
        Version::Two => note_by(Version::Two, s, at),
    }
}

// Whether the last bits of a note's head are zero.
pub fn zeros_ok(version: Version, s: &[u8], at: usize) -> bool
    requires { at + note_size_in version ≤ length s.now }
    ensures { result ≡ eqb (Chart.head_of version (drop at s.now) % zero_unit version) 0 }
{
    head_at(version, s, at) % zero_unit(version) == 0
}

// A note's head.
fn head(version: Version, n: Note) -> u64
    ensures { result ≡ Chart.head version n }
{
    let column = u64::from(n.column) * column_unit(version);
    let hold = if n.hold { hold_unit(version) } else { 0 };
    let object = u64::from(n.origin.unwrap_or(0)) * zero_unit(version);
    column + hold + object
}

fn put_head(version: Version, s: &mut [u8], at: usize, head: u64)
    requires { at + head_size version ≤ length s.old }
    ensures { s.new ≡ splice s.old at (be (head_size version) head) }
{
    match version {
        Version::One => put(s, at, 1, head),
        Version::Two => put3(s, at, head),
    }
}

// Stores a note in the bytes from `at`. All other bytes keep their values. The head comes between the times: after it the compiler would store each
// byte of both by itself.
pub fn put_note(version: Version, s: &mut [u8], at: usize, n: Note)
    requires { at + note_size_in version ≤ length s.old }
    ensures { s.new ≡ splice s.old at (note_bytes version n) }
{
    let size = head_size(version);
    put8(s, at + size, n.start);
    put_head(version, s, at, head(version, n));
    put8(s, at + size + 8, n.duration);
}
