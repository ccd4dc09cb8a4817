// The chart writer: the notes in order, in place, and the header.
#![tactic(auto)]

pub mod merge;
pub mod order;

ghost use Rattle.std.specs.Prelude.{◌≡◌, [], ◌+◌, ◌*◌, ◌≤◌, ◌<◌, length, drop};
ghost use Rattle.chart.specs.Layout.{chart_size};
ghost use Rattle.chart.specs.declared.Version.TheVariants.{Two};
ghost use Rattle.chart.specs.Bytes.{splice};
ghost use Rattle.chart.specs.Chart.{header, encode, notes_of, Holds};
ghost use Rattle.chart.specs.Order.{arranged};

use crate::order::arrange;
use chart::Version;
use chart::bytes::put;
use chart::layout::{HEADER_SIZE, NOTE_SIZE};

// Stores the eight bytes of a version's header. All other bytes keep their values. Its numbers one by one: a `Header` has its
// columns as a u32, which both callers would widen and this would narrow again.
pub fn put_header(version: Version, s: &mut [u8], columns: u8, notes: u32, draws: u32)
    requires { (columns < 16) × (8 ≤ length s.old) }
    ensures { s.new ≡ splice s.old 0 (header version columns notes draws) }
{
    s[0] = u8::from(version) * 16 + columns;
    put(s, 1, 3, u64::from(notes));
    put(s, 4, 4, u64::from(draws));
}

// Makes a chart of the notes that stand behind the header's eight bytes in the order in which they came, and gives its length. The bytes
// after the chart keep their values.
pub fn finish(chart: &mut [u8], columns: u8, notes: u32, draws: u32) -> usize
    requires { (columns < 16) × ((chart_size notes ≤ length chart.old) × Holds Two chart.old 8 notes) }
    ensures value { result ≡ chart_size notes }
    ensures chart_after { chart.new ≡ splice chart.old 0 (encode Two columns draws (arranged [] (notes_of Two notes (drop 8 chart.old)))) }
{
    let count = notes as usize;
    put_header(Version::Two, chart, columns, notes, draws);
    arrange(chart, 8, count);
    HEADER_SIZE + NOTE_SIZE * count
}
