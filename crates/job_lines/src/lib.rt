// What `hitobjects` prints for an input: the hit object lines of its job. The program itself only reads and writes.
#![tactic(auto)]

ghost use Rattle.std.specs.Prelude.{◌≡◌, ◌+◌, ◌*◌, ◌≤◌, length};
ghost use Rattle.std.proofs.Common.{lit≤};
ghost use Rattle.chart.specs.Bytes.{splice};
ghost use Rattle.job_text.specs.Limits.{chart_bytes};
ghost use Rattle.job_lines.specs.Printed.{lines_text, printed};

use chart_reader::draws_in;
use chart_text::put_refusal_line;
use hit_object_lines::write_lines;
use job_text::limits::CHART_BYTES;
use job_text::{Show, put_shown};

// The text buffer: lines have at most 4 bytes for each of the chart's, and a refusal's line at most 64.
pub const LINES_BYTES: usize = 4 * CHART_BYTES + 64;

// The lines of a chart, or the line of their refusal.
pub struct ChartLines;

impl Show for ChartLines {
    ghost shown = { lines_text };

    ghost room = { 4 * chart_bytes + 64 };

    ghost line_room = { lit≤ tt };

    fn put(chart: &[u8], s: &mut [u8]) -> usize {
        match write_lines(chart, s) {
            Ok(size) => size,
            Err(refusal) => { put_refusal_line(s, 0, u32::from(refusal), 0, draws_in(chart)) }
        }
    }
}

// Stores what `hitobjects` prints for an input from the start of `text`, and gives its length. One for each program: the contract says what this one
// prints.
pub fn put_printed(input: &[u8], text: &mut [u8; LINES_BYTES]) -> usize
    ensures value { (result ≡ length (printed input.now)) × (result ≤ length text.new) }
    ensures text_after { text.new ≡ splice text.old 0 (printed input.now) }
{
    put_shown::<ChartLines>(input, text)
}
