// `chartsheet` shows a chart's sheet.
ghost use Rattle.std.specs.Prelude.{◌≡◌, ◌≤◌, length};
ghost use Rattle.std.proofs.Common.{lit≤};
ghost use Rattle.chart.specs.Bytes.{splice};
ghost use Rattle.job_text.specs.Limits.{sheet_bytes};
ghost use Rattle.job_text.specs.Printed.{sheet_text, sheet_printed};

use crate::limits::SHEET_BYTES;
use crate::{Show, put_shown};
use sheet::put_sheet;

// The sheet of a chart.
pub struct ChartSheet;

impl Show for ChartSheet {
    ghost shown = { sheet_text };

    ghost room = { sheet_bytes };

    ghost line_room = { lit≤ tt };

    // With this room only bytes that are no chart are refused, and of those nothing is shown.
    fn put(chart: &[u8], s: &mut [u8]) -> usize {
        put_sheet(chart, s).unwrap_or(0)
    }
}

// Stores what `chartsheet` prints for an input from the start of `text`, and gives its length. One for each program: the contract says what this one
// prints.
pub fn put_sheet_printed(input: &[u8], text: &mut [u8; SHEET_BYTES]) -> usize
    ensures value { (result ≡ length (sheet_printed input.now)) × (result ≤ length text.new) }
    ensures text_after { text.new ≡ splice text.old 0 (sheet_printed input.now) }
{
    put_shown::<ChartSheet>(input, text)
}
