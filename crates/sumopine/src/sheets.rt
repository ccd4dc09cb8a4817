// The chart sheet, for a host in C.
ghost use Rattle.std.specs.Prelude.{◌≡◌};
ghost use Rattle.sheet.specs.Sheet.{sheeted};
ghost use Rattle.sumopine.specs.Sheets.{sheet_number, sheet_length};

use crate::measured;
use sheet::put_sheet;

// A chart's sheet: 0 and its length, or the refusal's number and 0.
#[unsafe(no_mangle)]
pub extern "C" fn sumopine_sheet(chart: &[u8], buffer: &mut [u8], length: &mut u64) -> u32
    ensures value { result ≡ sheet_number (sheeted chart.now buffer.old).0 }
    ensures length_after { length.new ≡ sheet_length (sheeted chart.now buffer.old).0 }
    ensures buffer_after { buffer.new ≡ (sheeted chart.now buffer.old).1 }
{
    let answer = put_sheet(chart, buffer);
    measured(answer, length)
}
