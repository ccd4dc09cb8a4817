// Hit object lines, for a host in C.
ghost use Rattle.std.specs.Prelude.{◌≡◌};
ghost use Rattle.hit_object_lines.specs.Lines.{writing};
ghost use Rattle.hit_object_lines.specs.Reading.{reading};
ghost use Rattle.sumopine.specs.HitObjects.{outcome_number, outcome_length};

use crate::measured;
use hit_object_lines::write_lines;
use hit_object_reader::read_lines;

// The lines of a chart.
#[unsafe(no_mangle)]
pub extern "C" fn sumopine_write_hit_objects(chart: &[u8], text: &mut [u8], length: &mut u64) -> u32
    ensures value { result ≡ outcome_number (writing chart.now text.old).0 }
    ensures length_after { length.new ≡ outcome_length (writing chart.now text.old).0 }
    ensures text_after { text.new ≡ (writing chart.now text.old).1 }
{
    let answer = write_lines(chart, text);
    measured(answer, length)
}

// A chart of `columns` columns, from its lines.
#[unsafe(no_mangle)]
pub extern "C" fn sumopine_read_hit_objects(
    text: &[u8],
    columns: u32,
    chart: &mut [u8],
    length: &mut u64,
) -> u32
    ensures value { result ≡ outcome_number (reading text.now columns chart.old).0 }
    ensures length_after { length.new ≡ outcome_length (reading text.now columns chart.old).0 }
    ensures chart_after { chart.new ≡ (reading text.now columns chart.old).1 }
{
    let answer = read_lines(text, columns, chart);
    measured(answer, length)
}
