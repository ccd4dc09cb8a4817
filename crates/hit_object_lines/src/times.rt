// Times in whole milliseconds.
ghost use Rattle.std.specs.Prelude.{◌≡◌, eqb, ◌/◌, ◌%◌, ◌≤◌};
ghost use Rattle.chart.specs.Time.{time};
ghost use Rattle.floats.specs.Ticks.{ticks};
ghost use Rattle.model.specs.Limits.{latest_end};
ghost use Rattle.hit_object_lines.specs.Lines.{millisecond, is_whole};
ghost use Rattle.hit_object_lines.specs.Reading.{time_of};
ghost use Rattle.hit_object_lines.specs.Laws.Times.{InTime};
ghost use Rattle.hit_object_lines.specs.Laws.Notes.{Standing};

use chart::Note;
use floats::{Way, to_count};

// The bit pattern of `ms` as an f64.
pub fn time_of(ms: u32) -> u64
    ensures { result ≡ time_of ms }
{
    f64::to_bits(ms as f64)
}

// A time in milliseconds, cut down to a whole number.
pub fn milliseconds(bits: u64) -> u32
    requires { InTime bits }
    ensures { (result ≡ ticks (time bits) / millisecond) × (result ≤ latest_end) }
{
    to_count(f64::from_bits(bits), Way::Cut)
}

// Whether a time is a whole number of milliseconds: then its own whole number has the same pattern.
fn has_whole(bits: u64) -> bool
    requires { InTime bits }
    ensures { result ≡ eqb (ticks (time bits) % millisecond) 0 }
{
    time_of(milliseconds(bits)) == bits
}

// Whether a note starts and ends at whole numbers of milliseconds: then its duration is one too.
pub fn is_whole(columns: u8, n: Note) -> bool
    requires { Standing columns n }
    ensures { result ≡ is_whole n }
{
    has_whole(n.start) && has_whole(n.duration)
}
