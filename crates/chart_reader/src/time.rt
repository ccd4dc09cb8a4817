// The bound of a chart's times.
ghost use Rattle.std.specs.Prelude.{◌≡◌, ◌+◌, ◌<◌, leb};
ghost use Rattle.floats.specs.Ticks.{ticks};
ghost use Rattle.chart.specs.Time.{time, latest};
ghost use Rattle.floats.specs.Format.{infinity};

use exact_times::sum_order;

const LATEST: u64 = f64::to_bits(33554431.0);

// Whether the exact sum of two times is at most 33,554,431 ms.
pub fn within(start: u64, duration: u64) -> bool
    requires { (start < infinity) × (duration < infinity) }
    ensures { result ≡ leb (ticks (time start) + ticks (time duration)) latest }
{
    sum_order(start, duration, LATEST).is_le()
}
