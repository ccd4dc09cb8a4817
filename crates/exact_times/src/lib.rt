// Times compared exactly: the sum of two with a third, by their bit patterns. Every function is for the patterns below that of infinity, which are
// the times from 0 on. The bound is no type: a note has its times as its bytes spell them, and each would be taken into a struct first.
#![tactic(auto)]

pub mod instant;
pub mod moments;

ghost use Rattle.std.specs.Prelude.{◌≡◌, ◌+◌, ◌*◌, ◌^◌, ◌≤◌, ◌<◌};
ghost use Rattle.floats.specs.Ticks.{ticks};
ghost use Rattle.chart.specs.Time.{time};
ghost use Rattle.floats.specs.Format.{infinity};
ghost use Rattle.exact_times.specs.Compare.{order_of};
ghost use Rattle.exact_times.specs.Digits.{digits_of, power_of, Number};

use floats::Float;
use std::cmp::Ordering;

// A time is digits * 2^power of the smallest times.
fn digits(b: u64) -> u64
    ensures { result ≡ digits_of b }
{
    if b < f64::LEAD_BIT {
        return b;
    }
    f64::LEAD_BIT + b % f64::LEAD_BIT
}

fn power(b: u64) -> u64
    ensures { result ≡ power_of b }
{
    (b / f64::LEAD_BIT).saturating_sub(1)
}

// n compared with rest * 2^shift.
fn against(n: u64, rest: u64, shift: u64) -> Ordering
    ensures { result ≡ order_of n (rest * 2 ^ shift) }
{
    if rest == 0 {
        return n.cmp(&0);
    }
    if shift > 63 {
        return Ordering::Less;
    }
    u128::from(n).cmp(&(u128::from(rest) << shift))
}

// The exact sum of two times, the later one first, compared with m * 2^e. Where the powers lie far apart they decide; else what is left
// of m * 2^e beyond the later time is compared with the other.
fn sum_with(a: u64, b: u64, m: u64, e: u64) -> Ordering
    requires { (a < infinity) × (b ≤ a) × Number m e }
    ensures { result ≡ order_of (ticks (time a) + ticks (time b)) (m * 2 ^ e) }
{
    let p = power(a);
    if e < p {
        return Ordering::Greater;
    }
    let k = e - p;
    if k > 1 {
        return Ordering::Less;
    }
    let all = m << k;
    let first = digits(a);
    if all < first {
        return Ordering::Greater;
    }
    against(digits(b), all - first, p - power(b))
}

// Not by `max` and `min`, which cost four instructions for each note of a chart that is read.
fn sum_to(a: u64, b: u64, m: u64, e: u64) -> Ordering
    requires { (a < infinity) × (b < infinity) × Number m e }
    ensures { result ≡ order_of (ticks (time a) + ticks (time b)) (m * 2 ^ e) }
{
    if a < b {
        return sum_with(b, a, m, e);
    }
    sum_with(a, b, m, e)
}

// The exact sum of two times, compared with a third.
pub fn sum_order(a: u64, b: u64, c: u64) -> Ordering
    requires { (a < infinity) × (b < infinity) × (c < infinity) }
    ensures { result ≡ order_of (ticks (time a) + ticks (time b)) (ticks (time c)) }
{
    sum_to(a, b, digits(c), power(c))
}

// The exact sum of two times, compared with the double of a third. A function of its own: as one with the above it would take a power at each call.
pub fn sum_order_twice(a: u64, b: u64, c: u64) -> Ordering
    requires { (a < infinity) × (b < infinity) × (c < infinity) }
    ensures { result ≡ order_of (ticks (time a) + ticks (time b)) (2 * ticks (time c)) }
{
    sum_to(a, b, digits(c), power(c) + 1)
}
