// Holds and distances at an instant, exact. Times of notes are bit patterns below that of infinity; an instant is such a pattern too,
// or any finite f64. The patterns' bound is no type: a note has its times as its bytes spell them, and each would be taken into a struct first.
ghost use Rattle.std.specs.Prelude.{◌≡◌, ◌+◌, ◌<◌, ltb, pos};
ghost use Rattle.floats.specs.Ticks.{ticks};
ghost use Rattle.chart.specs.Time.{time};
ghost use Rattle.floats.specs.Format.{infinity};
ghost use Rattle.exact_times.specs.Instants.{instant, covers_at, inside_at, distance, Tells, FirstAt, FirstAfter};

use crate::instant::Instant;
use crate::{sum_order, sum_order_twice};
use floats::Float;

// Whether a hold covers an instant, both ends included. Rounding keeps the order, so the exact sum is asked for only where the rounded one is t.
pub fn covers_at(start: u64, duration: u64, t: u64) -> bool
    requires { (start < infinity) × (duration < infinity) × (t < infinity) }
    ensures { result ≡ covers_at (ticks (time start)) (ticks (time start) + ticks (time duration)) (pos (ticks (time t))) }
{
    if t < start {
        return false;
    }
    let end = f64::from_bits(start) + f64::from_bits(duration);
    let at = f64::from_bits(t);
    if end < at {
        return false;
    }
    if at < end {
        return true;
    }
    sum_order(start, duration, t).is_ge()
}

// Whether an instant lies strictly inside a hold.
pub fn inside_at(start: u64, duration: u64, t: u64) -> bool
    requires { (start < infinity) × (duration < infinity) × (t < infinity) }
    ensures { result ≡ inside_at (ticks (time start)) (ticks (time start) + ticks (time duration)) (pos (ticks (time t))) }
{
    if t <= start {
        return false;
    }
    sum_order(start, duration, t).is_gt()
}

// Whether the second time is strictly nearer to an instant than the first.
pub fn nearer_at(first: u64, second: u64, t: u64) -> bool
    requires { (first < infinity) × (second < infinity) × (t < infinity) }
    ensures { result ≡ ltb (distance (ticks (time second)) (pos (ticks (time t)))) (distance (ticks (time first)) (pos (ticks (time t)))) }
{
    if t < second {
        if t < first {
            return second < first;
        }
        return sum_order_twice(first, second, t).is_lt();
    }
    if t < first {
        return sum_order_twice(first, second, t).is_gt();
    }
    first < second
}

// The bit pattern of an instant from 0 on; of a negative one none.
pub fn moment_of(at: Instant) -> Option<u64>
    ensures { Tells at.t result }
{
    let b = std::num::f64_to_bits_with_nan(at.t);
    if b < f64::SIGN_BIT {
        return Some(b);
    }
    if b == f64::SIGN_BIT {
        return Some(0);
    }
    None
}

// The first bit pattern of a time at or after an instant.
pub fn first_at(at: Instant) -> u64
    ensures { FirstAt at.t result }
{
    moment_of(at).unwrap_or(0)
}

// The first one of a time after it.
#[tactic(auto, using(crate::specs::Laws::Instants::at_after, crate::specs::Laws::Instants::before_after), unfolding(crate::specs::Instants::Tells))]
pub fn first_after(at: Instant) -> u64
    ensures { FirstAfter at.t result }
{
    moment_of(at).map_or(0, |b| b + 1)
}

// The three tests at any instant. One function over the test would need a contract as long as the three.
#[tactic(auto, using(crate::specs::Laws::Instants::before_covers), unfolding(crate::specs::Instants::Tells))]
pub fn covers(start: u64, duration: u64, at: Instant) -> bool
    requires { (start < infinity) × (duration < infinity) }
    ensures { result ≡ covers_at (ticks (time start)) (ticks (time start) + ticks (time duration)) (instant at.t) }
{
    moment_of(at).is_some_and(|b| covers_at(start, duration, b))
}

#[tactic(auto, using(crate::specs::Laws::Instants::before_inside), unfolding(crate::specs::Instants::Tells))]
pub fn strictly_inside(start: u64, duration: u64, at: Instant) -> bool
    requires { (start < infinity) × (duration < infinity) }
    ensures { result ≡ inside_at (ticks (time start)) (ticks (time start) + ticks (time duration)) (instant at.t) }
{
    moment_of(at).is_some_and(|b| inside_at(start, duration, b))
}

#[tactic(auto, using(crate::specs::Laws::Instants::before_distance, crate::specs::Laws::Instants::ticks_ltb), unfolding(crate::specs::Instants::Tells))]
pub fn nearer(first: u64, second: u64, at: Instant) -> bool
    requires { (first < infinity) × (second < infinity) }
    ensures { result ≡ ltb (distance (ticks (time second)) (instant at.t)) (distance (ticks (time first)) (instant at.t)) }
{
    moment_of(at).map_or(second < first, |b| nearer_at(first, second, b))
}
