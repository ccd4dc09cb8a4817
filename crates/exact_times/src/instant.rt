// Moments that are asked about.
ghost use Rattle.std.specs.Prelude.{◌≡◌, true, false, MatchOption};
ghost use Rattle.std.specs.Float.Ieee.Scale.{finite};

use floats::is_finite;

// A moment asked about: a finite f64.
#[derive(Clone, Copy)]
pub struct Instant {
    pub t: f64,
    pub ghost is_finite: { finite t ≡ true },
}

impl Instant {
    // Of a float that is not finite there is none.
    pub fn new(t: f64) -> Option<Instant>
        ensures { MatchOption result (finite t ≡ false) (λ at. at.t ≡ t) }
    {
        if !is_finite(t) {
            return None;
        }
        Some(Instant { t })
    }
}
