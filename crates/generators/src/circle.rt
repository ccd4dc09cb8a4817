// A circle.
ghost use Rattle.generators.specs.Circle.{Asks, Makes};

use crate::Generator;
use hit_object::ready::ReadyCircle;
use pattern::Made;
use random::{Draws, Outcome};

impl Generator for ReadyCircle {
    ghost asks = { λ g n m. Asks n };

    ghost makes = { Makes };

    fn make(self, d: Draws, words: &mut [u64], spare: &mut [u64]) -> Outcome<Made> {
        hit_object::generate_by_value(d, self, words)
    }
}
