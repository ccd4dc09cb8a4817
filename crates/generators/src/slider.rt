// A slider.
ghost use Rattle.generators.specs.Slider.{Asks, Makes};

use crate::Generator;
use path_object::ready::ReadySlider;
use pattern::Made;
use random::{Draws, Outcome};

impl Generator for ReadySlider {
    ghost asks = { λ g n m. Asks n m };

    ghost makes = { Makes };

    fn make(self, d: Draws, words: &mut [u64], spare: &mut [u64]) -> Outcome<Made> {
        path_object::generate_by_value(d, self, words, spare)
    }
}
