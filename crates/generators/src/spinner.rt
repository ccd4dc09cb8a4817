// A spinner or a hold.
ghost use Rattle.generators.specs.Spinner.{Asks, Makes};

use crate::Generator;
use end_time_object::generator::EndTimeObjectPatternGenerator;
use pattern::Made;
use random::{Draws, Outcome};

impl Generator for EndTimeObjectPatternGenerator {
    ghost asks = { λ g n m. Asks n };

    ghost makes = { Makes };

    fn make(self, d: Draws, words: &mut [u64], spare: &mut [u64]) -> Outcome<Made> {
        end_time_object::generate_by_value(d, self, words)
    }
}
