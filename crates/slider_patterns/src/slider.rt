// A slider of which a pattern can be made.
ghost use Rattle.std.specs.Prelude.{◌≡◌, ◌+◌, ◌≤◌, ◌<◌};
ghost use Rattle.slider_patterns.specs.Parts.{Fits};

use mania::PathObjectPatternGenerator;
use slider_notes::turns::Turns;

// A slider's generator, with its deck, times and spans in bounds.
#[derive(Clone, Copy)]
pub struct Slider {
    pub g: PathObjectPatternGenerator,
    pub ghost fits: { Fits g },
}

impl Slider {
    // Turns from the slider's start on, at most one a node, the first of them at a column.
    pub fn turns(self, n: u32, first: u8) -> Turns
        requires { (n ≤ self.g.spans + 1) × (first < self.g.columns) }
        ensures { (result.g ≡ self.g) × (result.n ≡ n) × (result.from ≡ self.g.start) × (result.first ≡ first) }
    {
        Turns {
            g: self.g,
            n,
            from: self.g.start,
            first,
        }
    }
}
