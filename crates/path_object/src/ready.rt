// A slider for `generate`.
ghost use Rattle.path_object.specs.Parts.{Ready};

use mania::PathObjectPatternGenerator;

// A slider's generator as an object in range gives it, of one column or more.
#[derive(Clone, Copy)]
pub struct ReadySlider {
    pub g: PathObjectPatternGenerator,
    pub ghost ready: { Ready g },
}
