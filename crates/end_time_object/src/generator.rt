// What the note of a spinner or a hold is made from.
ghost use Rattle.std.specs.Prelude.{◌≤◌, ◌<◌};

use mania::PrevValues;
use model::Object;

// `EndTimeObjectPatternGenerator`: the previous pattern, the deck, the object and its duration.
#[derive(Clone, Copy)]
pub struct EndTimeObjectPatternGenerator {
    pub v: PrevValues,
    pub columns: u8,
    pub o: Object,
    pub duration: f64,
    pub ghost some: { 0 < columns },
    pub ghost deck: { columns ≤ 9 },
}
