// What a circle's notes are made from.
ghost use Rattle.std.specs.Prelude.{◌≤◌, ◌<◌};

use mania::HitObjectPatternGenerator;

// A circle on a deck of 1 to 9 columns.
#[derive(Clone, Copy)]
pub struct Circle {
    pub g: HitObjectPatternGenerator,
    pub ghost some: { 0 < g.columns },
    pub ghost deck: { g.columns ≤ 9 },
}
