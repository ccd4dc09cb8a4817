// What a circle's generator asks.
ghost use Rattle.std.specs.Prelude.{◌<◌};

use circle_notes::circle::Circle;

// A circle, with the last column before it on its deck.
#[derive(Clone, Copy)]
pub struct ReadyCircle {
    pub circle: Circle,
    pub ghost last: { circle.g.last < circle.g.columns },
}
