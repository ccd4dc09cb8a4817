// What a loop that writes a slider's notes is given.
ghost use Rattle.std.specs.Prelude.{◌+◌, ◌*◌, ◌^◌, ◌<◌};
ghost use Rattle.slider_notes.specs.Turns.{OnDeck};

use mania::PathObjectPatternGenerator;

// `n` turns of a slider's generator, a span apart: the first is at the time `from`, in the column `first`. The time is a field, and the pattern before a
// parameter of each loop, since each rule goes on from any turn.
#[derive(Clone, Copy)]
pub struct Turns {
    pub g: PathObjectPatternGenerator,
    pub n: u32,
    pub from: u32,
    pub first: u8,
    pub ghost on_deck: { OnDeck g first },
    pub ghost times: { from + n * g.length < 2 ^ 26 },
}
