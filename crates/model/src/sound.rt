// `HitSoundType`: the bits of a sound. Numbers, as the record, the C interface and the definitions have them.
ghost use Rattle.std.specs.Prelude.{◌≡◌};
ghost use Rattle.model.specs.Sound.{has_flag};

pub const WHISTLE: u8 = 2;

pub const FINISH: u8 = 4;

pub const CLAP: u8 = 8;

// Whether a sound has one of the named bits.
pub fn has_flag(sound: u8, bits: u8) -> bool
    ensures { result ≡ has_flag sound bits }
{
    sound & bits != 0
}
