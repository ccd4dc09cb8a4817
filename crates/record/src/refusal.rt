// The conditions of a record's fields, and the floats that they hold. What refuses a record is its first condition, in record order, that applies.
// A field's bytes and its bit are no struct: the bit moves on with each field, so that the struct would be built anew for each.
ghost use Rattle.std.specs.Prelude.{◌≡◌, ◌≤◌, ℕ, not};
ghost use Rattle.std.proofs.Common.{lit≤};
ghost use Rattle.rules.specs.Coded.{code, refusal_code};
ghost use Rattle.rules.specs.Numbers.{field_not_whole};
ghost use Rattle.bits.specs.Field.{bits, short};
ghost use Rattle.floats.specs.Range.{within, float};
ghost use Rattle.record.specs.Refusal.{◌gives◌, field, field_refusal, f32_at, f64_at};

use bits::{is_short, read_bits, read32};
use floats::{Float, pattern, within};
use rules::Refusal;

// The refusal under the condition t: `rules::refuse` in the words of a record's conditions, which the laws of rows cite.
#[tactic(auto, using(crate::specs::Laws::Row::gives_yes, crate::specs::Laws::Row::gives_no))]
pub fn refuse(t: bool, refusal: Refusal) -> Result<(), Refusal>
    ensures { refusal_code result ≡ (t gives code refusal) }
{
    if t { Err(refusal) } else { Ok(()) }
}

// A field that ends at bit `end` is whole.
pub fn whole(s: &[u8], end: usize) -> Result<(), Refusal>
    requires { end ≤ 4294967296 }
    ensures { refusal_code result ≡ (short s.now end gives field_not_whole) }
{
    refuse(is_short(s, end), Refusal::FieldNotWhole)
}

// A type of floats that fields hold.
pub trait Field: Float {
    const WIDTH: usize;

    ghost WIDTH: { ℕ };

    fn pattern_at(s: &[u8], at: usize) -> Self::Bits
        requires { at ≤ 1000000000 }
        ensures { Self.number result ≡ bits s.now at WIDTH };

    ghost narrow: { WIDTH ≤ 64 };
}

impl Field for f32 {
    const WIDTH: usize = 32;

    ghost WIDTH = { 32 };

    ghost narrow = { lit≤ tt };

    fn pattern_at(s: &[u8], at: usize) -> u32 {
        read32(s, at)
    }
}

impl Field for f64 {
    const WIDTH: usize = 64;

    ghost WIDTH = { 64 };

    ghost narrow = { lit≤ tt };

    fn pattern_at(s: &[u8], at: usize) -> u64 {
        read_bits(s, at, 64)
    }
}

// The float field at bit `at` is whole, and its value is from lo to hi.
#[tactic(auto, using(crate::specs::Laws::Row::row_stop, crate::specs::Laws::Row::row_next))]
pub fn float_refusal<F: Field>(
    s: &[u8],
    at: usize,
    lo: F,
    hi: F,
    refusal: Refusal,
) -> Result<(), Refusal>
    requires { at ≤ 1000000000 }
    ensures { refusal_code result ≡ field_refusal s.now (field at F.WIDTH (not (within F.format (F.value lo) (F.value hi) (bits s.now at F.WIDTH))) (code refusal)) }
{
    whole(s, at + F::WIDTH)?;
    refuse(!within(F::pattern_at(s, at), lo, hi), refusal)
}

// The float field at bit `at`.
pub fn float_at<F: Field>(s: &[u8], at: usize) -> F
    requires { at ≤ 1000000000 }
    ensures { F.value result ≡ float F.format (bits s.now at F.WIDTH) }
{
    pattern(F::pattern_at(s, at))
}

// `float_at` at each type, under the names of the definitions that contracts cite.
pub fn f32_at(s: &[u8], at: usize) -> f32
    requires { at ≤ 1000000000 }
    ensures { result ≡ f32_at s.now at }
{
    float_at(s, at)
}

pub fn f64_at(s: &[u8], at: usize) -> f64
    requires { at ≤ 1000000000 }
    ensures { result ≡ f64_at s.now at }
{
    float_at(s, at)
}
