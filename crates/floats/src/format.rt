// Parts of bit patterns, and what the two types of floats have in common. specs/Format.antt says what the parts are.
ghost use Rattle.std.specs.Prelude.{◌≡◌, ℕ, ◌*◌, ◌<◌, from_bits, pos, false, refl};
ghost use Rattle.std.specs.Float.{Float as Ieee754, Format, NotNanBits, fin, binary32, binary64};
ghost use Rattle.std.specs.Float.Ieee.{le, lt, top, ones, hid};

// A type of floats, each of them the number of a bit pattern.
pub trait Float: Copy {
    type Bits: Copy;

    // The parts of its patterns: the sign's bit, the lowest bit of the exponent's field, and the pattern of infinity.
    const SIGN_BIT: u64;

    const LEAD_BIT: u64;

    const INFINITY_BITS: u64;

    ghost SIGN_BIT: { ℕ };

    ghost LEAD_BIT: { ℕ };

    ghost INFINITY_BITS: { ℕ };

    ghost format: { Format };

    ghost value: { Self → Ieee754 };

    ghost number: { Self.Bits → ℕ };

    fn zero() -> Self
        ensures { value result ≡ fin false 0 (pos 0) };

    fn number(bits: Self::Bits) -> u64
        ensures value { result ≡ number bits }
        ensures bound { result < 2 * top format };

    fn of_bits(bits: Self::Bits) -> Self
        requires { NotNanBits format (number bits) }
        ensures { value result ≡ from_bits format (number bits) };

    // `self <= other`
    fn at_most(self, other: Self) -> bool
        ensures { result ≡ le (value self) (value other) };

    // `self < other`
    fn below(self, other: Self) -> bool
        ensures { result ≡ lt (value self) (value other) };

    // The same number as an `f64`.
    fn wide(self) -> f64
        ensures { result ≡ value self };

    ghost sign_is: { SIGN_BIT ≡ top format };

    ghost infinity_is: { INFINITY_BITS ≡ ones format * hid format };
}

impl Float for f64 {
    type Bits = u64;

    const SIGN_BIT: u64 = 0x8000_0000_0000_0000;

    const LEAD_BIT: u64 = 0x10_0000_0000_0000;

    const INFINITY_BITS: u64 = 0x7ff0_0000_0000_0000;

    ghost SIGN_BIT = { 0x8000_0000_0000_0000 };

    ghost LEAD_BIT = { 0x10_0000_0000_0000 };

    ghost INFINITY_BITS = { 0x7ff0_0000_0000_0000 };

    ghost format = { binary64 };

    ghost value = { λ x. x };

    ghost number = { λ b. b };

    ghost sign_is = { refl };

    ghost infinity_is = { refl };

    fn zero() -> f64 {
        0.0
    }

    fn number(bits: u64) -> u64 {
        bits
    }

    fn of_bits(bits: u64) -> f64 {
        f64::from_bits(bits)
    }

    fn at_most(self, other: f64) -> bool {
        self <= other
    }

    fn below(self, other: f64) -> bool {
        self < other
    }

    fn wide(self) -> f64 {
        self
    }
}

impl Float for f32 {
    type Bits = u32;

    const SIGN_BIT: u64 = 0x8000_0000;

    const LEAD_BIT: u64 = 0x80_0000;

    const INFINITY_BITS: u64 = 0x7f80_0000;

    ghost SIGN_BIT = { 0x8000_0000 };

    ghost LEAD_BIT = { 0x80_0000 };

    ghost INFINITY_BITS = { 0x7f80_0000 };

    ghost format = { binary32 };

    ghost value = { λ x. x };

    ghost number = { λ b. b };

    ghost sign_is = { refl };

    ghost infinity_is = { refl };

    fn zero() -> f32 {
        0.0
    }

    fn number(bits: u32) -> u64 {
        u64::from(bits)
    }

    fn of_bits(bits: u32) -> f32 {
        f32::from_bits(bits)
    }

    fn at_most(self, other: f32) -> bool {
        self <= other
    }

    fn below(self, other: f32) -> bool {
        self < other
    }

    fn wide(self) -> f64 {
        std::num::f32_to_f64_with_nan(self)
    }
}
