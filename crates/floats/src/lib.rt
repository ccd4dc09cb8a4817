// Whole numbers of floats, worked out from bits.
#![tactic(auto)]

pub mod format;

ghost use Rattle.std.specs.Prelude.{◌≡◌, ◌+◌, ◌-◌, ◌*◌, ◌/◌, ◌%◌, ◌^◌, ◌<◌, ◌≤◌, min, false};
ghost use Rattle.std.specs.Float.Ieee as Ieee;
ghost use Rattle.std.specs.Float.{binary32, binary64};
ghost use Rattle.std.specs.Float.Ieee.Nearest.{closest};
ghost use Rattle.floats.specs.Whole.{in_units, rounded, signed, whole, natural, count};
ghost use Rattle.floats.specs.Narrow.{narrowed};
ghost use Rattle.std.specs.Float.Ieee.Scale.{finite};
ghost use Rattle.floats.specs.Range.{in_range, within, float};
ghost use Rattle.floats.specs.Least.{least, greatest, clamped};

pub use format::Float;

// How a number is taken to a whole one: toward zero, down, up, or to the nearest, a tie to the even one. No code rounds up; the definition of a column's
// position does.
#[derive(Clone, Copy)]
pub enum Way {
    Cut,
    Floor,
    Ceil,
    Even,
}

// The whole number nearest to a / b, a tie to the even one.
fn nearest(a: u64, b: u64) -> u64
    requires { (a < 2 ^ 54) × (b < 2 ^ 54) × (0 < b) }
    ensures { result ≡ closest a b }
{
    let q = a / b;
    let t = a % b * 2;
    if t < b {
        q
    } else if b < t {
        q + 1
    } else {
        q + q % 2
    }
}

// The size of the whole number next to ±a / b. The definitions take a `Way` as a value and match it too (specs/Whole.antt): a trait with a type for each
// would be no plainer.
fn next_to(way: Way, negative: bool, a: u64, b: u64) -> u64
    requires { (a < 2 ^ 54) × (b < 2 ^ 54) × (0 < b) }
    ensures { result ≡ rounded way negative a b }
{
    match way {
        Way::Cut => a / b,
        Way::Floor => { if negative { (a + (b - 1)) / b } else { a / b } }
        Way::Ceil => { if negative { a / b } else { (a + (b - 1)) / b } }
        Way::Even => nearest(a, b),
    }
}

// ±n at the range of an i32.
fn with_sign(negative: bool, n: u64) -> i32
    requires { n ≤ 2 ^ 31 }
    ensures { result ≡ signed negative n }
{
    let n = n as i64;
    (if negative { -n } else { n.min(2147483647) }) as i32
}

// The size of the whole number next to a float, by the two fields of its bit pattern, the exponent's and the digits'. It stops at 2^31.
fn size_at(way: Way, negative: bool, exponent: u64, digits: u64) -> u64
    requires { digits < 2 ^ 52 }
    ensures { result ≡ min (rounded way negative (in_units binary64 exponent digits) (2 ^ 1074)) (2 ^ 31) }
{
    if 1054 <= exponent {
        // 2^31 or more
        2147483648
    } else if 1022 <= exponent {
        // the number is 2^52 + digits, over 2^(1075 - exponent)
        next_to(
            way,
            negative,
            f64::LEAD_BIT + digits,
            1u64 << (1075 - exponent),
        )
    } else if exponent + digits == 0 {
        next_to(way, negative, 0, 4)
    } else {
        // above 0 and below a half, as a quarter is
        next_to(way, negative, 1, 4)
    }
}

// The whole number next to x, as Rust's `as i32` gives it: 0 for a NaN, and the nearest end of the range for what is out of it.
// From the bits, since std's `floor` or `round_ties_even` and a cast take 48 or 43 instructions where this takes 33 or 38.
pub fn to_whole<F: Float>(x: F, way: Way) -> i32
    ensures { result ≡ whole way (F.value x) }
{
    let x = x.wide();
    if x != x {
        return 0;
    }
    let bits = f64::to_bits(x);
    let negative = f64::SIGN_BIT <= bits;
    let size = size_at(
        way,
        negative,
        bits % f64::SIGN_BIT / f64::LEAD_BIT,
        bits % f64::LEAD_BIT,
    );
    with_sign(negative, size)
}

// The whole number next to x, or 0 where that is negative.
pub fn to_count<F: Float>(x: F, way: Way) -> u32
    ensures { result ≡ count way (F.value x) }
{
    to_whole(x, way).max(0) as u32
}

// The bit pattern of the `f32` nearest to an `f64` that is not negative, by the two fields of the `f64`'s pattern.
fn narrow_size(exponent: u64, digits: u64) -> u64
    requires { digits < 2 ^ 52 }
    ensures { result ≡ Ieee.to_bits binary32 (Ieee.round binary32 false (in_units binary64 exponent digits) (2 ^ 1074)) }
{
    if 1151 <= exponent {
        // 2^128 or more: an infinity
        f32::INFINITY_BITS
    } else if 897 <= exponent {
        // 29 of 53 digits are dropped. A carry out of the digits goes into the exponent's field.
        (exponent - 897) * f32::LEAD_BIT + nearest(f64::LEAD_BIT + digits, 536870912)
    } else if 873 <= exponent {
        // below the normal range: a multiple of 2^-149
        nearest(f64::LEAD_BIT + digits, 1u64 << (926 - exponent))
    } else {
        0
    }
}

// The `f32` nearest to x, as Rust's `as f32` gives it: 34 instructions, where std's `nearest_f64_to_f32_with_nan` takes 69.
pub fn narrow(x: f64) -> f32
    ensures { result ≡ narrowed x }
{
    if x != x {
        return 0.0 / 0.0;
    }
    let bits = f64::to_bits(x);
    let size = narrow_size(bits % f64::SIGN_BIT / f64::LEAD_BIT, bits % f64::LEAD_BIT);
    let y = f32::from_bits(size as u32);
    if f64::SIGN_BIT <= bits { -y } else { y }
}

// Whether the float of a bit pattern is finite, is not negative zero, and lies in a range. A NaN's
// pattern is ruled out by its fields, since `from_bits` has no meaning there. Two bounds, as the definitions take them; nearly all are constants of `limits`.
pub fn within<F: Float>(bits: F::Bits, lo: F, hi: F) -> bool
    ensures { result ≡ within F.format (F.value lo) (F.value hi) (F.number bits) }
{
    let b = F::number(bits);
    if F::INFINITY_BITS <= b % F::SIGN_BIT {
        return false;
    }
    if b == F::SIGN_BIT {
        return false;
    }
    let x = F::of_bits(bits);
    if lo.at_most(x) { x.at_most(hi) } else { false }
}

// The float of a bit pattern; 0 for a NaN's.
pub fn pattern<F: Float>(bits: F::Bits) -> F
    ensures { F.value result ≡ float F.format (F.number bits) }
{
    if F::INFINITY_BITS < F::number(bits) % F::SIGN_BIT {
        return F::zero();
    }
    F::of_bits(bits)
}

// Whether a float is finite. std's method, and a function: with the method itself the proof at each call would have to bring in the definitions' `finite`.
pub fn is_finite(x: f64) -> bool
    ensures { result ≡ finite x }
{
    x.is_finite()
}

// Whether a float is finite, is not negative zero, and lies in a range.
pub fn in_range<F: Float>(x: F, lo: F, hi: F) -> bool
    ensures { result ≡ in_range (F.value lo) (F.value hi) (F.value x) }
{
    let x = x.wide();
    if x != x {
        return false;
    }
    within(f64::to_bits(x), lo.wide(), hi.wide())
}

// ---- floats that are no NaN

// `x.min(y)` and `x.max(y)`: std's do not say which one they give of 0 and -0, and the definitions do.
pub fn min(x: f64, y: f64) -> f64
    ensures { result ≡ least x y }
{
    if y < x { y } else { x }
}

pub fn max(x: f64, y: f64) -> f64
    ensures { result ≡ greatest x y }
{
    if x < y { y } else { x }
}

// `x.clamp(low, high)`. std's requires bounds in order; this one requires nothing.
#[tactic(auto, unfolding(crate::specs::Least::clamped))]
pub fn clamp<F: Float>(low: F, high: F, x: F) -> F
    ensures { F.value result ≡ clamped (F.value low) (F.value high) (F.value x) }
{
    if x.below(low) {
        low
    } else if high.below(x) {
        high
    } else {
        x
    }
}
