// Fields of bits in a byte slice, most significant bit first, with no gaps.
#![tactic(auto)]

ghost use Rattle.std.specs.Prelude.{◌≡◌, ◌+◌, ◌-◌, ◌*◌, ◌/◌, ◌%◌, ◌^◌, ◌≤◌, ◌<◌, eqb, length, get_or};
ghost use Rattle.bits.specs.Field.{bit, bits, short};

// 2 to the k.
fn power(k: usize) -> u64
    requires { k ≤ 63 }
    ensures { result ≡ 2 ^ k }
{
    1 << k
}

// v with k bits more: those of the byte b from which `room` bits are still to be taken.
fn joined(v: u64, b: u8, room: usize, k: usize) -> u64
    requires { (k ≤ room) × (room ≤ 8) × (v < 2 ^ (64 - k)) }
    ensures { result ≡ v * 2 ^ k + b / 2 ^ (room - k) % 2 ^ k }
{
    let p = power(k);
    let high = b as u64 / power(room - k);
    v * p + high % p
}

// Byte i, and 0 past the end.
fn byte_at(s: &[u8], i: usize) -> u8
    ensures { result ≡ get_or s.now i 0 }
{
    s.get(i).copied().unwrap_or(0)
}

// Bit `at`, and 0 past the end.
fn bit_at(s: &[u8], at: usize) -> u8
    ensures { (result ≡ bit s.now at) × (result < 2) }
{
    (byte_at(s, at / 8) >> (7 - at % 8)) % 2
}

// A field near the end of the bytes, by what it has of each byte. Not inlined, since it is seldom called and would make every reader of a field longer.
#[inline(never)]
fn read_by_bytes(s: &[u8], at: usize, width: usize) -> u64
    requires { (width ≤ 64) × (at ≤ 4294967296) }
    ensures { result ≡ bits s.now at width }
{
    let end = at + width;
    let mut v: u64 = 0;
    for i in at / 8..(end + 7) / 8 {
        let from = (8 * i).max(at);
        let k = (8 * i + 8).min(end) - from;
        v = joined(v, byte_at(s, i), 8 * i + 8 - from, k);
    }
    v
}

// The four bytes from byte i on, as one number. Written out, so that the compiler makes one load of the eight; `chart::bytes::get8` is the same by a chart's
// definitions, and neither crate knows the other.
fn four_bytes(s: &[u8], i: usize) -> u64
    requires { i + 4 ≤ length s.now }
    ensures { result ≡ bits s.now (8 * i) 32 }
{
    let one = joined(0, s[i], 8, 8);
    let two = joined(one, s[i + 1], 8, 8);
    let three = joined(two, s[i + 2], 8, 8);
    joined(three, s[i + 3], 8, 8)
}

// The eight bytes from byte i on, as one number.
fn eight_bytes(s: &[u8], i: usize) -> u64
    requires { i + 8 ≤ length s.now }
    ensures { result ≡ bits s.now (8 * i) 64 }
{
    let high = four_bytes(s, i);
    let low = four_bytes(s, i + 4);
    high * 4294967296 + low
}

// The first k bits of a byte.
fn first_bits(b: u8, k: usize) -> u64
    requires { k ≤ 8 }
    ensures { (result ≡ b / 2 ^ (8 - k)) × (result < 2 ^ k) }
{
    b as u64 >> (8 - k)
}

// The 64 bits from bit `off` of byte i on: the shift drops those before.
fn word(s: &[u8], i: usize, off: usize) -> u64
    requires { (i + 9 ≤ length s.now) × (off ≤ 7) }
    ensures { result ≡ bits s.now (8 * i + off) 64 }
{
    let high = eight_bytes(s, i) << off;
    high + first_bits(s[i + 8], off)
}

// The number that the `width` bits from bit `at` on spell; bits past the end are 0. Where nine bytes are there, they hold the field.
pub fn read_bits(s: &[u8], at: usize, width: usize) -> u64
    requires { (width ≤ 64) × (at ≤ 4294967296) }
    ensures { result ≡ bits s.now at width }
{
    let i = at / 8;
    if width == 0 {
        return 0;
    }
    if s.len() < i + 9 {
        return read_by_bytes(s, at, width);
    }
    word(s, i, at % 8) / power(64 - width)
}

// Whether the bytes end before bit `end`. By a sum, here and in job_reader: std's `div_ceil` goes by a remainder, and the definition multiplies.
pub fn is_short(s: &[u8], end: usize) -> bool
    requires { end ≤ 4294967296 }
    ensures { result ≡ short s.now end }
{
    s.len() < (end + 7) / 8
}

// A field of one bit: whether it is set.
pub fn read_flag(s: &[u8], at: usize) -> bool
    requires { at ≤ 4294967296 }
    ensures { result ≡ eqb (bits s.now at 1) 1 }
{
    bit_at(s, at) == 1
}

// A field of 32 bits, as a number of its width: by `read_bits` the caller would have to prove that a `u32` holds it.
pub fn read32(s: &[u8], at: usize) -> u32
    requires { at ≤ 4294967296 }
    ensures { result ≡ bits s.now at 32 }
{
    read_bits(s, at, 32) as u32
}
