// Text in ASCII codes, stored in a lent buffer: digits, decimal and hexadecimal numbers, and words.
// By hand, not by Display or write!: std's writer to a slice does not say which bytes it writes, and there is no heap for a String.
// Each function takes the buffer and an index: with both in a cursor, a contract would still say from which index of whose buffer, in longer words.
#![tactic(auto)]

ghost use Rattle.std.specs.Prelude.{◌≡◌, ◌+◌, ◌≤◌, ◌<◌, length, replicate};
ghost use Rattle.chart.specs.Bytes.{splice};
ghost use Rattle.text.specs.Text.{digit, digits, decimal, hex, right, named, with_hex};

// The ASCII code of a digit: 0 to 9, then A to F. No table: tried, it takes about 3 instructions more for a decimal number.
fn digit_code(d: u64) -> u8
    requires { d < 16 }
    ensures { result ≡ digit d }
{
    if d < 10 {
        b'0' + d as u8
    } else {
        b'A' + (d - 10) as u8
    }
}

// How many decimal digits n has.
pub fn places(n: u32) -> usize
    ensures { (result ≡ length (decimal n)) × (result ≤ 10) }
{
    n.max(1).ilog10() as usize + 1
}

// Stores the last k digits of n in a base from `at`. All other bytes keep their values.
fn put_digits(s: &mut [u8], at: usize, n: u64, base: u64, k: usize)
    requires { (0 < base) × (base ≤ 16) × (at + k ≤ length s.old) }
    ensures { s.new ≡ splice s.old at (digits base k n) }
{
    let mut rest = n;
    for i in (0..k).rev() {
        s[at + i] = digit_code(rest % base);
        rest /= base;
    }
}

// Stores n in decimal from `at`, where its digits fit, and gives the index after it. All other bytes keep their values, as below.
pub fn put_number(s: &mut [u8], at: usize, n: u32) -> usize
    requires { at + length (decimal n) ≤ length s.old }
    ensures value { result ≡ at + length (decimal n) }
    ensures s_after { s.new ≡ splice s.old at (decimal n) }
{
    let k = places(n);
    put_digits(s, at, n as u64, 10, k);
    at + k
}

// The same where there is room for every number. A function of its own: without it each caller would show in its own proof that ten places do.
pub fn put_decimal(s: &mut [u8], at: usize, n: u32) -> usize
    requires { at + 10 ≤ length s.old }
    ensures value { (result ≡ at + length (decimal n)) × (result ≤ at + 10) }
    ensures s_after { s.new ≡ splice s.old at (decimal n) }
{
    put_number(s, at, n)
}

// Stores one character `count` times from `at`, and gives the index after them.
pub fn put_run(s: &mut [u8], at: usize, character: u8, count: usize) -> usize
    requires { at + count ≤ length s.old }
    ensures value { result ≡ at + count }
    ensures s_after { s.new ≡ splice s.old at (replicate count character) }
{
    s[at..at + count].fill(character);
    at + count
}

// Stores n in decimal, right-aligned in `width` places, from `at`, and gives the index after it.
pub fn put_right(s: &mut [u8], at: usize, width: usize, n: u32) -> usize
    requires { (length (decimal n) ≤ width) × (at + width ≤ length s.old) }
    ensures value { result ≡ at + width }
    ensures s_after { s.new ≡ splice s.old at (right width n) }
{
    let k = places(n);
    let first = put_run(s, at, b' ', width - k);
    put_digits(s, first, n as u64, 10, k);
    first + k
}

// Stores the 16 hexadecimal digits of a bit pattern from `at`, and gives the index after them.
pub fn put_hex(s: &mut [u8], at: usize, bits: u64) -> usize
    requires { at + 16 ≤ length s.old }
    ensures value { result ≡ at + 16 }
    ensures s_after { s.new ≡ splice s.old at (hex bits) }
{
    put_digits(s, at, bits, 16, 16);
    at + 16
}

// Stores the bytes of a word from `at`, and gives the index after them.
pub fn put_word(s: &mut [u8], at: usize, word: &[u8]) -> usize
    requires { at + length word.now ≤ length s.old }
    ensures value { result ≡ at + length word.now }
    ensures s_after { s.new ≡ splice s.old at word.now }
{
    s[at..at + word.len()].copy_from_slice(word);
    at + word.len()
}

// Stores a word of at most 8 bytes, and n in decimal after it.
pub fn put_named(s: &mut [u8], at: usize, word: &[u8], n: u32) -> usize
    requires { (length word.now ≤ 8) × (at + 18 ≤ length s.old) }
    ensures value { (result ≡ at + length (named word.now n)) × (result ≤ at + 18) }
    ensures s_after { s.new ≡ splice s.old at (named word.now n) }
{
    let a = put_word(s, at, word);
    put_decimal(s, a, n)
}

// Stores a word of at most 3 bytes, and a bit pattern after it. One function for this and `put_named` would take the second half as a closure, with
// its contract: longer than the two lines that it would save.
pub fn put_with_hex(s: &mut [u8], at: usize, word: &[u8], bits: u64) -> usize
    requires { (length word.now ≤ 3) × (at + 19 ≤ length s.old) }
    ensures value { (result ≡ at + length (with_hex word.now bits)) × (result ≤ at + 19) }
    ensures s_after { s.new ≡ splice s.old at (with_hex word.now bits) }
{
    let a = put_word(s, at, word);
    put_hex(s, a, bits)
}
