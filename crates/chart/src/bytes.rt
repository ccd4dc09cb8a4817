// Numbers in bytes, the highest byte first. Places and no parts, here and in rows.rt: a note is defined of all the bytes from its place on, and what stores a
// number leaves the others as they were.
ghost use Rattle.std.specs.Prelude.{◌≡◌, ◌+◌, ◌^◌, ◌≤◌, ◌<◌, length, drop, replicate};
ghost use Rattle.chart.specs.Bytes.{be, num, splice};

// `u64::from`, with the bound that the sums below rest on.
fn wide(x: u8) -> u64
    ensures { (result ≡ x) × (result < 256) }
{
    u64::from(x)
}

// The number in the `size` bytes from `at`.
pub fn get(s: &[u8], at: usize, size: usize) -> u64
    requires { (size ≤ 8) × (at + size ≤ length s.now) }
    ensures { (result ≡ num size (drop at s.now)) × (result < 256 ^ size) }
{
    let mut x = 0;
    for b in &s[at..at + size] {
        x = x * 256 + wide(*b);
    }
    x
}

// The number in the 8 bytes from `at`. Written out and in two halves, so that the compiler makes one load of the eight: with `get`, or with std's
// `from_be_bytes`, charts took two to three times the instructions to put in order.
pub fn get8(s: &[u8], at: usize) -> u64
    requires { at + 8 ≤ length s.now }
    ensures { result ≡ num 8 (drop at s.now) }
{
    let high = wide(s[at]) * 16777216
        + wide(s[at + 1]) * 65536
        + wide(s[at + 2]) * 256
        + wide(s[at + 3]);
    let low = wide(s[at + 4]) * 16777216
        + wide(s[at + 5]) * 65536
        + wide(s[at + 6]) * 256
        + wide(s[at + 7]);
    high * 4294967296 + low
}

// The number in the 3 bytes from `at`. Written out for the same reason.
pub fn get3(s: &[u8], at: usize) -> u64
    requires { at + 3 ≤ length s.now }
    ensures { (result ≡ num 3 (drop at s.now)) × (result < 256 ^ 3) }
{
    wide(s[at]) * 65536 + wide(s[at + 1]) * 256 + wide(s[at + 2])
}

// Stores a number in the `size` bytes from `at`, the last first. All other bytes keep their values.
pub fn put(s: &mut [u8], at: usize, size: usize, value: u64)
    requires { at + size ≤ length s.old }
    ensures { s.new ≡ splice s.old at (be size value) }
{
    let mut x = value;
    for i in (0..size).rev() {
        s[at + i] = (x % 256) as u8;
        x /= 256;
    }
}

// Stores a number in the 8 bytes from `at`. All other bytes keep their values. Written out as `get8` is.
pub fn put8(s: &mut [u8], at: usize, value: u64)
    requires { at + 8 ≤ length s.old }
    ensures { s.new ≡ splice s.old at (be 8 value) }
{
    s[at] = (value / 72057594037927936 % 256) as u8;
    s[at + 1] = (value / 281474976710656 % 256) as u8;
    s[at + 2] = (value / 1099511627776 % 256) as u8;
    s[at + 3] = (value / 4294967296 % 256) as u8;
    s[at + 4] = (value / 16777216 % 256) as u8;
    s[at + 5] = (value / 65536 % 256) as u8;
    s[at + 6] = (value / 256 % 256) as u8;
    s[at + 7] = (value % 256) as u8;
}

// Stores a number in the 3 bytes from `at`. All other bytes keep their values. Written out as `get3` is.
pub fn put3(s: &mut [u8], at: usize, value: u64)
    requires { at + 3 ≤ length s.old }
    ensures { s.new ≡ splice s.old at (be 3 value) }
{
    s[at] = (value / 65536 % 256) as u8;
    s[at + 1] = (value / 256 % 256) as u8;
    s[at + 2] = (value % 256) as u8;
}

pub fn zero(s: &mut [u8])
    ensures { s.new ≡ replicate (length s.old) 0 }
{
    s.fill(0);
}
