// Numbers in bytes, the highest byte first. Where the bytes end before a number does, it is 0.
ghost use Rattle.std.specs.Prelude.{◌^◌, ◌<◌, ◌≤◌};

// For 1, 2, 4 and 8 bytes. `from_be_bytes` would be no plainer: it is another function for each size, and takes an array.
fn number(s: &[u8], at: usize, size: usize) -> u64
    requires { size ≤ 8 }
    ensures { result < 256 ^ size }
{
    if s.len() < size {
        return 0;
    }
    if s.len() - size < at {
        return 0;
    }
    chart::bytes::get(s, at, size)
}

// One word for each field of a list: a generic one over five types would be longer than these.
pub fn byte(s: &[u8], at: usize) -> u8 {
    number(s, at, 1) as u8
}

pub fn half(s: &[u8], at: usize) -> u16 {
    number(s, at, 2) as u16
}

pub fn word(s: &[u8], at: usize) -> u32 {
    number(s, at, 4) as u32
}

pub fn single(s: &[u8], at: usize) -> f32 {
    floats::pattern(word(s, at))
}

pub fn double(s: &[u8], at: usize) -> f64 {
    floats::pattern(number(s, at, 8))
}
