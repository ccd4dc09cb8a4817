// Decimal numbers.
ghost use Rattle.std.specs.Prelude.{◌≡◌, true, ◌+◌, ◌≤◌, ◌<◌, length, IfSome};
ghost use Rattle.model.specs.Limits.{latest_end};
ghost use Rattle.hit_object_lines.specs.Reading.{is_digit, with_digit, digits_on, number};
ghost use Rattle.hit_object_reader.specs.Told.{number_told};

use model::limits::LATEST_END;

fn with_digit(value: u32, c: u8) -> u32
    requires { (value ≤ latest_end + 1) × (is_digit c ≡ true) }
    ensures { (result ≡ with_digit value c) × (result ≤ latest_end + 1) }
{
    (value * 10 + u32::from(c - b'0')).min(LATEST_END + 1)
}

// A number with the digits that s begins with behind it, or one above the largest, and what follows them. By `while`: `rest` is the second answer too, for
// which a `for` would count an index and cut `s` there.
fn digits_on(first: u32, s: &[u8]) -> (u32, &[u8])
    requires { first ≤ latest_end + 1 }
    ensures value { (result.0, result.1.now) ≡ digits_on first s.now }
    ensures shorter { length result.1.now ≤ length s.now }
{
    let mut value = first;
    let mut rest = s;
    while let Some((c, tail)) = rest.split_first()
        && c.is_ascii_digit()
    {
        value = with_digit(value, *c);
        rest = tail;
    }
    (value, rest)
}

// The number that s begins with, and what follows it.
pub fn number(s: &[u8]) -> Option<(u32, &[u8])>
    ensures value { number_told result ≡ number s.now }
    ensures bounds { IfSome result (λ p. (p.0 ≤ latest_end) × (length p.1.now < length s.now)) }
{
    let (c, tail) = s.split_first()?;
    if *c == b'0' {
        return Some((0, tail));
    }
    if !c.is_ascii_digit() {
        return None;
    }
    let (value, rest) = digits_on(u32::from(*c - b'0'), tail);
    if value > LATEST_END {
        return None;
    }
    Some((value, rest))
}
