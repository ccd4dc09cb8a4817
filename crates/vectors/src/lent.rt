// The bytes of a lent buffer. None is zero, so that a byte set to zero shows.

// The longest buffer that is lent.
pub const LONGEST: usize = 65536;

// The first remainder changes no index of a buffer. With it the compiler knows that 16 bits hold one, and vectorises `fill`.
fn lent(i: usize) -> u8 {
    (i % LONGEST % 251 + 1) as u8
}

pub fn fill(buffer: &mut [u8]) {
    for (i, byte) in buffer.iter_mut().enumerate() {
        *byte = lent(i);
    }
}

// The byte that is due at an index: one of those written, and after them what was lent.
fn due_at(due: &[u8], i: usize) -> u8 {
    if i < due.len() { due[i] } else { lent(i) }
}

pub fn holds(buffer: &[u8], due: &[u8]) -> bool {
    buffer
        .iter()
        .enumerate()
        .all(|(i, byte)| *byte == due_at(due, i))
}

pub fn is_zero(buffer: &[u8]) -> bool {
    buffer.iter().all(|byte| *byte == 0)
}
