// Reads an input and prints what `job_text` says of it. Contracts cannot speak of what is read or written, so `main` does nothing else.
// A read or a write that fails ends it with an error.
// The programs have a `main` each: one over the buffer's size and what fills it needs a contract longer than these five lines.
#![tactic(auto)]

use input::read_full;
use job_text::limits::{INPUT_BYTES, TEXT_BYTES};
use job_text::put_printed;
use std::io;

fn main(rt: HostRuntime) -> io::Result<()> {
    let mut input = [0u8; INPUT_BYTES];
    let mut text = [0u8; TEXT_BYTES];
    let size = read_full(&mut rt.stdin(), &mut input)?;
    let length = put_printed(&input[..size], &mut text);
    rt.write_all(&text[..length])
}
