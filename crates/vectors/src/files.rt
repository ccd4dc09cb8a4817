// Files of recorded answers.
ghost use Rattle.std.specs.Io.{ReadsAtMost};

use std::rt::Files;
use std::{fs, io};

// Reads a file to the start of a buffer, and gives how many bytes it read: none where there is no such file, which it says.
pub fn load(rt: &(impl Files + Eprint), name: &str, bytes: &mut [u8]) -> io::Result<usize>
    ensures { ReadsAtMost result bytes.new }
{
    match fs::open(rt, name) {
        Ok(mut file) => input::read_full(&mut file, bytes),
        Err(error) => {
            eprintln!(rt; "{name}: {error}")?;
            Ok(0)
        }
    }
}
