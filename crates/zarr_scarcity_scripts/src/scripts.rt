//! Which script a program runs, and what it says of it.

use crate::stop::Stop;
use std::io::{Read, Write};
use std::process::ExitCode;

/// Reads the script's letter, or 0 where there is none. It takes no memory.
pub fn read_letter<R: Read>(reader: &mut R) -> u8 {
    let mut buffer = [0u8; 1];
    match reader.read(&mut buffer) {
        Ok(_) => buffer[0],
        Err(_) => 0,
    }
}

/// Writes what came of a script that was run once more where memory ran out in it: `as stated`
/// where it came to its end.
pub fn tell<W: Write>(writer: &mut W, came: Result<(), Stop>) -> ExitCode {
    let said = match came {
        Ok(()) => "as stated",
        Err(Stop::Short) => "memory ran out twice",
        Err(Stop::Other) => "another answer",
    };
    let _ = writeln!(writer, "{said}");
    ExitCode::SUCCESS
}
