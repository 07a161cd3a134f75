//! The command line.

use pt_tags::Memory;
use std::env;
use std::io::ErrorKind;

/// The words of the command line after the program's name. If one is not text, there are none.
pub fn words(rt: &HostRuntime) -> Result<Vec<String>, Memory> {
    let alloc = rt.alloc();
    let arguments = match env::args(rt) {
        Ok(arguments) => arguments,
        Err(error) => match error.kind() {
            ErrorKind::OutOfMemory => return Err(Memory),
            _ => return Ok(Vec::new(alloc)),
        },
    };
    Ok(arguments.skip(1).collect::<Vec<String>>(alloc)?)
}
