//! The words of a command line.

use std::alloc::AllocError;
use std::env;
use std::io::ErrorKind;

/// The words of the command line; none, which ask for nothing, where one of them is no text.
///
/// # Errors
///
/// Want of memory alone.
pub fn command_words(rt: &HostRuntime) -> Result<Vec<String>, AllocError> {
    let alloc = rt.alloc();
    match env::args(rt) {
        Ok(args) => args.collect(alloc),
        Err(error) if error.kind() == ErrorKind::OutOfMemory => Err(AllocError),
        Err(_) => Ok(Vec::new(alloc)),
    }
}
