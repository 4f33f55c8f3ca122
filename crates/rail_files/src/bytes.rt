//! All bytes of a reader, and all bytes to a writer.

ghost use Rattle.rail_outside.specs.Fetching.{FetchFits};

use rail_outside::FetchFault;
use std::alloc::Global;
use std::io;
use std::io::{ErrorKind, Read, Write};

/// How many bytes one read asks for at most.
const CHUNK: usize = 4096;

/// The bytes that a reader has left, where they are at most `limit`. No more than `limit + 1` are read.
///
/// A read that gives nothing is the end.
pub(crate) fn read_within<F: Read>(
    alloc: Global,
    reader: &mut F,
    limit: u64,
) -> Result<Vec<u8>, FetchFault>
    ensures fits { FetchFits result limit }
{
    let mut bytes = Vec::new(alloc);
    let mut chunk = [0u8; CHUNK];
    loop {
        let left = limit - bytes.len() as u64;
        let asked = left.clamp(1, CHUNK as u64) as usize;
        let Ok(count) = reader.read(&mut chunk[..asked]) else {
            return Err(FetchFault::Failed);
        };
        if count == 0 {
            return Ok(bytes);
        }
        if count as u64 > left {
            return Err(FetchFault::TooLong { read: limit + 1 });
        }
        bytes.extend_from_slice(&chunk[..count])?;
    }
}

/// Writes all of the bytes. A write that takes nothing is an error.
pub(crate) fn write_whole<W: Write>(out: &mut W, bytes: &[u8]) -> io::Result<()> {
    let mut done = 0;
    while done < bytes.len() {
        let count = out.write(&bytes[done..])?;
        if count == 0 {
            return Err(io::Error::from(ErrorKind::WriteZero));
        }
        done += count;
    }
    out.flush()
}
