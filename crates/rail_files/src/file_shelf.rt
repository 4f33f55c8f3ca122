//! A shelf over real files.

ghost use Rattle.std.specs.Prelude.{◌≡◌, None};
ghost use Rattle.rail_outside.specs.Fetching.{FetchFits};

use crate::bytes::{read_within, write_whole};
use rail_outside::{FetchFault, Shelf, StoreFault};
use std::alloc::{AllocError, Global};
use std::fs::{OpenFile, OpenOptions};
use std::io::{ErrorKind, Write};
use std::rt::Files;
use std::{fs, io};

/// How many names a part may have.
const PARTS: u32 = 100;

/// A shelf over the files of a runtime, of whose content nothing is known. Each call that fails raises the count.
///
/// A store of `NAME` writes a new file, `NAME.rcv-part`, and where there is one already `NAME.rcv-part2` and so on up
/// to
/// `NAME.rcv-part100`; it then takes the place of `NAME`. Where all of these names are taken the store fails. No file
/// but
/// `NAME` and the part that the store itself made is ever replaced or removed. If the machine stops in the middle,
/// `NAME` has its old bytes or all of the new ones, and the part may be left, which no later store takes away.
#[derive(Drop)]
pub struct FileShelf<R: Files + Drop> {
    alloc: Global,
    files: R,
    faults: u64,
}

impl<R: Files + Drop> FileShelf<R> {
    /// A shelf that has not failed yet.
    pub fn new(alloc: Global, files: R) -> Self
        ensures { ⟦<FileShelf<R> as Shelf>⟧.fault_count result ≡ 0 }
    {
        FileShelf {
            alloc,
            files,
            faults: 0,
        }
    }
}

/// The bytes of a file, where they are at most `limit`. A file that can't be opened or read is a fault.
fn read_file(
    alloc: Global,
    files: &impl Files,
    name: &str,
    limit: u64,
) -> Result<Vec<u8>, FetchFault>
    ensures fits { FetchFits result limit }
{
    match fs::open(files, name) {
        Ok(mut file) => read_within(alloc, &mut file, limit),
        Err(_) => Err(FetchFault::Failed),
    }
}

/// Whether a name is free or a plain file has it: no folder, no device and no link.
fn may_hold(files: &impl Files, name: &str) -> bool {
    match fs::symlink_metadata(files, name) {
        Ok(found) => found.is_file(),
        Err(error) => error.kind() == ErrorKind::NotFound,
    }
}

fn write_part(file: &mut (impl Write + OpenFile), bytes: &[u8]) -> io::Result<()> {
    write_whole(file, bytes)?;
    file.sync_all()
}

/// How it went to write a file by way of a part.
enum Attempt {
    Written,
    /// The part's name is taken; nothing was written.
    Taken,
    Failed,
}

/// The name of a part: `.rcv-part` after the name, and from the second part on its number.
fn part_name(alloc: Global, name: &str, number: u32) -> Result<String, AllocError> {
    if number == 1 {
        format!(in alloc; "{name}.rcv-part")
    } else {
        format!(in alloc; "{name}.rcv-part{number}")
    }
}

/// Writes the bytes to a new file `part`, which then takes the name.
///
/// `Failed` leaves the name as it was, and takes the part away if it was made here.
fn write_by_part(files: &impl Files, part: &str, name: &str, bytes: &[u8]) -> Attempt {
    let mut file = match OpenOptions::new()
        .write(true)
        .create_new(true)
        .open(files, part)
    {
        Ok(file) => file,
        Err(error) if error.kind() == ErrorKind::AlreadyExists => return Attempt::Taken,
        Err(_) => return Attempt::Failed,
    };
    if write_part(&mut file, bytes).is_ok() && fs::rename(files, part, name).is_ok() {
        return Attempt::Written;
    }
    let _ = fs::remove_file(files, part);
    Attempt::Failed
}

/// Writes the bytes under a name, by way of the first part whose name is free, and gives whether that was done.
///
/// `false` and want of memory leave the name as it was.
fn write_file(
    alloc: Global,
    files: &impl Files,
    name: &str,
    bytes: &[u8],
) -> Result<bool, AllocError> {
    for number in 1..=PARTS {
        let part = part_name(alloc, name, number)?;
        match write_by_part(files, part.as_str(), name, bytes) {
            Attempt::Written => return Ok(true),
            Attempt::Taken => {}
            Attempt::Failed => return Ok(false),
        }
    }
    Ok(false)
}

impl<R: Files + Drop> Shelf for FileShelf<R> {
    ghost known_files = { λ _. None };

    ghost asked = { λ _. None };

    ghost fault_count = { λ shelf. shelf.faults };

    fn fetch(&mut self, alloc: Global, name: &str, limit: u64) -> Result<Vec<u8>, FetchFault> {
        let result = read_file(alloc, &self.files, name, limit);
        if let Err(FetchFault::Failed) = result {
            self.faults = self.faults.saturating_add(1);
        }
        result
    }

    fn store(&mut self, name: &str, bytes: &[u8]) -> Result<(), StoreFault> {
        if may_hold(&self.files, name) && write_file(self.alloc, &self.files, name, bytes)? {
            return Ok(());
        }
        self.faults = self.faults.saturating_add(1);
        Err(StoreFault::Failed)
    }

    fn faults(&self) -> u64 {
        self.faults
    }
}
