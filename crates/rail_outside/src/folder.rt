//! Files in memory.

ghost use Rattle.std.specs.Prelude.{◌≡◌, false, true, OnOk, OnErr, MatchOption};
ghost use Rattle.std.specs.Option.{option_copied};
ghost use Rattle.rail_outside.specs.Files.{no_files, updated};
ghost use Rattle.rail_outside.specs.Fetching.{FetchGives, FetchFits, FetchFailsWhere};
ghost use Rattle.rail_outside.specs.Folders.{all_but, contents_of, first_named, lacks, no_name};

use crate::shelf::FetchFault;
use std::alloc::{AllocError, Global};

/// A file in memory.
#[derive(Drop)]
pub(crate) struct File {
    name: String,
    bytes: Vec<u8>,
}

/// Files in memory, of one name the newest first.
#[derive(Drop)]
pub(crate) struct Folder {
    alloc: Global,
    files: Vec<File>,
}

impl Folder {
    /// A folder with no file.
    pub(crate) fn new(alloc: Global) -> Self
        ensures contents { contents_of result ≡ no_files }
        ensures lacks { lacks result ≡ no_name }
    {
        Folder {
            alloc,
            files: Vec::new(alloc),
        }
    }

    /// The bytes under a name, where a file has it.
    pub(crate) fn find(&self, name: &str) -> Option<&[u8]>
        ensures { MatchOption result (lacks self.now name.now ≡ true) (λ bytes.
            (lacks self.now name.now ≡ false) × (bytes.now ≡ contents_of self.now name.now)) }
    {
        match first_named(self.files.as_slice(), name) {
            Some(file) => Some(file.bytes.as_slice()),
            None => None,
        }
    }

    /// The bytes under a name; where no file has it, no bytes.
    pub(crate) fn bytes_of(&self, name: &str) -> &[u8]
        ensures { result.now ≡ contents_of self.now name.now }
    {
        match self.find(name) {
            Some(bytes) => bytes,
            None => &[],
        }
    }

    /// Puts these bytes under a name. `Err` leaves the folder as it was.
    pub(crate) fn put(&mut self, name: &str, bytes: &[u8]) -> Result<(), AllocError>
        ensures ok { OnOk result (contents_of self.new ≡ updated (contents_of self.old) name.now bytes.now) }
        ensures err { OnErr result (contents_of self.new ≡ contents_of self.old) }
        ensures there { OnOk result (lacks self.new ≡ all_but (lacks self.old) name.now) }
        ensures not_there { OnErr result (lacks self.new ≡ lacks self.old) }
    {
        let file = File {
            name: String::from_str(self.alloc, name)?,
            bytes: Vec::from_slice(self.alloc, bytes)?,
        };
        self.files.insert(0, file)?;
        Ok(())
    }
}

/// A copy of the bytes, where they are at most `limit`.
pub(crate) fn copy_bytes(alloc: Global, bytes: &[u8], limit: u64) -> Result<Vec<u8>, FetchFault>
    ensures gives { FetchGives result bytes.now limit }
    ensures fits { FetchFits result limit }
    ensures never_fails { FetchFailsWhere result false }
{
    if limit < bytes.len() as u64 {
        return Err(FetchFault::TooLong { read: limit + 1 });
    }
    Ok(Vec::from_slice(alloc, bytes)?)
}

/// The first file of a name.
fn first_named<'a>(files: &'a [File], name: &str) -> Option<&'a File>
    ensures { option_copied result ≡ first_named files.now name.now }
{
    files.iter().find(|file| file.name.as_str() == name)
}
