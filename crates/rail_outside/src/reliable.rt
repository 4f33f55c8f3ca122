//! A shelf and a sink that never fail.

ghost use Rattle.std.specs.Prelude.{◌≡◌, [], Some, None, OnOk, OnErr};
ghost use Rattle.rail_outside.specs.Files.{no_files, updated};
ghost use Rattle.rail_outside.specs.Reliable.{files_on, bytes_in};

use crate::folder::{Folder, copy_bytes};
use crate::shelf::{FetchFault, Shelf, StoreFault};
use crate::sink::{Sink, SinkFault};
use std::alloc::{AllocError, Global};

/// A shelf in memory that never fails. A missing name is the empty file.
#[derive(Drop)]
pub struct ReliableShelf {
    folder: Folder,
}

impl ReliableShelf {
    /// A shelf with no file.
    pub fn new(alloc: Global) -> Self
        ensures { files_on result ≡ no_files }
    {
        ReliableShelf {
            folder: Folder::new(alloc),
        }
    }

    /// Puts a file on the shelf. `Err` leaves the shelf as it was.
    pub fn add_file(&mut self, name: &str, bytes: &[u8]) -> Result<(), AllocError>
        ensures ok { OnOk result (files_on self.new ≡ updated (files_on self.old) name.now bytes.now) }
        ensures err { OnErr result (files_on self.new ≡ files_on self.old) }
    {
        self.folder.put(name, bytes)
    }

    /// The bytes under a name.
    pub fn file(&self, name: &str) -> &[u8]
        ensures { result.now ≡ files_on self.now name.now }
    {
        self.folder.bytes_of(name)
    }
}

impl Shelf for ReliableShelf {
    ghost known_files = { λ shelf. Some (files_on shelf) };

    ghost asked = { λ _. None };

    ghost fault_count = { λ _. 0 };

    fn fetch(&mut self, alloc: Global, name: &str, limit: u64) -> Result<Vec<u8>, FetchFault> {
        copy_bytes(alloc, self.folder.bytes_of(name), limit)
    }

    fn store(&mut self, name: &str, bytes: &[u8]) -> Result<(), StoreFault> {
        self.folder.put(name, bytes)?;
        Ok(())
    }

    fn faults(&self) -> u64 {
        0
    }
}

/// A sink in memory that never fails.
#[derive(Drop)]
pub struct ReliableSink {
    bytes: Vec<u8>,
}

impl ReliableSink {
    /// A sink to which nothing is written.
    pub fn new(alloc: Global) -> Self
        ensures { bytes_in result ≡ [] }
    {
        ReliableSink {
            bytes: Vec::new(alloc),
        }
    }

    /// The bytes so far.
    pub fn bytes(&self) -> &[u8]
        ensures { result.now ≡ bytes_in self.now }
    {
        self.bytes.as_slice()
    }
}

impl Sink for ReliableSink {
    ghost written = { λ sink. Some (bytes_in sink) };

    ghost puts = { λ _. None };

    ghost fault_count = { λ _. 0 };

    fn put(&mut self, bytes: &[u8]) -> Result<(), SinkFault> {
        self.bytes.extend_from_slice(bytes)?;
        Ok(())
    }

    fn faults(&self) -> u64 {
        0
    }
}
