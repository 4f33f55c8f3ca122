//! Files by their names.

ghost use Rattle.std.specs.Prelude.{◌≡◌, ◌≤◌, ℕ, List, Option, IfSome};
ghost use Rattle.rail_outside.specs.Growth.{grown};
ghost use Rattle.rail_outside.specs.Files.{Files};
ghost use Rattle.rail_outside.specs.Fetching.{FetchGives, FetchFits, FetchHasCause};
ghost use Rattle.rail_outside.specs.Storing.{StoreLeaves, StoreHasCause};
ghost use Rattle.rail_outside.specs.Asks.{Ask, fetch_asks, store_asks};
ghost use Rattle.rail_outside.specs.declared.shelf.FetchFault.TheVariants as fetch;
ghost use Rattle.rail_outside.specs.declared.shelf.StoreFault.TheVariants as store;

use std::alloc::{AllocError, Global};
use thiserror::Error;

/// Why a file was not fetched.
#[derive(Clone, Copy, Debug, PartialEq, Eq, Error)]
pub enum FetchFault {
    /// The shelf failed, and its count of faults has risen.
    #[error("the file could not be read")]
    Failed,
    /// The file has more bytes than the limit; as many as were read, one more than the limit.
    #[error("the file is too long: {read} bytes were read")]
    TooLong { read: u64 },
    /// Want of memory.
    #[error("want of memory")]
    Memory,
}

/// Why a file was not stored.
#[derive(Clone, Copy, Debug, PartialEq, Eq, Error)]
pub enum StoreFault {
    /// The shelf failed, and its count of faults has risen.
    #[error("the file could not be written")]
    Failed,
    /// Want of memory; nothing has changed.
    #[error("want of memory")]
    Memory,
}

impl From<AllocError> for FetchFault {
    ghost from_gives = { λ _ fault. fault ≡ fetch.Memory };

    fn from(_error: AllocError) -> FetchFault {
        FetchFault::Memory
    }
}

impl From<AllocError> for StoreFault {
    ghost from_gives = { λ _ fault. fault ≡ store.Memory };

    fn from(_error: AllocError) -> StoreFault {
        StoreFault::Memory
    }
}

/// A place that holds files under names.
pub trait Shelf {
    /// The bytes under each name, where they are known. A name that is not there has no bytes.
    ghost known_files: { Self → Option Files };

    /// The calls so far in order, where they are known.
    ghost asked: { Self → Option (List Ask) };

    /// How often the shelf has failed.
    ghost fault_count: { Self → ℕ };

    /// The bytes under a name, where they are at most `limit`.
    ///
    /// `Err` leaves the files as they were, as `Ok` does.
    fn fetch(&mut self, alloc: Global, name: &str, limit: u64) -> Result<Vec<u8>, FetchFault>
        ensures gives { IfSome (known_files self.old) (λ files. FetchGives result (files name.now) limit) }
        ensures fits { FetchFits result limit }
        ensures cause { FetchHasCause result (fault_count self.old) (fault_count self.new) }
        ensures never_falls { fault_count self.old ≤ fault_count self.new }
        ensures files_stay { known_files self.new ≡ known_files self.old }
        ensures asks { asked self.new ≡ grown (asked self.old) (fetch_asks result name.now) };

    /// Puts these bytes under a name, in place of what was there.
    ///
    /// `Failed` says nothing of that name, and leaves all others as they were. `Memory` leaves all as it was.
    fn store(&mut self, name: &str, bytes: &[u8]) -> Result<(), StoreFault>
        ensures leaves { StoreLeaves result (known_files self.old) (known_files self.new) name.now bytes.now }
        ensures cause { StoreHasCause result (fault_count self.old) (fault_count self.new) }
        ensures never_falls { fault_count self.old ≤ fault_count self.new }
        ensures asks { asked self.new ≡ grown (asked self.old) (store_asks result name.now) };

    /// How often the shelf has failed, up to the greatest `u64`.
    fn faults(&self) -> u64
        ensures { result ≡ fault_count self.now };
}
