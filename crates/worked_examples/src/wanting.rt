//! A shelf and a sink in memory for which memory is wanting at one call.

ghost use Rattle.std.specs.Prelude.{None};
ghost use Rattle.rail_outside.specs.MemoryShelves.{faults_of};
ghost use Rattle.rail_outside.specs.MemorySinks.{faults_in};

use rail_outside::{FetchFault, MemoryShelf, MemorySink, Shelf, Sink, SinkFault, StoreFault};
use std::alloc::Global;

/// A shelf in memory, which may want memory at one of its calls, or find a file there longer than it may read. It says
/// nothing.
#[derive(Drop)]
pub struct WantingShelf {
    shelf: MemoryShelf,
    calls: u64,
    wanting: Option<u64>,
    long: Option<u64>,
}

impl WantingShelf {
    /// A shelf that wants memory at one call and finds a long file at another, each counted from 1.
    pub fn new(shelf: MemoryShelf, wanting: Option<u64>, long: Option<u64>) -> Self {
        WantingShelf {
            shelf,
            calls: 0,
            wanting,
            long,
        }
    }

    /// The shelf in memory.
    pub fn shelf(&self) -> &MemoryShelf {
        &self.shelf
    }
}

impl Shelf for WantingShelf {
    ghost known_files = { λ _. None };

    ghost asked = { λ _. None };

    ghost fault_count = { λ wanting. faults_of wanting.shelf };

    fn fetch(&mut self, alloc: Global, name: &str, limit: u64) -> Result<Vec<u8>, FetchFault> {
        self.calls = self.calls.saturating_add(1);
        if self.wanting == Some(self.calls) {
            return Err(FetchFault::Memory);
        }
        if self.long == Some(self.calls) && limit < u64::MAX {
            return Err(FetchFault::TooLong { read: limit + 1 });
        }
        self.shelf.fetch(alloc, name, limit)
    }

    fn store(&mut self, name: &str, bytes: &[u8]) -> Result<(), StoreFault> {
        self.calls = self.calls.saturating_add(1);
        if self.wanting == Some(self.calls) {
            return Err(StoreFault::Memory);
        }
        self.shelf.store(name, bytes)
    }

    fn faults(&self) -> u64 {
        self.shelf.faults()
    }
}

/// A sink in memory, which may want memory at one of its puts. It says nothing.
#[derive(Drop)]
pub struct WantingSink {
    sink: MemorySink,
    puts: u64,
    wanting: Option<u64>,
}

impl WantingSink {
    /// A sink that wants memory at a put, counted from 1.
    pub fn new(sink: MemorySink, wanting: Option<u64>) -> Self {
        WantingSink {
            sink,
            puts: 0,
            wanting,
        }
    }

    /// The bytes that were put.
    pub fn bytes(&self) -> &[u8] {
        self.sink.bytes()
    }
}

impl Sink for WantingSink {
    ghost written = { λ _. None };

    ghost puts = { λ _. None };

    ghost fault_count = { λ wanting. faults_in wanting.sink };

    fn put(&mut self, bytes: &[u8]) -> Result<(), SinkFault> {
        self.puts = self.puts.saturating_add(1);
        if self.wanting == Some(self.puts) {
            return Err(SinkFault::Memory);
        }
        self.sink.put(bytes)
    }

    fn faults(&self) -> u64 {
        self.sink.faults()
    }
}
