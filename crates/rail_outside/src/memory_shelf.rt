//! A shelf in memory, which keeps its calls and can be made to fail.

ghost use Rattle.std.specs.Prelude.{◌≡◌, ◌≤◌, ◌++◌, ◌∷◌, ◌||◌, [], Some, OnOk, OnErr, Err, MatchOption, true, false};
ghost use Rattle.std.specs.Prelude.{map};
ghost use Rattle.rail_outside.specs.Files.{no_files, updated};
ghost use Rattle.rail_outside.specs.Asks.{fetch_asks, store_asks};
ghost use Rattle.rail_outside.specs.Fetching.{FetchGives, FetchFits, FetchHasCause, FetchFailsWhere};
ghost use Rattle.rail_outside.specs.Storing.{StoreLeaves, StoreHasCause, StoreFailsWhere};
ghost use Rattle.rail_outside.specs.Folders.{all_but, no_name};
ghost use Rattle.rail_outside.specs.declared.shelf.FetchFault.TheVariants as fetch;
ghost use Rattle.rail_outside.specs.declared.shelf.StoreFault.TheVariants as store;
ghost use Rattle.rail_outside.specs.MemoryShelves.{ask_of, known_files_by, asked_of, failing_calls, faults_of};
ghost use Rattle.rail_outside.specs.MemoryShelves.{fails_next};
ghost use Rattle.rail_outside.specs.MemoryShelves.{misses};

use crate::folder::{Folder, copy_bytes};
use crate::shelf::{FetchFault, Shelf, StoreFault};
use std::alloc::{AllocError, Global};

/// A call that was made, with the name that it was about.
#[derive(Debug, PartialEq, Eq, Drop)]
pub enum Call {
    Fetch(String),
    Store(String),
}

/// A shelf in memory. A missing name is a fault, and so is each call that it was made to fail.
#[derive(Drop)]
pub struct MemoryShelf {
    alloc: Global,
    folder: Folder,
    calls: Vec<Call>,
    failing: Vec<u64>,
    faults: u64,
}

impl MemoryShelf {
    /// A shelf with no file, of which nothing was asked and no call is to fail.
    pub fn new(alloc: Global) -> Self
        ensures known_files { known_files_by result ≡ no_files }
        ensures misses { misses result ≡ no_name }
        ensures asked { asked_of result ≡ [] }
        ensures failing { failing_calls result ≡ [] }
        ensures faults { faults_of result ≡ 0 }
    {
        MemoryShelf {
            alloc,
            folder: Folder::new(alloc),
            calls: Vec::new(alloc),
            failing: Vec::new(alloc),
            faults: 0,
        }
    }

    /// Puts a file on the shelf, which is no call. `Err` leaves the shelf as it was.
    pub fn add_file(&mut self, name: &str, bytes: &[u8]) -> Result<(), AllocError>
        ensures ok { OnOk result (known_files_by self.new ≡ updated (known_files_by self.old) name.now bytes.now) }
        ensures err { OnErr result (known_files_by self.new ≡ known_files_by self.old) }
        ensures there { OnOk result (misses self.new ≡ all_but (misses self.old) name.now) }
        ensures not_there { OnErr result (misses self.new ≡ misses self.old) }
        ensures asked { asked_of self.new ≡ asked_of self.old }
        ensures failing { failing_calls self.new ≡ failing_calls self.old }
        ensures faults { faults_of self.new ≡ faults_of self.old }
    {
        self.folder.put(name, bytes)
    }

    /// Lets a call fail, counted from 1. `Err` leaves the shelf as it was.
    pub fn fail_at(&mut self, call: u64) -> Result<(), AllocError>
        ensures ok { OnOk result (failing_calls self.new ≡ failing_calls self.old ++ call ∷ []) }
        ensures err { OnErr result (failing_calls self.new ≡ failing_calls self.old) }
        ensures known_files { known_files_by self.new ≡ known_files_by self.old }
        ensures misses { misses self.new ≡ misses self.old }
        ensures asked { asked_of self.new ≡ asked_of self.old }
        ensures faults { faults_of self.new ≡ faults_of self.old }
    {
        self.failing.push(call)?;
        Ok(())
    }

    /// The bytes under a name, where a file has it. This is no call.
    pub fn file(&self, name: &str) -> Option<&[u8]>
        ensures { MatchOption result (misses self.now name.now ≡ true) (λ bytes.
            (misses self.now name.now ≡ false) × (bytes.now ≡ known_files_by self.now name.now)) }
    {
        self.folder.find(name)
    }

    /// The calls so far in order. A call that answered want of memory is none of them.
    pub fn calls(&self) -> &[Call]
        ensures { map ask_of result.now ≡ asked_of self.now }
    {
        self.calls.as_slice()
    }

    /// Whether the next call is to fail.
    fn fails_next(&self) -> bool
        ensures { result ≡ fails_next self.now }
    {
        let next = self.calls.len() as u64 + 1;
        self.failing.iter().any(|call| *call == next)
    }

    /// What a fetch answers, before it is kept.
    fn answer(&self, alloc: Global, name: &str, limit: u64) -> Result<Vec<u8>, FetchFault>
        ensures gives { FetchGives result (known_files_by self.now name.now) limit }
        ensures fits { FetchFits result limit }
        ensures fails { FetchFailsWhere result (fails_next self.now || misses self.now name.now) }
    {
        if self.fails_next() {
            return Err(FetchFault::Failed);
        }
        match self.folder.find(name) {
            Some(bytes) => copy_bytes(alloc, bytes, limit),
            None => Err(FetchFault::Failed),
        }
    }
}

impl Shelf for MemoryShelf {
    ghost known_files = { λ shelf. Some (known_files_by shelf) };

    ghost asked = { λ shelf. Some (asked_of shelf) };

    ghost fault_count = { λ shelf. faults_of shelf };

    fn fetch(&mut self, alloc: Global, name: &str, limit: u64) -> Result<Vec<u8>, FetchFault>
        ensures gives { FetchGives result (known_files_by self.old name.now) limit }
        ensures fits { FetchFits result limit }
        ensures fails { FetchFailsWhere result (fails_next self.old || misses self.old name.now) }
        ensures cause { FetchHasCause result (faults_of self.old) (faults_of self.new) }
        ensures never_falls { faults_of self.old ≤ faults_of self.new }
        ensures memory { result ≡ Err fetch.Memory → faults_of self.new ≡ faults_of self.old }
        ensures files_stay { known_files_by self.new ≡ known_files_by self.old }
        ensures names_stay { misses self.new ≡ misses self.old }
        ensures failing_stay { failing_calls self.new ≡ failing_calls self.old }
        ensures asks { asked_of self.new ≡ asked_of self.old ++ fetch_asks result name.now }
    {
        let call = Call::Fetch(String::from_str(self.alloc, name)?);
        self.calls.reserve(1)?;
        let result = self.answer(alloc, name, limit);
        if let Err(FetchFault::Memory) = result {
            return result;
        }
        self.calls.push(call).unwrap();
        if let Err(FetchFault::Failed) = result {
            self.faults = self.faults.saturating_add(1);
        }
        result
    }

    fn store(&mut self, name: &str, bytes: &[u8]) -> Result<(), StoreFault>
        ensures leaves { StoreLeaves result (Some (known_files_by self.old))
            (Some (known_files_by self.new)) name.now bytes.now }
        ensures err { OnErr result (known_files_by self.new ≡ known_files_by self.old) }
        ensures there { OnOk result (misses self.new ≡ all_but (misses self.old) name.now) }
        ensures not_there { OnErr result (misses self.new ≡ misses self.old) }
        ensures memory { result ≡ Err store.Memory → faults_of self.new ≡ faults_of self.old }
        ensures fails { StoreFailsWhere result (fails_next self.old) }
        ensures cause { StoreHasCause result (faults_of self.old) (faults_of self.new) }
        ensures never_falls { faults_of self.old ≤ faults_of self.new }
        ensures failing_stay { failing_calls self.new ≡ failing_calls self.old }
        ensures asks { asked_of self.new ≡ asked_of self.old ++ store_asks result name.now }
    {
        let call = Call::Store(String::from_str(self.alloc, name)?);
        self.calls.reserve(1)?;
        if self.fails_next() {
            self.calls.push(call).unwrap();
            self.faults = self.faults.saturating_add(1);
            return Err(StoreFault::Failed);
        }
        self.folder.put(name, bytes)?;
        self.calls.push(call).unwrap();
        Ok(())
    }

    fn faults(&self) -> u64 {
        self.faults
    }
}
