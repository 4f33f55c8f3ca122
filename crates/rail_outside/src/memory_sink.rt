//! A sink in memory, which keeps its pieces and can be made to fail.

ghost use Rattle.std.specs.Prelude.{◌≡◌, ◌≤◌, ◌++◌, ◌∷◌, [], Some, OnOk, OnErr, Err, is_some};
ghost use Rattle.rail_outside.specs.Lines.{lines_of};
ghost use Rattle.rail_outside.specs.Putting.{PutHasCause, PutLeaves, PutFailsWhere, put_pieces};
ghost use Rattle.rail_outside.specs.declared.sink.SinkFault.TheVariants.{Memory};
ghost use Rattle.rail_outside.specs.MemorySinks.{written_to, pieces_of, failures_of, faults_in, next_failure};
ghost use Rattle.rail_outside.specs.MemorySinks.{put_bytes};

use crate::sink::{Sink, SinkFault};
use std::alloc::{AllocError, Global};

/// A call that is to fail, counted from 1, and how many bytes it writes before.
#[derive(Clone, Copy, Debug, PartialEq, Eq)]
pub struct Failure {
    pub call: u64,
    pub first: u64,
}

/// A sink in memory. Each call that it was made to fail is a fault.
#[derive(Drop)]
pub struct MemorySink {
    bytes: Vec<u8>,
    pieces: Vec<Vec<u8>>,
    failures: Vec<Failure>,
    faults: u64,
}

impl MemorySink {
    /// A sink to which nothing is written, and of which no call is to fail.
    pub fn new(alloc: Global) -> Self
        ensures written { written_to result ≡ [] }
        ensures pieces { pieces_of result ≡ [] }
        ensures failures { failures_of result ≡ [] }
        ensures faults { faults_in result ≡ 0 }
    {
        MemorySink {
            bytes: Vec::new(alloc),
            pieces: Vec::new(alloc),
            failures: Vec::new(alloc),
            faults: 0,
        }
    }

    /// Lets a call fail, counted from 1, after `first` bytes of its piece, or all where it has fewer.
    ///
    /// `Err` leaves the sink as it was. Of two that name one call the first counts.
    pub fn fail_at(&mut self, call: u64, first: u64) -> Result<(), AllocError>
        ensures ok { OnOk result (failures_of self.new
            ≡ failures_of self.old ++ record { call = call; first = first } ∷ []) }
        ensures err { OnErr result (failures_of self.new ≡ failures_of self.old) }
        ensures written { written_to self.new ≡ written_to self.old }
        ensures pieces { pieces_of self.new ≡ pieces_of self.old }
        ensures faults { faults_in self.new ≡ faults_in self.old }
    {
        self.failures.push(Failure { call, first })?;
        Ok(())
    }

    /// The bytes so far.
    pub fn bytes(&self) -> &[u8]
        ensures { result.now ≡ written_to self.now }
    {
        self.bytes.as_slice()
    }

    /// The pieces of the calls so far. A call that answered want of memory has none.
    pub fn pieces(&self) -> &[Vec<u8>]
        ensures { lines_of result.now ≡ pieces_of self.now }
    {
        self.pieces.as_slice()
    }

    /// The failure of the next call, where it is to fail.
    fn next_failure(&self) -> Option<Failure>
        ensures { result ≡ next_failure self.now }
    {
        let next = self.pieces.len() as u64 + 1;
        self.failures
            .iter()
            .copied()
            .find(|failure| failure.call == next)
    }
}

/// Appends bytes, and a copy of a piece. `Err` leaves both as they were.
fn append(
    bytes: &mut Vec<u8>,
    pieces: &mut Vec<Vec<u8>>,
    out: &[u8],
    piece: &[u8],
) -> Result<(), AllocError>
    ensures bytes_ok { OnOk result (bytes.new.items ≡ bytes.old.items ++ out.now) }
    ensures pieces_ok { OnOk result (lines_of pieces.new.items ≡ lines_of pieces.old.items ++ piece.now ∷ []) }
    ensures bytes_err { OnErr result (bytes.new.items ≡ bytes.old.items) }
    ensures pieces_err { OnErr result (pieces.new.items ≡ pieces.old.items) }
{
    let copy = Vec::from_slice(*bytes.allocator(), piece)?;
    pieces.reserve(1)?;
    bytes.extend_from_slice(out)?;
    pieces.push(copy).unwrap();
    Ok(())
}

impl Sink for MemorySink {
    ghost written = { λ sink. Some (written_to sink) };

    ghost puts = { λ sink. Some (pieces_of sink) };

    ghost fault_count = { λ sink. faults_in sink };

    fn put(&mut self, bytes: &[u8]) -> Result<(), SinkFault>
        ensures leaves { PutLeaves result (Some (written_to self.old)) (Some (written_to self.new)) bytes.now }
        ensures written { written_to self.new
            ≡ written_to self.old ++ put_bytes (next_failure self.old) result bytes.now }
        ensures fails { PutFailsWhere result (is_some (next_failure self.old)) }
        ensures cause { PutHasCause result (faults_in self.old) (faults_in self.new) }
        ensures never_falls { faults_in self.old ≤ faults_in self.new }
        ensures memory { result ≡ Err Memory → faults_in self.new ≡ faults_in self.old }
        ensures failures_stay { failures_of self.new ≡ failures_of self.old }
        ensures pieces { pieces_of self.new ≡ pieces_of self.old ++ put_pieces result bytes.now }
    {
        let Some(failure) = self.next_failure() else {
            append(&mut self.bytes, &mut self.pieces, bytes, bytes)?;
            return Ok(());
        };
        let count = failure.first.min(bytes.len() as u64) as usize;
        append(&mut self.bytes, &mut self.pieces, &bytes[..count], bytes)?;
        self.faults = self.faults.saturating_add(1);
        Err(SinkFault::Failed)
    }

    fn faults(&self) -> u64 {
        self.faults
    }
}
