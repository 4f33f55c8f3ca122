//! A recorder over another one, which stops at chosen calls.

ghost use Rattle.std.specs.Prelude.{◌≡◌, ◌+◌, ◌++◌, true, false, IfOk, IfErr, OnOk, OnErr, Err};
ghost use Rattle.std.specs.Prelude.{length};
ghost use Rattle.sat_clause.specs.Hints.{is_assigned};
ghost use Rattle.sat_trail.specs.Attached.{is_among};
ghost use Rattle.sat_trail.specs.Standing.{IsIncreasing};
ghost use Rattle.sat_core.specs.Faults.{IsFaultAt};
ghost use Rattle.sat_core.specs.Texts.{added_line, derive_line, forget_line, has_room, has_room_for};
ghost use Rattle.sat_core.specs.declared.recorder.RecordFault.TheVariants.{Memory};
ghost use Rattle.halting.specs.Calls.{next_call};

use sat_clause::Lit;
use sat_core::{RecordFault, Recorder};
use std::alloc::{AllocError, Global};

/// A recorder that hands its calls on to another one, but wants memory at chosen calls of `added`, `derived` and
/// `forgot`.
///
/// These three are counted together, from 1 on, and a call at which it stops is counted too. At such a call the lines
/// and the count stay as they are.
#[derive(Drop)]
pub struct Halting<R: Recorder> {
    inner: R,
    stops: Vec<u64>,
    calls: u64,
}

impl<R: Recorder> Halting<R> {
    /// A recorder over another one that stops at the calls of these numbers.
    ///
    /// # Errors
    ///
    /// Want of memory; the other recorder is dropped.
    pub fn new(alloc: Global, inner: R, stops: &[u64]) -> Result<Halting<R>, AllocError>
        ensures inner { IfOk result (λ h. h.inner ≡ inner) }
        ensures stops { IfOk result (λ h. h.stops.items ≡ stops.now) }
        ensures calls { IfOk result (λ h. h.calls ≡ 0) }
    {
        let stops = Vec::from_slice(alloc, stops)?;
        Ok(Halting {
            inner,
            stops,
            calls: 0,
        })
    }

    /// How many calls there were.
    pub fn calls(&self) -> u64
        ensures { result ≡ self.now.calls }
    {
        self.calls
    }

    /// The other recorder, as it stands.
    pub fn into_inner(self) -> R
        ensures { result ≡ self.inner }
    {
        let Halting { inner, .. } = self;
        inner
    }

    /// Counts a call, and gives whether it is one at which to stop.
    fn stops_now(&mut self) -> bool
        ensures stops { result ≡ is_among self.old.stops.items (next_call self.old.calls) }
        ensures calls { self.new.calls ≡ next_call self.old.calls }
        ensures inner { self.new.inner ≡ self.old.inner }
        ensures list { self.new.stops ≡ self.old.stops }
    {
        if self.calls < u64::MAX {
            self.calls += 1;
        }
        self.stops.as_slice().contains(&self.calls)
    }
}

impl<R: Recorder> Recorder for Halting<R> {
    ghost limit = { λ h. R.limit h.inner };

    ghost count = { λ h. R.count h.inner };

    ghost text = { λ h. R.text h.inner };

    fn add(&mut self, line: &[u8]) -> Result<(), RecordFault> {
        if self.stops_now() {
            return Err(RecordFault::Memory);
        }
        self.inner.add(line)
    }

    fn skip(&mut self, clauses: u64) -> Result<(), AllocError> {
        self.inner.skip(clauses)
    }

    fn derive(&mut self, clause: &[Lit], hints: &[u64]) -> Result<(), RecordFault> {
        if self.stops_now() {
            return Err(RecordFault::Memory);
        }
        self.inner.derive(clause, hints)
    }

    fn forget(&mut self, id: u64) -> Result<(), RecordFault> {
        if self.stops_now() {
            return Err(RecordFault::Memory);
        }
        self.inner.forget(id)
    }

    fn room(&self, next: u64) -> bool {
        self.inner.room(next)
    }
}
