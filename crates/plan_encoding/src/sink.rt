//! Clauses that are emitted one after another: counted first, and then kept.

ghost use Rattle.std.specs.Prelude.{◌≡◌, true, [], ◌∷◌, IfOk, OnOk, IfErr};
ghost use Rattle.plan_encoding.specs.Sinks.{Emitted, emitted, FaultSays};
ghost use Rattle.plan_encoding.specs.declared.sink.BaseFault.TheVariants.{Memory};

use sat_clause::{Arena, Lit};
use std::alloc::{AllocError, AllocFailed, Global};
use std::marker::Model;
use thiserror::Error;

/// The most literals that a base may have.
const MOST: u64 = 16_000_000;

/// Why a base is not made.
#[derive(Clone, Copy, Debug, PartialEq, Eq, Error)]
pub enum BaseFault {
    /// It has more than 16,000,000 literals. So many have the clauses up to the first that is too much.
    #[error("more than 16,000,000 literals")]
    TooLarge { literals: u64 },
    #[error("want of memory")]
    Memory,
}

impl From<AllocError> for BaseFault {
    ghost from_gives = { λ _ e. e ≡ Memory };

    fn from(_e: AllocError) -> BaseFault {
        BaseFault::Memory
    }
}

impl<T: Drop> From<AllocFailed<T>> for BaseFault {
    ghost from_gives = { λ _ e. e ≡ Memory };

    fn from(_e: AllocFailed<T>) -> BaseFault {
        BaseFault::Memory
    }
}

/// The clauses emitted so far: how many literals they have and, where they are to be kept, they themselves.
#[derive(Drop)]
pub struct ClauseSink {
    keep: bool,
    literals: u64,
    /// How many clauses were emitted, so that room for them can be made.
    count: u64,
    clauses: Arena,
}

impl Model for ClauseSink {
    ghost use Rattle.std.specs.Prelude.{◌≤◌};
    ghost use Rattle.plan_encoding.specs.Sinks.{SinkView};

    ghost Value = { SinkView };

    ghost view = { λ d. record { keep = d.keep; literals = d.literals; clauses = d.clauses } };

    ghost invariant = { λ d. d.literals ≤ 16000000 };
}

impl ClauseSink {
    ghost use Rattle.std.specs.Prelude.{◌≤◌};

    /// An empty sink, which only counts or also keeps.
    pub fn new(alloc: Global, keep: bool) -> ClauseSink
        ensures { result ≡ record { keep = keep; literals = 0; clauses = [] } }
    {
        ClauseSink {
            keep,
            literals: 0,
            count: 0,
            clauses: Arena::new(alloc),
        }
    }

    /// An empty sink that keeps clauses, with room for as many as were emitted in this one.
    pub fn with_room(&self, alloc: Global) -> Result<ClauseSink, AllocError>
        ensures { IfOk result (λ sink. sink ≡ record { keep = true; literals = 0; clauses = [] }) }
    {
        Ok(ClauseSink {
            keep: true,
            literals: 0,
            count: 0,
            clauses: Arena::with_room(alloc, self.count as usize, self.literals as usize)?,
        })
    }

    /// A sink that keeps clauses behind these, which have so many literals.
    pub fn behind(clauses: Arena, literals: u64) -> ClauseSink
        requires { literals ≤ 16000000 }
        ensures { result ≡ record { keep = true; literals = literals; clauses = clauses } }
    {
        ClauseSink {
            keep: true,
            literals,
            count: 0,
            clauses,
        }
    }

    /// How many literals they have.
    pub fn literals(&self) -> u64
        ensures { result ≡ self.now.literals }
    {
        self.literals
    }

    /// Emits one more clause, unless there are then too many literals.
    pub fn emit(&mut self, clause: &[Lit]) -> Result<(), BaseFault>
        ensures ok { OnOk result (emitted self.old (clause.now ∷ []) ≡ Emitted self.new) }
        ensures err { IfErr result (FaultSays (emitted self.old (clause.now ∷ []))) }
    {
        let literals = self.literals + clause.len() as u64;
        if literals > MOST {
            return Err(BaseFault::TooLarge { literals });
        }
        if self.keep {
            self.clauses.push(clause)?;
        }
        self.literals = literals;
        self.count = self.count.saturating_add(1);
        Ok(())
    }

    /// The clauses that were kept.
    pub fn into_clauses(self) -> Arena
        ensures { result ≡ self.clauses }
    {
        let ClauseSink { clauses, .. } = self;
        clauses
    }
}
