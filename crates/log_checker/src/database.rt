//! The clauses that the lines of a file leave. Nothing is said of them after a line that was not taken.

ghost use Rattle.std.specs.Prelude.{◌≡◌, ◌∷◌, IfOk, OnOk, Ok, Err, None, is_some, true, List, ℕ};
ghost use Rattle.sat_clause.specs.Clauses.{live_clause, without};
ghost use Rattle.log_checker.specs.Verdict.{at_first, with_clause, is_derived, forgotten, by_evidence, derived_by};
ghost use Rattle.log_checker.specs.Verdict.{forgotten_by};
ghost use Rattle.log_checker.specs.declared.check_result.Reason.{Reason};
ghost use Rattle.log_checker.specs.declared.database.Fault.TheVariants.{Bad};
ghost use Rattle.log_checker.specs.Faults.{IfBad};

use crate::check_result::Reason;
use crate::refuter::{RefuteFault, Refuter};
use bound_spec::Evidence;
use rup_check::{Follow, Marks, follows};
use sat_clause::{Arena, Lit};
use std::alloc::{AllocError, Global};
use std::marker::Model;

/// Why a line wasn't taken.
#[derive(Clone, Copy)]
pub enum Fault {
    /// It is bad.
    Bad(Reason),
    /// Memory ran out.
    Memory,
}

/// Clauses, of each whether a line derived it, and what the last line shows.
#[derive(Drop)]
pub struct ClauseDatabase {
    clauses: Arena,
    derived: Vec<bool>,
    shown: Option<u32>,
}

impl Model for ClauseDatabase {
    ghost use Rattle.log_checker.specs.Verdict.{SoFar};

    ghost Value = { SoFar };

    ghost view = { λ h. record { store = h.clauses; derived = h.derived.items; shown = h.shown } };
}

impl ClauseDatabase {
    /// The clauses of a base, which no line derived.
    pub fn new(alloc: Global, base: Arena) -> Result<ClauseDatabase, AllocError>
        ensures { IfOk result (λ database. database ≡ at_first base) }
    {
        let mut derived = Vec::new(alloc);
        for _clause in 0..base.count() {
            derived.push(false)?;
        }
        Ok(ClauseDatabase {
            clauses: base,
            derived,
            shown: None,
        })
    }

    /// What the last line shows.
    pub fn shown_steps(&self) -> Option<u32>
        ensures { result ≡ self.now.shown }
    {
        self.shown
    }

    /// Puts a clause at the end that follows by its hints, and shows this.
    pub fn derive(
        &mut self,
        marks: &mut Marks,
        clause: &[Lit],
        hints: &[u64],
        shown: Option<u32>,
    ) -> Result<(), Fault>
        ensures ok { OnOk result (derived_by self.old clause.now hints.now shown ≡ Ok self.new) }
        ensures bad { IfBad result (λ reason. derived_by self.old clause.now hints.now shown ≡ Err reason) }
    {
        match follows(marks, &self.clauses, clause, hints) {
            Ok(Follow::Yes) => self.push(clause, true, shown),
            Ok(Follow::UnknownClause) => Err(Fault::Bad(Reason::UnknownClause)),
            Ok(Follow::NotUnit) => Err(Fault::Bad(Reason::HintNotUnit)),
            Ok(Follow::NoConflict) => Err(Fault::Bad(Reason::NoConflict)),
            Err(_) => Err(Fault::Memory),
        }
    }

    /// Puts the clause that a cone or a bound shows at the end.
    pub fn refute<R: Refuter>(
        &mut self,
        alloc: Global,
        refuter: &R,
        evidence: &Evidence,
    ) -> Result<(), Fault>
        ensures ok { OnOk result (by_evidence self.old (R.refute refuter.now evidence.now) ≡ Ok self.new) }
        ensures bad { IfBad result (λ reason. by_evidence self.old (R.refute refuter.now evidence.now) ≡ Err reason) }
    {
        match refuter.clause_of(alloc, evidence) {
            Ok(clause) => self.push(&clause, false, None),
            Err(RefuteFault::NotRefuted(fault)) => Err(Fault::Bad(Reason::NotRefuted(fault))),
            Err(RefuteFault::Memory) => Err(Fault::Memory),
        }
    }

    /// Takes derived clauses out, in order.
    pub fn forget(&mut self, ids: &[u64]) -> Result<(), Fault>
        ensures ok { OnOk result (forgotten_by self.old ids.now ≡ Ok self.new) }
        ensures bad { (reason : Reason) → result ≡ Err (Bad reason) → forgotten_by self.old ids.now ≡ Err reason }
    {
        for id in ids {
            if let Err(reason) = self.forget_one(*id) {
                return Err(Fault::Bad(reason));
            }
        }
        self.shown = None;
        Ok(())
    }

    /// Puts a clause at the end.
    fn push(&mut self, clause: &[Lit], derived: bool, shown: Option<u32>) -> Result<(), Fault>
        ensures ok { OnOk result (self.new ≡ with_clause self.old clause.now derived shown) }
        ensures fault { (reason : Reason) → result ≡ Err (Bad reason) → ⊥ }
    {
        if self.clauses.push(clause).is_err() || self.derived.push(derived).is_err() {
            return Err(Fault::Memory);
        }
        self.shown = shown;
        Ok(())
    }

    /// Whether a line derived the clause of this number.
    fn is_derived(&self, id: u64) -> bool
        ensures { result ≡ is_derived self.now.derived id }
    {
        if id == 0 || id > self.derived.len() as u64 {
            return false;
        }
        self.derived[id as usize - 1]
    }

    /// Takes a derived clause out.
    fn forget_one(&mut self, id: u64) -> Result<(), Reason>
        ensures ok { OnOk result ((is_some (live_clause self.old.store id) ≡ true)
            × (is_derived self.old.derived id ≡ true)
            × (self.new.store ≡ without self.old.store id)) }
        ensures derived { self.new.derived ≡ self.old.derived }
        ensures bad { (reason : Reason) → (more : List ℕ) → result ≡ Err reason
            → forgotten self.old.derived self.old.store (id ∷ more) ≡ Err reason }
    {
        if !self.clauses.live(id) {
            return Err(Reason::UnknownClause);
        }
        if !self.is_derived(id) {
            return Err(Reason::DropRefused);
        }
        self.clauses.forget(id);
        Ok(())
    }
}
