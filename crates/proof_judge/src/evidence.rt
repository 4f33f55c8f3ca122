//! The clauses of the cones and bounds of a design.

ghost use Rattle.std.specs.Prelude.{◌≡◌, IfOk, Ok, Err};
ghost use Rattle.bound_spec.specs.declared.Evidence.TheVariants as evidence;
ghost use Rattle.bound_spec.specs.declared.EvidenceFault.{EvidenceFault};
ghost use Rattle.live_clause_spec.specs.Variables.{live_commands};
ghost use Rattle.log_checker.specs.declared.refuter.RefuteFault.TheVariants.{NotRefuted};
ghost use Rattle.plan_encoding.specs.Bases.{speaks_of};

use bound_clause::clause_of as clause_of_bound;
use bound_design::{is_covered, names_design};
use bound_spec::{Bound, BoundFault, Evidence, EvidenceFault};
use bound_ticks::shows_failure;
use clause_spec::BaseKind;
use cone_clause::{Contention, clause_of as clause_of_cone};
use cone_form::is_in_design;
use cone_run::fault_of;
use cone_spec::{Cone, ConeFault};
use interlocking::Steps;
use log_checker::{RefuteFault, Refuter};
use sat_clause::Lit;
use std::alloc::Global;

/// Says of cones and bounds over a design what is left of the clause that they show, for plans of so many steps.
#[derive(Clone, Copy)]
pub struct ByDesign<'a> {
    pub contention: Contention<'a>,
    /// The base whose commands these are.
    pub kind: BaseKind,
    pub steps: Steps,
    pub ghost speaks: { let i = contention.interlocking.now in contention.pairs.now.commands
        ≡ live_commands (speaks_of kind i.design.station i.routes) i.design.station i.routes },
}

/// A line of a proof that names a cone or a bound, without its end, and what is left of the clause that it shows.
#[derive(Drop)]
pub struct EvidenceLine {
    pub line: Vec<u8>,
    pub clause: Vec<Lit>,
}

/// Why a cone gives no clause.
fn of_cone(fault: ConeFault) -> RefuteFault
    ensures { result ≡ NotRefuted (EvidenceFault.Cone fault) }
{
    RefuteFault::NotRefuted(EvidenceFault::Cone(fault))
}

/// Why a bound gives no clause.
fn of_bound(fault: BoundFault) -> RefuteFault
    ensures { result ≡ NotRefuted (EvidenceFault.Bound fault) }
{
    RefuteFault::NotRefuted(EvidenceFault::Bound(fault))
}

impl ByDesign<'_> {
    ghost use Rattle.proof_judge.specs.Shows.{shows};

    /// What is left of the clause that a cone shows.
    fn cone_clause(&self, alloc: Global, cone: &Cone) -> Result<Vec<Lit>, RefuteFault>
        ensures ok { IfOk result (λ clause. shows self.now (evidence.Cone cone.now) ≡ Ok clause.items) }
        ensures fault { (fault : EvidenceFault) → result ≡ Err (NotRefuted fault)
            → shows self.now (evidence.Cone cone.now) ≡ Err fault }
    {
        let interlocking = self.contention.interlocking;
        if !is_in_design(alloc, interlocking, cone)? {
            return Err(of_cone(ConeFault::PathNotInDesign));
        }
        let Some(clause) = clause_of_cone(alloc, &self.contention, self.steps, cone)? else {
            return Err(of_cone(ConeFault::PathNotInDesign));
        };
        match fault_of(alloc, interlocking, cone)? {
            Some(fault) => Err(of_cone(fault)),
            None => Ok(clause),
        }
    }

    /// What is left of the clause that a bound shows.
    fn bound_clause(&self, alloc: Global, bound: &Bound) -> Result<Vec<Lit>, RefuteFault>
        ensures ok { IfOk result (λ clause. shows self.now (evidence.Bound bound.now) ≡ Ok clause.items) }
        ensures fault { (fault : EvidenceFault) → result ≡ Err (NotRefuted fault)
            → shows self.now (evidence.Bound bound.now) ≡ Err fault }
    {
        let interlocking = self.contention.interlocking;
        if !names_design(alloc, interlocking, bound)? {
            return Err(of_bound(BoundFault::BoundNotInDesign));
        }
        let Some(clause) = clause_of_bound(alloc, &self.contention, self.steps, bound)? else {
            return Err(of_bound(BoundFault::BoundNotInDesign));
        };
        if !is_covered(alloc, interlocking, bound)? {
            return Err(of_bound(BoundFault::PlaceNotCovered));
        }
        if !shows_failure(alloc, interlocking, bound)? {
            return Err(of_bound(BoundFault::BoundNotShown));
        }
        Ok(clause)
    }
}

impl Refuter for ByDesign<'_> {
    ghost use Rattle.proof_judge.specs.Shows.{shows};

    ghost refute = { shows };

    fn clause_of(&self, alloc: Global, evidence: &Evidence) -> Result<Vec<Lit>, RefuteFault> {
        match evidence {
            Evidence::Cone(cone) => self.cone_clause(alloc, cone),
            Evidence::Bound(bound) => self.bound_clause(alloc, bound),
        }
    }
}
