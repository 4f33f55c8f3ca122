//! The line that excludes a plan.

ghost use Rattle.std.specs.Prelude.{◌≡◌, IfOk, MatchOption, Some};
ghost use Rattle.std.specs.Option.{ForSome};
ghost use Rattle.proof_log.specs.declared.line.Line.TheVariants.{Refute};
ghost use Rattle.proof_log.specs.Lines.{line_in_bytes};
ghost use Rattle.bound_spec.specs.declared.Evidence.TheVariants as evidence;
ghost use Rattle.slice_spec.specs.Holders.{GivesEach};
ghost use Rattle.rail_spec.specs.Feasible.{IsRunnable};
ghost use Rattle.rail_spec.specs.Track.{routes_of};
ghost use Rattle.plan_exclusion.specs.Failures.{FailsSo, AreValuesOfPlan};
ghost use Rattle.live_clause_spec.specs.Variables.{live_commands};
ghost use Rattle.plan_encoding.specs.Bases.{speaks_of};

use crate::denied::is_denied;
use bound_finder::Finder;
use bound_spec::{Bound, Evidence};
use clause_spec::BaseKind;
use cone_clause::{Contention, clause_of};
use interlocking::Steps;
use log_checker::{RefuteFault, Refuter};
use proof_judge::{ByDesign, EvidenceLine};
use proof_log::{Line, LineFault, read_line, write_line};
use rail_base::history::History;
use rail_base::plan::{Plan, Violation};
use sat_clause::Lit;
use sat_core::Assignment;
use std::alloc::{AllocError, Global};
use timing_refuter::slice;

/// A plan that can be carried out and fails, and how.
#[derive(Clone, Copy)]
pub struct FailedPlan<'a, 'b> {
    pub contention: Contention<'a>,
    /// The base whose commands these are, and whose values gave the plan.
    pub kind: BaseKind,
    /// It has no more steps.
    pub steps: Steps,
    pub plan: &'b Plan,
    /// The values of the variables, from the first on, that give the plan.
    pub values: &'b Assignment,
    /// Its history up to the tick at which it fails.
    pub history: &'b History,
    pub tick: u64,
    pub violation: Violation,
    pub ghost runs: { let d = contention.interlocking.now.design.station in
        IsRunnable d (routes_of d) steps.count plan.now.steps },
    pub ghost each: { GivesEach contention.interlocking.now.design.station plan.now.steps },
    pub ghost fails: { FailsSo contention.interlocking.now.design.station plan.now.steps history.now tick violation },
    pub ghost decoded: { AreValuesOfPlan kind contention.interlocking.now.design.station steps.count values.now
        plan.now.steps },
    pub ghost speaks: { let i = contention.interlocking.now in contention.pairs.now.commands
        ≡ live_commands (speaks_of kind i.design.station i.routes) i.design.station i.routes },
}

impl FailedPlan<'_, '_> {
    ghost use Rattle.plan_exclusion.specs.Written.{DeniedBy, DeniesNothing, ExcludesNothing, IsExclusionOf};
    ghost use Rattle.plan_exclusion.specs.Written.{IsNoBoundLine, TakesBounds};

    /// What excludes the plan: the cone of its failure; but where trains are sorted one of the bounds that are found, or
    /// the cone where none of them excludes it.
    ///
    /// # Errors
    ///
    /// Want of memory alone.
    pub fn exclusion(&self, alloc: Global, finder: &mut Finder) -> Result<EvidenceLine, AllocError>
        ensures { IfOk result (IsExclusionOf self.now) }
    {
        match self.kind {
            BaseKind::Plain | BaseKind::Normal => self.by_cone(alloc),
            BaseKind::Sorted | BaseKind::Live(_) => match self.by_bounds(alloc, finder)? {
                Some(exclusion) => Ok(exclusion),
                None => self.by_cone(alloc),
            },
        }
    }

    /// What the design says of evidence.
    fn by_design(&self) -> ByDesign<'_>
        ensures design { result.contention ≡ self.now.contention }
        ensures kind { result.kind ≡ self.now.kind }
        ensures steps { result.steps ≡ self.now.steps }
    {
        ByDesign {
            contention: self.contention,
            kind: self.kind,
            steps: self.steps,
        }
    }

    /// The exclusion by the cone of the failure.
    fn by_cone(&self, alloc: Global) -> Result<EvidenceLine, AllocError>
        ensures { IfOk result (IsExclusionOf self.now) }
    {
        let cone = slice(
            alloc,
            self.contention.interlocking,
            self.plan,
            self.history,
            self.tick,
            self.violation,
        )?;
        let Some(clause) = clause_of(alloc, &self.contention, self.steps, &cone)? else {
            unreachable!()
        };
        let evidence = Evidence::Cone(cone);
        let line = write_line(alloc, &Line::Refute { evidence })?;
        Ok(EvidenceLine { line, clause })
    }

    /// The bound of a line as it is read back, or none where the line does not spell one.
    fn read_back(&self, alloc: Global, line: &[u8]) -> Result<Option<Bound>, AllocError>
        ensures { IfOk result (λ read. MatchOption read (IsNoBoundLine line.now)
            (λ b. line_in_bytes line.now ≡ Some (Refute (evidence.Bound b)))) }
    {
        match read_line(alloc, line) {
            Ok(
                Line::Refute {
                    evidence: Evidence::Bound(bound),
                },
            ) => Ok(Some(bound)),
            Ok(_) | Err(LineFault::Text) => Ok(None),
            Err(LineFault::Memory) => Err(AllocError),
        }
    }

    /// The clause of a bound that is valid, and whose clause is false of the plan; else none.
    fn clause_by(&self, alloc: Global, evidence: &Evidence) -> Result<Option<Vec<Lit>>, AllocError>
        ensures { IfOk result (λ o. MatchOption o (DeniesNothing self.now evidence.now)
            (λ clause. DeniedBy self.now evidence.now clause.items)) }
    {
        match self.by_design().clause_of(alloc, evidence) {
            Ok(clause) if is_denied(self.values, &clause) => Ok(Some(clause)),
            Ok(_) | Err(RefuteFault::NotRefuted(_)) => Ok(None),
            Err(RefuteFault::Memory) => Err(AllocError),
        }
    }

    /// The exclusion by a bound, as its line is read back: none where the bound is not valid, or excludes other plans
    /// alone.
    fn by_bound(&self, alloc: Global, bound: Bound) -> Result<Option<EvidenceLine>, AllocError>
        requires { TakesBounds self.now }
        ensures { IfOk result (λ e. MatchOption e (ExcludesNothing self.now bound) (IsExclusionOf self.now)) }
    {
        let evidence = Evidence::Bound(bound);
        let line = write_line(alloc, &Line::Refute { evidence })?;
        let Some(bound) = self.read_back(alloc, &line)? else {
            return Ok(None);
        };
        match self.clause_by(alloc, &Evidence::Bound(bound))? {
            Some(clause) => Ok(Some(EvidenceLine { line, clause })),
            None => Ok(None),
        }
    }

    /// The exclusion by the first of the bounds that are found that is one, if any is.
    fn by_bounds(
        &self,
        alloc: Global,
        finder: &mut Finder,
    ) -> Result<Option<EvidenceLine>, AllocError>
        requires { TakesBounds self.now }
        ensures { IfOk result (λ e. ForSome e (IsExclusionOf self.now)) }
    {
        let interlocking = self.contention.interlocking;
        let bounds = finder.bounds(interlocking, self.plan, self.history, self.violation)?;
        for bound in bounds {
            if let Some(exclusion) = self.by_bound(alloc, bound)? {
                return Ok(Some(exclusion));
            }
        }
        Ok(None)
    }
}
