//! Whether a certificate shows that its requirement fails.

ghost use Rattle.std.specs.Prelude.{◌≡◌, ◌≤◌, true, IfOk, None, Some};
ghost use Rattle.std.specs.Option.{ForSome};
ghost use Rattle.rail_base.specs.Stations.{IsTrain};
ghost use Rattle.interlocking.specs.declared.railway.Interlocking.{Interlocking};
ghost use Rattle.cone_spec.specs.declared.Cone.{Cone};
ghost use Rattle.bound_spec.specs.declared.Bound.{Bound};
ghost use Rattle.bound_spec.specs.declared.Origin.TheVariants as origin;
ghost use Rattle.bound_spec.specs.Validity.{is_too_late, is_too_long, names_design, shows_failure};
ghost use Rattle.bound_ticks.specs.Claims.{from_of, made_at, shows_by, to_of};
ghost use Rattle.leg_targets.specs.Visits.{origin_of, visit_of};
ghost use Rattle.bound_ticks.specs.Rides.{takes_too_long, ticks_until, ticks_from_to, passes_from_to, fails_by};
ghost use Rattle.bound_ticks.specs.Rides.{cone_makes};
ghost use Rattle.interlocking.specs.Plans.{on};

use crate::ahead::Between;
use crate::chain::Chain;
use crate::claim::Claim;
use crate::requirement::{is_too_late, is_too_long, visit_from, visit_to};
use crate::stretches::{MOST_LOOKS, stretches_of, ticks_followed};
use bound_spec::{Bound, Origin};
use cone_run::visit_in_run;
use cone_spec::Cone;
use interlocking::Interlocking;
use leg_targets::Visit;
use std::alloc::{AllocError, Global};

/// Whether a certificate shows that its requirement fails: the ticks that its legs take at the least are too many.
///
/// # Errors
///
/// Want of memory alone.
pub fn shows_failure(
    alloc: Global,
    interlocking: &Interlocking,
    bound: &Bound,
) -> Result<bool, AllocError>
    requires names { on interlocking.now names_design bound.now ≡ true }
    ensures { IfOk result (λ b. b ≡ on interlocking.now shows_failure bound.now) }
{
    let stretches = stretches_of(alloc, interlocking, bound.legs.as_slice())?;
    if stretches > MOST_LOOKS {
        return Ok(false);
    }
    let claim = Claim {
        interlocking,
        bound,
        most: ticks_followed(interlocking, stretches),
    };
    claim.origin_shows(alloc)
}

/// Whether a visit is made at this tick.
fn is_made_at(tick: u64, made: Option<u64>) -> bool
    ensures { (i : Interlocking) (b : Bound) → result ≡ made_at i b tick made }
{
    match made {
        Some(at) => tick == at,
        None => false,
    }
}

impl Claim<'_> {
    /// The visit from which the ticks are counted.
    fn from(&self) -> Option<Visit>
        ensures visit { origin_of result ≡ from_of self.now.interlocking.now self.now.bound.now }
        ensures train { ForSome result (λ v. IsTrain self.now.interlocking.now.design.station v.train) }
    {
        visit_from(self.interlocking, self.bound.requirement)
    }

    /// The visit at which they end.
    fn to(&self) -> Option<Visit>
        ensures visit { origin_of result ≡ to_of self.now.interlocking.now self.now.bound.now }
        ensures train { ForSome result (λ v. IsTrain self.now.interlocking.now.design.station v.train) }
    {
        visit_to(self.interlocking, self.bound.requirement)
    }

    /// Whether so many ticks between the visits are too many.
    fn is_too_long(&self, ticks: u64) -> bool
        ensures { result ≡ takes_too_long self.now ticks }
    {
        is_too_long(self.interlocking, self.bound.requirement, ticks)
    }

    /// The least ticks from the grant of the first command.
    fn ticks_to(&self, alloc: Global, to: Option<Visit>) -> Result<u64, AllocError>
        requires { ForSome to (λ v. IsTrain self.now.interlocking.now.design.station v.train) }
        ensures ticks { IfOk result (λ n. n ≡ ticks_until self.now to) }
        ensures at_most_5529664 { IfOk result (λ n. n ≤ 5529664) }
    {
        let chain = Chain {
            interlocking: self.interlocking,
            most: self.most,
            to,
        };
        chain.ticks(alloc, None, self.bound.legs.as_slice())
    }

    /// The least ticks from one visit to another.
    fn ticks_between(&self, alloc: Global, from: Visit, to: Visit) -> Result<u64, AllocError>
        requires from { IsTrain self.now.interlocking.now.design.station from.train }
        requires to { IsTrain self.now.interlocking.now.design.station to.train }
        ensures { IfOk result (λ n. n ≡ ticks_from_to self.now from to) }
    {
        let chain = Chain {
            interlocking: self.interlocking,
            most: self.most,
            to: Some(to),
        };
        chain.ticks(alloc, Some(from), self.bound.legs.as_slice())
    }

    /// Whether the least ticks from the one visit to the other are too many.
    fn passes_between(&self, alloc: Global, from: Visit, to: Visit) -> Result<bool, AllocError>
        requires from { IsTrain self.now.interlocking.now.design.station from.train }
        requires to { IsTrain self.now.interlocking.now.design.station to.train }
        ensures { IfOk result (λ b. b ≡ passes_from_to self.now from to) }
    {
        if from.number <= 1 {
            return Ok(self.is_too_long(self.ticks_to(alloc, Some(to))?));
        }
        let between = Between {
            interlocking: self.interlocking,
            from,
            to,
        };
        if !between.are_ahead(alloc, self.bound.legs.as_slice())? {
            return Ok(false);
        }
        Ok(self.is_too_long(self.ticks_between(alloc, from, to)?))
    }

    /// Whether it is shown by the ticks between the visits.
    fn by_visit(&self, alloc: Global) -> Result<bool, AllocError>
        ensures { IfOk result (λ b. b
            ≡ shows_by self.now.interlocking.now self.now.bound.now origin.Visit) }
    {
        let Some(from) = self.from() else {
            return Ok(false);
        };
        let Some(to) = self.to() else {
            return Ok(false);
        };
        self.passes_between(alloc, from, to)
    }

    /// Whether it is shown where the first visit is made in the first tick.
    fn by_first_tick(&self, alloc: Global) -> Result<bool, AllocError>
        ensures { IfOk result (λ b. b ≡ fails_by self.now origin.FirstTick) }
    {
        if self.from().is_none() {
            return Ok(false);
        }
        let ticks = self.ticks_to(alloc, self.to())?;
        Ok(self.is_too_long(ticks))
    }

    /// Whether it is shown by the ticks of the run.
    fn by_start(&self, alloc: Global) -> Result<bool, AllocError>
        ensures { IfOk result (λ b. b
            ≡ shows_by self.now.interlocking.now self.now.bound.now origin.Start) }
    {
        if self.from().is_some() {
            return Ok(false);
        }
        let ticks = self.ticks_to(alloc, self.to())?;
        Ok(self.interlocking.design.horizon() < 1 + ticks)
    }
}

impl Claim<'_> {
    /// Whether the cone makes the visit at this tick.
    fn cone_shows(
        &self,
        alloc: Global,
        tick: u64,
        cone: &Cone,
        from: Visit,
    ) -> Result<bool, AllocError>
        requires origin { self.now.bound.now.origin ≡ origin.Cone tick cone.now }
        requires from { IsTrain self.now.interlocking.now.design.station from.train }
        requires visit { from_of self.now.interlocking.now self.now.bound.now ≡ Some (visit_of from) }
        ensures { IfOk result (λ b. b ≡ cone_makes self.now tick from) }
    {
        let made = visit_in_run(alloc, self.interlocking, cone, from.train, from.number)?;
        Ok(is_made_at(tick, made))
    }

    /// Whether it is shown where the first visit is made at a tick in the run of a cone.
    fn by_cone(&self, alloc: Global, tick: u64, cone: &Cone) -> Result<bool, AllocError>
        requires { self.now.bound.now.origin ≡ origin.Cone tick cone.now }
        ensures { IfOk result (λ b. b ≡ fails_by self.now (origin.Cone tick cone.now)) }
    {
        let Some(from) = self.from() else {
            return Ok(false);
        };
        if !self.cone_shows(alloc, tick, cone, from)? {
            return Ok(false);
        }
        let ticks = self.ticks_to(alloc, self.to())?;
        Ok(is_too_late(self.interlocking, self.bound.requirement, tick, 1 + ticks))
    }

    /// Whether it is shown by its origin.
    fn origin_shows(&self, alloc: Global) -> Result<bool, AllocError>
        ensures { IfOk result (λ b. b ≡ fails_by self.now self.now.bound.now.origin) }
    {
        match &self.bound.origin {
            Origin::Visit => self.by_visit(alloc),
            Origin::FirstTick => self.by_first_tick(alloc),
            Origin::Start => self.by_start(alloc),
            Origin::Cone { tick, cone } => self.by_cone(alloc, *tick, cone),
        }
    }
}
