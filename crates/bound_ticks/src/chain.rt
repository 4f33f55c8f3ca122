//! The least ticks of legs that wait for each other.

ghost use Rattle.std.specs.Prelude.{◌≡◌, ◌≤◌, ◌+◌, All, IfOk, None, length};
ghost use Rattle.std.specs.Option.{ForSome};
ghost use Rattle.rail_base.specs.Stations.{IsTrain};
ghost use Rattle.bound_ticks.specs.Chains.{end_ticks};
ghost use Rattle.bound_ticks.specs.Walks.{IsLeg};

use crate::legs::Ride;
use crate::walks::first_routes;
use bound_spec::Leg;
use interlocking::Interlocking;
use leg_targets::Visit;
use std::alloc::{AllocError, Global};

/// How many ticks of each leg are counted at the most, and to which visit: none where they end with a grant.
#[derive(Clone, Copy)]
pub(crate) struct Chain<'a> {
    pub interlocking: &'a Interlocking,
    pub most: u64,
    pub to: Option<Visit>,
    pub ghost at_most_86400: { most ≤ 86400 },
    pub ghost end: { ForSome to (λ v. IsTrain interlocking.now.design.station v.train) },
}

impl Chain<'_> {
    ghost use Rattle.bound_ticks.specs.Rides.{legs_ticks, last_ticks};

    /// The least ticks of all legs.
    pub(crate) fn ticks(
        &self,
        alloc: Global,
        from: Option<Visit>,
        legs: &[Leg],
    ) -> Result<u64, AllocError>
        requires legs { All (IsLeg self.now.interlocking.now) legs.now }
        requires at_most_64 { length legs.now ≤ 64 }
        requires from { ForSome from (λ v. IsTrain self.now.interlocking.now.design.station v.train) }
        ensures { IfOk result (λ n. n ≡ legs_ticks self.now from legs.now) }
    {
        match legs {
            [] => Ok(0),
            [last] => self.end_ticks(alloc, from, last),
            [leg, rest @ ..] => {
                let ride = Ride {
                    interlocking: self.interlocking,
                    leg,
                    from,
                    most: self.most,
                };
                let here = ride.leg_to_release(alloc, first_routes(rest))?;
                Ok(here + 1 + self.ticks(alloc, None, rest)?)
            }
        }
    }

    /// The least ticks of the last leg.
    fn end_ticks(&self, alloc: Global, from: Option<Visit>, leg: &Leg) -> Result<u64, AllocError>
        requires leg { IsLeg self.now.interlocking.now leg.now }
        requires from { ForSome from (λ v. IsTrain self.now.interlocking.now.design.station v.train) }
        ensures { IfOk result (λ n. n ≡ last_ticks self.now from leg.now) }
    {
        let Some(visit) = self.to else {
            return Ok(0);
        };
        let ride = Ride {
            interlocking: self.interlocking,
            leg,
            from,
            most: self.most,
        };
        ride.leg_to_visit(alloc, visit)
    }
}
