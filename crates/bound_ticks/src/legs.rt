//! The least ticks of a leg.

ghost use Rattle.std.specs.Prelude.{◌≡◌, ◌<◌, ◌≤◌, ◌^◌, All, IfOk, length, Option};
ghost use Rattle.std.specs.Option.{ForSome};
ghost use Rattle.rail_base.specs.Routes.{IsRoute};
ghost use Rattle.rail_base.specs.Stations.{IsTrain};
ghost use Rattle.bound_ticks.specs.Chains.{leg_to_release, leg_to_visit, ticks_on, to_release, to_visit};
ghost use Rattle.bound_ticks.specs.Walks.{IsLeg};

use crate::walks::walks_of;
use bound_spec::Leg;
use free_moves::{on_ticks, run_ticks};
use interlocking::Interlocking;
use leg_targets::{Visit, release_place, target, visit_place};
use rail_base::route::RouteNo;
use std::alloc::{AllocError, Global};

/// From where the ticks of a leg are counted, and how many of them at the most.
#[derive(Clone, Copy)]
pub struct Ride<'a> {
    pub interlocking: &'a Interlocking,
    pub leg: &'a Leg,
    /// The visit from which they are counted, or none where they are from the grant of the first command.
    pub from: Option<Visit>,
    pub most: u64,
    pub ghost legged: { IsLeg interlocking.now leg.now },
    pub ghost origin: { ForSome from (λ v. IsTrain interlocking.now.design.station v.train) },
    pub ghost at_most_86400: { most ≤ 86400 },
}

impl Ride<'_> {
    ghost use Rattle.bound_ticks.specs.Rides.{ride_to_visit, ride_to_release, walk_to_place, walk_to_visit};
    ghost use Rattle.bound_ticks.specs.Rides.{walk_to_release};

    /// The least ticks to a visit over all walks of the leg.
    pub fn leg_to_visit(&self, alloc: Global, visit: Visit) -> Result<u64, AllocError>
        requires { IsTrain self.now.interlocking.now.design.station visit.train }
        ensures { IfOk result (λ n. n ≡ ride_to_visit self.now visit) }
    {
        let walks = walks_of(alloc, &self.interlocking.routes, self.leg.places.as_slice())?;
        let mut least = self.most;
        for walk in &walks {
            least = least.min(self.to_visit(alloc, walk.as_slice(), visit)?);
        }
        Ok(least)
    }

    /// The least ticks to a release over all walks of the leg.
    pub fn leg_to_release(&self, alloc: Global, next: &[RouteNo]) -> Result<u64, AllocError>
        requires { All (IsRoute self.now.interlocking.now.routes) next.now }
        ensures { IfOk result (λ n. n ≡ ride_to_release self.now next.now) }
    {
        let walks = walks_of(alloc, &self.interlocking.routes, self.leg.places.as_slice())?;
        let mut least = self.most;
        for walk in &walks {
            least = least.min(self.to_release(alloc, walk.as_slice(), next)?);
        }
        Ok(least)
    }

    /// The least ticks to a place of a walk.
    fn ticks_on(&self, alloc: Global, walk: &[RouteNo], place: u64) -> Result<u64, AllocError>
        requires walk { All (IsRoute self.now.interlocking.now.routes) walk.now }
        requires at_most_64 { length walk.now ≤ 64 }
        requires place { place < 2 ^ 47 }
        ensures { IfOk result (λ n. n ≡ walk_to_place self.now walk.now place) }
    {
        let train = self.leg.train;
        match self.from {
            None => run_ticks(alloc, self.interlocking, train, walk, place, self.most),
            Some(visit) => {
                let from = visit_place(self.interlocking, visit, walk);
                on_ticks(
                    alloc,
                    self.interlocking,
                    train,
                    walk,
                    from,
                    place,
                    self.most,
                )
            }
        }
    }

    /// The least ticks to where a visit can be made on a walk.
    fn to_visit(&self, alloc: Global, walk: &[RouteNo], visit: Visit) -> Result<u64, AllocError>
        requires walk { All (IsRoute self.now.interlocking.now.routes) walk.now }
        requires at_most_64 { length walk.now ≤ 64 }
        requires visit { IsTrain self.now.interlocking.now.design.station visit.train }
        ensures { IfOk result (λ n. n ≡ walk_to_visit self.now walk.now visit) }
    {
        self.ticks_on(alloc, walk, target(self.interlocking, visit, walk))
    }

    /// The least ticks to where a walk has released what one of these routes waits for.
    fn to_release(
        &self,
        alloc: Global,
        walk: &[RouteNo],
        next: &[RouteNo],
    ) -> Result<u64, AllocError>
        requires walk { All (IsRoute self.now.interlocking.now.routes) walk.now }
        requires at_most_64 { length walk.now ≤ 64 }
        requires next { All (IsRoute self.now.interlocking.now.routes) next.now }
        ensures { IfOk result (λ n. n ≡ walk_to_release self.now walk.now next.now) }
    {
        let mut least = self.most;
        for route in next {
            let place = release_place(self.interlocking, self.leg.train, walk, *route);
            least = least.min(self.ticks_on(alloc, walk, place)?);
        }
        Ok(least)
    }
}
