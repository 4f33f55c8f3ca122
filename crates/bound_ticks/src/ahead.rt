//! Whether a visit is made before the place to which the first leg leads.

ghost use Rattle.std.specs.Prelude.{◌≡◌, ◌≤◌, All, IfOk, length};
ghost use Rattle.rail_base.specs.Routes.{IsRoute};
ghost use Rattle.rail_base.specs.Stations.{IsTrain};
ghost use Rattle.bound_spec.specs.Validity.{are_ahead};
ghost use Rattle.bound_ticks.specs.Walks.{IsLeg};

use crate::walks::{first_routes, walks_of};
use bound_spec::Leg;
use interlocking::Interlocking;
use leg_targets::{Visit, release_place, target, visit_place};
use rail_base::route::RouteNo;
use rail_base::station::TrainNo;
use std::alloc::{AllocError, Global};

/// Two visits, from one of which ticks are counted to the other.
#[derive(Clone, Copy)]
pub(crate) struct Between<'a> {
    pub interlocking: &'a Interlocking,
    pub from: Visit,
    pub to: Visit,
    pub ghost from_is_train: { IsTrain interlocking.now.design.station from.train },
    pub ghost to_is_train: { IsTrain interlocking.now.design.station to.train },
}

impl Between<'_> {
    ghost use Rattle.bound_ticks.specs.Rides.{is_between};
    ghost use Rattle.bound_ticks.specs.Ahead.{ahead_on, ahead_on_all, all_past};

    /// Whether it is so on all walks of the first of some legs.
    pub(crate) fn are_ahead(&self, alloc: Global, legs: &[Leg]) -> Result<bool, AllocError>
        requires { All (IsLeg self.now.interlocking.now) legs.now }
        ensures { IfOk result (λ b. b ≡ is_between self.now legs.now) }
    {
        match legs {
            [] => Ok(false),
            [leg, rest @ ..] => self.ahead_on_all(alloc, leg, rest),
        }
    }

    /// Whether a place is not past where a walk has released what any of these routes waits for.
    fn all_past(&self, train: TrainNo, walk: &[RouteNo], place: u64, next: &[RouteNo]) -> bool
        requires train { IsTrain self.now.interlocking.now.design.station train }
        requires walk { All (IsRoute self.now.interlocking.now.routes) walk.now }
        requires at_most_64 { length walk.now ≤ 64 }
        requires next { All (IsRoute self.now.interlocking.now.routes) next.now }
        ensures { result ≡ all_past self.now.interlocking.now train walk.now place next.now }
    {
        for route in next {
            if place > release_place(self.interlocking, train, walk, *route) {
                return false;
            }
        }
        true
    }

    /// Whether on a walk the first visit's place is not past where the walk leads.
    fn ahead_on(&self, leg: &Leg, rest: &[Leg], walk: &[RouteNo]) -> bool
        requires leg { IsLeg self.now.interlocking.now leg.now }
        requires rest { All (IsLeg self.now.interlocking.now) rest.now }
        requires walk { All (IsRoute self.now.interlocking.now.routes) walk.now }
        requires at_most_64 { length walk.now ≤ 64 }
        ensures { result ≡ ahead_on self.now leg.now rest.now walk.now }
    {
        let place = visit_place(self.interlocking, self.from, walk);
        if rest.is_empty() {
            return place <= target(self.interlocking, self.to, walk);
        }
        self.all_past(leg.train, walk, place, first_routes(rest))
    }

    /// Whether it is so on all walks of the leg.
    fn ahead_on_all(&self, alloc: Global, leg: &Leg, rest: &[Leg]) -> Result<bool, AllocError>
        requires leg { IsLeg self.now.interlocking.now leg.now }
        requires rest { All (IsLeg self.now.interlocking.now) rest.now }
        ensures { IfOk result (λ b. b ≡ ahead_on_all self.now leg.now rest.now) }
    {
        let walks = walks_of(alloc, &self.interlocking.routes, leg.places.as_slice())?;
        for walk in &walks {
            if !self.ahead_on(leg, rest, walk.as_slice()) {
                return Ok(false);
            }
        }
        Ok(true)
    }
}
