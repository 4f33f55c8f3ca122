//! How many stretches the tracks of legs have, counted no further than one past the most that are looked at.

ghost use Rattle.std.specs.Prelude.{◌≡◌, ◌≤◌, ◌/◌, All, IfOk, min};
ghost use Rattle.rail_base.specs.Routes.{IsRoute};
ghost use Rattle.rail_base.specs.Stations.{horizon};
ghost use Rattle.rail_course.specs.Tracks.{routes_at};
ghost use Rattle.bound_spec.specs.Validity.{most_looks, stretches_in, stretches_of, stretches_of_leg};
ghost use Rattle.bound_spec.specs.Validity.{stretches_of_walk};
ghost use Rattle.bound_ticks.specs.Looks.{cap};
ghost use Rattle.bound_ticks.specs.Walks.{IsLeg};
ghost use Rattle.interlocking.specs.Plans.{on};

use crate::walks::{first_routes, walks_of};
use bound_spec::Leg;
use free_moves::goes_further;
use interlocking::Interlocking;
use rail_base::route::{RouteNo, RouteTable, route_at};
use std::alloc::{AllocError, Global};

/// No more stretches are looked at.
pub(crate) const MOST_LOOKS: u64 = 33_554_432;

/// The stretches of all legs, each of which leads to what the next waits for.
pub fn stretches_of(
    alloc: Global,
    interlocking: &Interlocking,
    legs: &[Leg],
) -> Result<u64, AllocError>
    requires { All (IsLeg interlocking.now) legs.now }
    ensures { IfOk result (λ n. n ≡ cap (on interlocking.now stretches_of legs.now)) }
{
    match legs {
        [] => Ok(0),
        [last] => stretches_of_leg(alloc, interlocking, last, 1),
        [leg, rest @ ..] => {
            let own = stretches_of_leg(alloc, interlocking, leg, first_routes(rest).len())?;
            Ok(cap(own + stretches_of(alloc, interlocking, rest)?))
        }
    }
}

/// The ticks in which so many stretches may be looked at.
pub fn ticks_followed(interlocking: &Interlocking, stretches: u64) -> u64
    ensures ticks { result ≡ min (horizon interlocking.now.design.station) (most_looks / stretches) }
    ensures at_most_86400 { result ≤ 86400 }
{
    let most = MOST_LOOKS.checked_div(stretches).unwrap_or(0);
    interlocking.design.horizon().min(most)
}

/// A count, or one more than the most.
fn cap(count: u64) -> u64
    ensures { result ≡ cap count }
{
    count.min(MOST_LOOKS + 1)
}

/// The stretches of a walk.
fn stretches_in(routes: &RouteTable, walk: &[RouteNo]) -> u64
    requires { All (IsRoute routes.now) walk.now }
    ensures { result ≡ cap (stretches_in (routes_at routes.now walk.now)) }
{
    let mut count = 0;
    for number in walk {
        count = cap(count + cap(route_at(routes, *number).edges.len() as u64));
    }
    count
}

/// The stretches of a walk, by itself and with each route that goes on where it ends.
fn stretches_of_walk(interlocking: &Interlocking, walk: &[RouteNo]) -> u64
    requires { All (IsRoute interlocking.now.routes) walk.now }
    ensures { result ≡ cap (on interlocking.now stretches_of_walk (routes_at interlocking.now.routes walk.now)) }
{
    let routes = &interlocking.routes;
    let own = stretches_in(routes, walk);
    let mut count = own;
    for next in routes.as_slice() {
        if goes_further(routes, walk, next) {
            count = cap(count + own + cap(next.edges.len() as u64));
        }
    }
    count
}

/// The stretches of all walks of a leg, for each of the places to which they lead.
fn stretches_of_leg(
    alloc: Global,
    interlocking: &Interlocking,
    leg: &Leg,
    places: usize,
) -> Result<u64, AllocError>
    requires { IsLeg interlocking.now leg.now }
    ensures { IfOk result (λ n. n ≡ cap (on interlocking.now stretches_of_leg leg.now places)) }
{
    let walks = walks_of(alloc, &interlocking.routes, leg.places.as_slice())?;
    let mut count = 0;
    for walk in &walks {
        count = cap(count + stretches_of_walk(interlocking, walk.as_slice()));
    }
    Ok(cap(count * cap(places as u64)))
}
