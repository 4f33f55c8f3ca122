//! What is asked of a design by numbers that it may not have.

ghost use Rattle.std.specs.Prelude.{◌≡◌, ◌≤◌, IsTrue, IsSome, IfSome, All, length};
ghost use Rattle.rail_base.specs.Routes.{IsRoute, route_at, share};
ghost use Rattle.rail_base.specs.Stations.{IsTrain};
ghost use Rattle.rail_spec.specs.Plans.{contend};
ghost use Rattle.bound_spec.specs.Validity.{contend_over_own};

use interlocking::Interlocking;
use leg_targets::Visit;
use rail_base::plan::Command;
use rail_base::route::{Route, RouteNo};
use rail_base::station::TrainNo;

/// A leg has no more places, so no walk that may be a leg has more routes. Of a longer one no ticks are counted.
const MOST_ROUTES: usize = 64;

/// How many trains a design has.
pub fn count_trains(interlocking: &Interlocking) -> u32
    ensures value { result ≡ length interlocking.now.design.station.trains }
    ensures at_most_128 { result ≤ 128 }
{
    interlocking.design.station.trains.len() as u32
}

/// How many routes it has.
pub fn count_routes(interlocking: &Interlocking) -> u32
    ensures value { result ≡ length interlocking.now.routes }
    ensures at_most_2000 { result ≤ 2000 }
{
    interlocking.routes.len() as u32
}

/// Whether a train is one of a design.
pub(crate) fn is_train(interlocking: &Interlocking, train: TrainNo) -> bool
    ensures { IsTrue result → IsTrain interlocking.now.design.station train }
{
    1 <= train.0 && train.0 <= count_trains(interlocking)
}

/// Whether a route is one of a design.
pub(crate) fn is_route(interlocking: &Interlocking, route: RouteNo) -> bool
    ensures found { IsTrue result → IsRoute interlocking.now.routes route }
    ensures all { IsRoute interlocking.now.routes route → IsTrue result }
{
    1 <= route.0 && route.0 <= count_routes(interlocking)
}

/// Whether the routes of a walk are of a design, and few.
pub(crate) fn is_walk(interlocking: &Interlocking, walk: &[RouteNo]) -> bool
    ensures routes { IsTrue result → All (IsRoute interlocking.now.routes) walk.now }
    ensures at_most_64 { IsTrue result → length walk.now ≤ 64 }
{
    walk.len() <= MOST_ROUTES && walk.iter().all(|route| is_route(interlocking, *route))
}

/// The route of a number, if there is one.
pub fn route(interlocking: &Interlocking, number: RouteNo) -> Option<&Route>
    ensures found { IfSome result (λ route. route.now ≡ route_at interlocking.now.routes number) }
    ensures all { IsRoute interlocking.now.routes number → IsSome result }
{
    if is_route(interlocking, number) {
        Some(interlocking.route(number))
    } else {
        None
    }
}

/// Whether two routes are of a design and have a section in common.
pub fn share(interlocking: &Interlocking, one: RouteNo, other: RouteNo) -> bool
    ensures { result ≡ share (route_at interlocking.now.routes one) (route_at interlocking.now.routes other) }
{
    is_route(interlocking, one) && is_route(interlocking, other) && interlocking.share(one, other)
}

/// Whether two commands contend: they are of different trains, by routes that share a section.
pub fn contend(interlocking: &Interlocking, one: Command, other: Command) -> bool
    ensures { result ≡ contend interlocking.now.routes one other }
{
    one.train != other.train && share(interlocking, one.route, other.route)
}

/// Whether two commands contend over an own section of the first: a later second one waits until the tail of the
/// first's train has left it.
pub fn contend_over_own(interlocking: &Interlocking, first: Command, second: Command) -> bool
    ensures { result
        ≡ contend_over_own interlocking.now.design.station interlocking.now.routes first second }
{
    is_route(interlocking, first.route)
        && is_route(interlocking, second.route)
        && bound_design::contend_over_own(interlocking, first, second)
}

/// Where on a walk a train has released what a route waits for, in mm from the walk's start.
pub(crate) fn release_place(
    interlocking: &Interlocking,
    train: TrainNo,
    walk: &[RouteNo],
    next: RouteNo,
) -> Option<u64> {
    if is_train(interlocking, train)
        && is_walk(interlocking, walk)
        && is_route(interlocking, next)
    {
        Some(leg_targets::release_place(interlocking, train, walk, next))
    } else {
        None
    }
}

/// Where on the last route of a walk a visit can be made at the earliest, in mm from the walk's start.
pub(crate) fn target(interlocking: &Interlocking, visit: Visit, walk: &[RouteNo]) -> Option<u64> {
    if is_train(interlocking, visit.train) && is_walk(interlocking, walk) {
        Some(leg_targets::target(interlocking, visit, walk))
    } else {
        None
    }
}

/// Where on the first route of a walk a visit is made at the latest, in mm from the walk's start.
pub(crate) fn visit_place(
    interlocking: &Interlocking,
    visit: Visit,
    walk: &[RouteNo],
) -> Option<u64> {
    if is_train(interlocking, visit.train) && is_walk(interlocking, walk) {
        Some(leg_targets::visit_place(interlocking, visit, walk))
    } else {
        None
    }
}
