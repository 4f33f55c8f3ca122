//! The places on walks to which legs lead, in mm from the start of the walk.

ghost use Rattle.std.specs.Prelude.{◌≡◌, ◌≤◌, ◌+◌, ◌*◌, All, length};
ghost use Rattle.rail_base.specs.declared.station.NodeNo.{NodeNo};
ghost use Rattle.rail_base.specs.Numbering.{after_first};
ghost use Rattle.rail_base.specs.Routes.{IsRoute, own_shared, release_offset, route_at};
ghost use Rattle.rail_base.specs.Stations.{IsTrain};
ghost use Rattle.rail_spec.specs.Plans.{has_node};
ghost use Rattle.bound_spec.specs.Certificates.{first_in, nodes_of_visit, target, visit_offset, visit_place};
ghost use Rattle.bound_spec.specs.Rides.{greatest_of, release_place};
ghost use Rattle.leg_targets.specs.Visits.{release_on, target_on, visit_place_on};

use interlocking::{Interlocking, has_node};
use rail_base::design::Design;
use rail_base::route::{Route, RouteNo, route_at};
use rail_base::station::{NodeNo, TrainNo};

/// A visit that a train has to make.
#[derive(Clone, Copy)]
pub struct Visit {
    pub train: TrainNo,
    /// Its place among the visits of the train, counted from 1.
    pub number: u32,
}

/// Where the head of a train is on a walk, in mm from the walk's start, when the last route has released all that it
/// goes over and another has too. It is 0 on a walk without routes.
pub fn release_place(
    interlocking: &Interlocking,
    train: TrainNo,
    walk: &[RouteNo],
    next: RouteNo,
) -> u64
    requires train { IsTrain interlocking.now.design.station train }
    requires walk { All (IsRoute interlocking.now.routes) walk.now }
    requires at_most_64 { length walk.now ≤ 64 }
    requires next { IsRoute interlocking.now.routes next }
    ensures place { result ≡ release_on interlocking.now train walk.now next }
    ensures within_walk { result ≤ length walk.now * 40000000000 + 4294967295 }
{
    let routes = &interlocking.routes;
    match walk {
        [] => 0,
        [last] => {
            let end = route_at(routes, *last);
            let greatest = greatest_release(end, route_at(routes, next));
            greatest + u64::from(interlocking.design.vehicle_of(train).length_mm)
        }
        [first, rest @ ..] => {
            route_at(routes, *first).length_mm() + release_place(interlocking, train, rest, next)
        }
    }
}

/// Where on the last route of a walk a visit can be made at the earliest, in mm from the walk's start. It is the
/// route's start for a first visit and where the visit can't be made on the route, and 0 on a walk without routes.
pub fn target(interlocking: &Interlocking, visit: Visit, walk: &[RouteNo]) -> u64
    requires train { IsTrain interlocking.now.design.station visit.train }
    requires walk { All (IsRoute interlocking.now.routes) walk.now }
    requires at_most_64 { length walk.now ≤ 64 }
    ensures place { result ≡ target_on interlocking.now visit walk.now }
    ensures within_walk { result ≤ length walk.now * 40000000000 }
{
    let routes = &interlocking.routes;
    match walk {
        [] => 0,
        [last] => visit_offset(&interlocking.design, visit, route_at(routes, *last)),
        [first, rest @ ..] => {
            route_at(routes, *first).length_mm() + target(interlocking, visit, rest)
        }
    }
}

/// Where on the first route of a walk a visit is made at the latest, in mm from the walk's start. It is 0 for a first
/// visit, where the visit can't be made on the route, and on a walk without routes.
pub fn visit_place(interlocking: &Interlocking, visit: Visit, walk: &[RouteNo]) -> u64
    requires train { IsTrain interlocking.now.design.station visit.train }
    requires walk { All (IsRoute interlocking.now.routes) walk.now }
    ensures { result ≡ visit_place_on interlocking.now visit walk.now }
{
    match walk {
        [] => 0,
        [first, ..] => visit_offset(
            &interlocking.design,
            visit,
            route_at(&interlocking.routes, *first),
        ),
    }
}

/// The greatest release offset of the sections that a route goes over and another has too.
fn greatest_release(route: &Route, next: &Route) -> u64
    ensures { result ≡ greatest_of (release_offset route.now) (own_shared route.now next.now) }
{
    let mut greatest = 0;
    for part in route.sections.as_slice() {
        if next.has_section(part.0) {
            greatest = greatest.max(route.release_offset(part.0));
        }
    }
    greatest
}

/// The values behind the first.
fn after_first<T>(values: &[T]) -> &[T]
    ensures { result.now ≡ after_first values.now }
{
    match values {
        [] => values,
        [_, rest @ ..] => rest,
    }
}

/// How far from the start of a route the first of these nodes is in the set, or 0 where none is.
fn first_in(set: &[NodeNo], nodes: &[(NodeNo, i64)]) -> u64
    ensures { result ≡ first_in set.now nodes.now }
{
    for (node, offset) in nodes {
        if has_node(set, *node) {
            return offset.unsigned_abs();
        }
    }
    0
}

/// The nodes of a visit.
fn nodes_of_visit(design: &Design, visit: Visit) -> &[NodeNo]
    requires train { IsTrain design.now.station visit.train }
    requires number { 1 ≤ visit.number }
    ensures { result.now ≡ nodes_of_visit design.now.station visit.train visit.number }
{
    match design
        .train(visit.train)
        .visits
        .as_slice()
        .get(visit.number as usize - 1)
    {
        Some(nodes) => nodes.as_slice(),
        None => &[],
    }
}

/// Where a visit can be made on a route at the earliest: the first at its start.
fn visit_offset(design: &Design, visit: Visit, route: &Route) -> u64
    requires { IsTrain design.now.station visit.train }
    ensures { result ≡ visit_offset design.now.station visit.train visit.number route.now }
{
    if visit.number < 2 {
        return 0;
    }
    first_in(
        nodes_of_visit(design, visit),
        after_first(route.nodes.as_slice()),
    )
}
