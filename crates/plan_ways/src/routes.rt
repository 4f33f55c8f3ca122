//! Which routes may follow each other on the path of a train.

ghost use Rattle.std.specs.Prelude.{◌≡◌, ◌+◌, ◌<◌, length, map, sum_by, true, None, option_map, IfSome};
ghost use Rattle.std.specs.List.{list_all};
ghost use Rattle.rail_base.specs.Routes.{route_at};
ghost use Rattle.rail_base.specs.Stations.{first_visit, train_of};
ghost use Rattle.rail_spec.specs.Plans.{is_start};
ghost use Rattle.rail_plan.specs.WellFormed.{are_apart, begins_well, last_of_list};
ghost use Rattle.interlocking.specs.Plans.{on};
ghost use Rattle.plan_ways.specs.Paths.{may_go_on_with, nodes_of};

use interlocking::{Interlocking, end_at_one_signal, goes_on, starts_in};
use rail_base::design::Design;
use rail_base::list::List;
use rail_base::names::entry;
use rail_base::route::{Finish, RouteNo, RouteTable, Start};
use rail_base::station::{NodeNo, TrainNo};

/// Where the route of a number starts.
fn start_of(routes: &RouteTable, route: RouteNo) -> Start
    ensures { result ≡ (route_at routes.now route).start }
{
    match entry(routes.as_slice(), route.0 as usize) {
        Some(route) => route.start,
        None => Start::Boundary(NodeNo(0)),
    }
}

/// Where it ends.
fn finish_of(routes: &RouteTable, route: RouteNo) -> Finish
    ensures { result ≡ (route_at routes.now route).finish }
{
    match entry(routes.as_slice(), route.0 as usize) {
        Some(route) => route.finish,
        None => Finish::DeadEnd(NodeNo(0)),
    }
}

/// Whether both are one place.
fn is_start(start: Start, other: Start) -> bool
    ensures { result ≡ is_start start other }
{
    match (start, other) {
        (Start::Boundary(node), Start::Boundary(end)) => node.0 == end.0,
        (Start::Signal(signal), Start::Signal(end)) => signal.0 == end.0,
        (Start::Boundary(_), Start::Signal(_)) => false,
        (Start::Signal(_), Start::Boundary(_)) => false,
    }
}

/// Whether two routes neither start at one place nor end at one signal.
fn are_apart(routes: &RouteTable, one: RouteNo, other: RouteNo) -> bool
    ensures { result ≡ are_apart (route_at routes.now one) (route_at routes.now other) }
{
    !is_start(start_of(routes, one), start_of(routes, other))
        && !end_at_one_signal(finish_of(routes, one), finish_of(routes, other))
}

/// Whether each of these routes is apart from one.
fn are_all_apart(routes: &RouteTable, path: &[RouteNo], route: RouteNo) -> bool
    ensures { result ≡ list_all (λ q. are_apart (route_at routes.now q) (route_at routes.now route)) path.now }
{
    for other in path {
        if !are_apart(routes, *other, route) {
            return false;
        }
    }
    true
}

/// The nodes at one of which a train begins.
fn first_visit(design: &Design, train: TrainNo) -> &[NodeNo]
    ensures { result.now ≡ first_visit (train_of design.now.station train) }
{
    match entry(design.station.trains.as_slice(), train.0 as usize) {
        Some(train) => match entry(train.visits.as_slice(), 1) {
            Some(nodes) => nodes.as_slice(),
            None => &[],
        },
        None => &[],
    }
}

/// Whether a route goes on where the one before ends, or begins at a train's first visit where there is none.
fn begins_well(
    interlocking: &Interlocking,
    train: TrainNo,
    before: Option<RouteNo>,
    route: RouteNo,
) -> bool
    ensures { let i = interlocking.now in
        result ≡ begins_well (first_visit (train_of i.design.station train))
        (option_map (route_at i.routes) before) (route_at i.routes route) }
{
    let start = start_of(&interlocking.routes, route);
    match before {
        Some(before) => goes_on(finish_of(&interlocking.routes, before), start),
        None => starts_in(first_visit(&interlocking.design, train), start),
    }
}

/// The last of some routes.
fn last_of(routes: &[RouteNo]) -> Option<RouteNo>
    ensures { result ≡ last_of_list routes.now }
{
    let mut last = None;
    for route in routes {
        last = Some(*route);
    }
    last
}

/// Whether a path of a train may go on with a route.
pub(crate) fn may_go_on_with(
    interlocking: &Interlocking,
    train: TrainNo,
    path: &[RouteNo],
    route: RouteNo,
) -> bool
    ensures { result ≡ on interlocking.now may_go_on_with train path.now route }
{
    begins_well(interlocking, train, last_of(path), route)
        && are_all_apart(&interlocking.routes, path, route)
}

/// How many nodes the route of a number has.
fn node_count(routes: &RouteTable, route: RouteNo) -> usize
    ensures { result ≡ length (route_at routes.now route).nodes }
{
    match entry(routes.as_slice(), route.0 as usize) {
        Some(route) => route.nodes.len(),
        None => 0,
    }
}

/// What is left of a number after the nodes of a way; none where they are more.
fn left_after(routes: &RouteTable, way: &[RouteNo], number: usize) -> Option<usize>
    ensures some { IfSome result (λ left. left + nodes_of routes.now way.now ≡ number) }
    ensures none { result ≡ None → number < nodes_of routes.now way.now }
{
    let mut left = number;
    for route in way {
        let nodes = node_count(routes, *route);
        if nodes > left {
            return None;
        }
        left -= nodes;
    }
    Some(left)
}

/// Whether ways have more nodes than so many.
pub(crate) fn have_more_nodes(routes: &RouteTable, ways: &[List<RouteNo>], most: usize) -> bool
    ensures { result ≡ true → most < sum_by (nodes_of routes.now) ways.now }
{
    let mut left = most;
    for way in ways {
        match left_after(routes, way.as_slice(), left) {
            Some(number) => left = number,
            None => return true,
        }
    }
    false
}
