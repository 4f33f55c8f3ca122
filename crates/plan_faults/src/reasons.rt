//! Why a train's command in a step is not right after the steps before it.

ghost use Rattle.std.specs.Prelude.{◌≡◌, Some, find, option_map, IfOk};
ghost use Rattle.rail_base.specs.Stations.{first_visit, train_of};
ghost use Rattle.rail_spec.specs.Plans.{is_start, starts_in};
ghost use Rattle.rail_base.specs.Routes.{route_at};
ghost use Rattle.rail_plan.specs.WellFormed.{begins_well, last_of_list};
ghost use Rattle.plan_faults.specs.Reasons.{again, end_alike, misled, reason_in, reason_of, reason_of_route, start_alike};

use crate::commands::{given_in, path_before};
use crate::routes::{finish_of, start_of};
use interlocking::{Interlocking, end_at_one_signal, goes_on, starts_in};
use rail_base::design::Design;
use rail_base::names::entry;
use rail_base::plan::Plan;
use rail_base::route::{RouteNo, RouteTable, Start};
use rail_base::station::TrainNo;
use std::alloc::{AllocError, Global};

/// What is wrong with the routes of a train: first the route that the step gives.
#[derive(Clone, Copy, Debug, PartialEq, Eq)]
pub enum Reason {
    /// The step gives the train another route too.
    Second(RouteNo, RouteNo),
    /// The train's first route does not start at its first visit.
    Begins(RouteNo),
    /// The route does not start where the train's route before ends.
    GoesOn(RouteNo, RouteNo),
    /// The route starts where an earlier one does.
    StartsAgain(RouteNo, RouteNo),
    /// The route ends at the signal at which an earlier one does.
    EndsAgain(RouteNo, RouteNo),
}

/// Whether both are one place.
fn is_start(start: Start, other: Start) -> bool
    ensures { result ≡ is_start start other }
{
    match (start, other) {
        (Start::Boundary(node), Start::Boundary(end)) => node.0 == end.0,
        (Start::Signal(signal), Start::Signal(end)) => signal.0 == end.0,
        (Start::Boundary(_), Start::Signal(_)) => false,
        (Start::Signal(_), Start::Boundary(_)) => false,
    }
}

/// Whether two routes start at one place.
fn start_alike(routes: &RouteTable, route: RouteNo, other: RouteNo) -> bool
    ensures { result ≡ start_alike routes.now route other }
{
    is_start(start_of(routes, other), start_of(routes, route))
}

/// Whether they end at one signal.
fn end_alike(routes: &RouteTable, route: RouteNo, other: RouteNo) -> bool
    ensures { result ≡ end_alike routes.now route other }
{
    end_at_one_signal(finish_of(routes, other), finish_of(routes, route))
}

/// The first of these that starts where a route does.
fn starts_alike(routes: &RouteTable, before: &[RouteNo], route: RouteNo) -> Option<RouteNo>
    ensures { result ≡ find (start_alike routes.now route) before.now }
{
    for other in before {
        if start_alike(routes, route, *other) {
            return Some(*other);
        }
    }
    None
}

/// The first of these that ends at the signal where a route does.
fn ends_alike(routes: &RouteTable, before: &[RouteNo], route: RouteNo) -> Option<RouteNo>
    ensures { result ≡ find (end_alike routes.now route) before.now }
{
    for other in before {
        if end_alike(routes, route, *other) {
            return Some(*other);
        }
    }
    None
}

/// A route before that starts where this one does, or ends at its signal.
fn again(routes: &RouteTable, before: &[RouteNo], route: RouteNo) -> Option<Reason>
    ensures { result ≡ again routes.now before.now route }
{
    match starts_alike(routes, before, route) {
        Some(other) => Some(Reason::StartsAgain(route, other)),
        None => match ends_alike(routes, before, route) {
            Some(other) => Some(Reason::EndsAgain(route, other)),
            None => None,
        },
    }
}

/// The last of some routes.
fn last_of(routes: &[RouteNo]) -> Option<RouteNo>
    ensures { result ≡ last_of_list routes.now }
{
    let mut last = None;
    for route in routes {
        last = Some(*route);
    }
    last
}

/// Whether a start is a boundary of the train's first visit.
fn starts_there(design: &Design, train: TrainNo, start: Start) -> bool
    ensures { result ≡ starts_in (first_visit (train_of design.now.station train)) start }
{
    match entry(design.station.trains.as_slice(), train.0 as usize) {
        Some(train) => match train.visits.as_slice().first() {
            Some(nodes) => starts_in(nodes.as_slice(), start),
            None => false,
        },
        None => false,
    }
}

/// Whether a route starts where the last one ends, or at the train's first visit where there is none.
fn begins_well(
    interlocking: &Interlocking,
    train: TrainNo,
    last: Option<RouteNo>,
    route: RouteNo,
) -> bool
    ensures { let i = interlocking.now in
        result ≡ begins_well (first_visit (train_of i.design.station train)) (option_map (route_at i.routes) last)
        (route_at i.routes route) }
{
    let routes = &interlocking.routes;
    match last {
        Some(last) => goes_on(finish_of(routes, last), start_of(routes, route)),
        None => starts_there(&interlocking.design, train, start_of(routes, route)),
    }
}

/// That a route does not start where it is to.
fn misled(last: Option<RouteNo>, route: RouteNo) -> Reason
    ensures { result ≡ misled last route }
{
    match last {
        Some(last) => Reason::GoesOn(route, last),
        None => Reason::Begins(route),
    }
}

/// Why a path can't go on with a route.
fn reason_of_route(
    interlocking: &Interlocking,
    train: TrainNo,
    before: &[RouteNo],
    route: RouteNo,
) -> Option<Reason>
    ensures { let i = interlocking.now in
        result ≡ reason_of_route i.design.station i.routes train before.now route }
{
    let last = last_of(before);
    if begins_well(interlocking, train, last, route) {
        again(&interlocking.routes, before, route)
    } else {
        Some(misled(last, route))
    }
}

/// Why it can't with the routes of one step.
fn reason_of(
    interlocking: &Interlocking,
    train: TrainNo,
    before: &[RouteNo],
    given: &[RouteNo],
) -> Option<Reason>
    ensures { let i = interlocking.now in
        result ≡ reason_of i.design.station i.routes train before.now given.now }
{
    match given {
        [] => None,
        [route] => reason_of_route(interlocking, train, before, *route),
        [route, other, ..] => Some(Reason::Second(*route, *other)),
    }
}

/// Why it can't with those that the step of a number gives.
pub fn reason_in(
    alloc: Global,
    interlocking: &Interlocking,
    plan: &Plan,
    train: TrainNo,
    number: usize,
) -> Result<Option<Reason>, AllocError>
    ensures { let i = interlocking.now in
        IfOk result (λ reason. reason ≡ reason_in i.design.station i.routes train plan.now.steps number) }
{
    let before = path_before(alloc, plan, train, number)?;
    let given = given_in(alloc, plan, train, number)?;
    Ok(reason_of(interlocking, train, before.as_slice(), given.as_slice()))
}
