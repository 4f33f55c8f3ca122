//! The ends of walks, and which routes can follow them.

ghost use Rattle.std.specs.Prelude.{◌≡◌, ◌<◌, ◌^◌, All, false, map};
ghost use Rattle.std.specs.List.{list_any};
ghost use Rattle.rail_base.specs.Routes.{IsRoute, route_at, exits};
ghost use Rattle.rail_spec.specs.Plans.{goes_on, is_start};
ghost use Rattle.cone_spec.specs.Clauses.{goes_further};
ghost use Rattle.cone_spec.specs.Validity.{from_boundary};
ghost use Rattle.free_spec.specs.Legs.{is_dead};
ghost use Rattle.rail_course.specs.Tracks.{path_length};

use interlocking::goes_on;
use rail_base::route::{Finish, Route, RouteNo, RouteTable, Start, route_at};

/// Whether a route starts at the signal where a walk ends, which is not a start of one of the walk's routes.
pub fn goes_further(routes: &RouteTable, walk: &[RouteNo], next: &Route) -> bool
    requires { All (IsRoute routes.now) walk.now }
    ensures { result ≡ goes_further (map (route_at routes.now) walk.now) next.now }
{
    is_next(routes, walk, next) && starts_no_other(routes, walk, next)
}

/// Whether no train goes past the end of a route.
pub(crate) fn is_dead(finish: Finish) -> bool
    ensures { result ≡ is_dead finish }
{
    matches!(finish, Finish::DeadEnd(_))
}

/// Whether a walk starts at a boundary.
pub(crate) fn from_boundary(routes: &RouteTable, walk: &[RouteNo]) -> bool
    requires { All (IsRoute routes.now) walk.now }
    ensures { result ≡ from_boundary (map (route_at routes.now) walk.now) }
{
    match walk.first() {
        Some(first) => matches!(route_at(routes, *first).start, Start::Boundary(_)),
        None => false,
    }
}

/// Whether one of the routes exits.
pub(crate) fn exits(routes: &RouteTable, walk: &[RouteNo]) -> bool
    requires { All (IsRoute routes.now) walk.now }
    ensures { result ≡ list_any exits (map (route_at routes.now) walk.now) }
{
    for number in walk {
        if route_at(routes, *number).exits() {
            return true;
        }
    }
    false
}

/// How long a walk is.
pub(crate) fn length_of(routes: &RouteTable, path: &[RouteNo]) -> u64
    requires named { All (IsRoute routes.now) path.now }
    requires below_2_47 { path_length routes.now path.now < 2 ^ 47 }
    ensures { result ≡ path_length routes.now path.now }
{
    let mut length: u64 = 0;
    for number in path {
        length += route_at(routes, *number).length_mm();
    }
    length
}

/// Whether two routes start at one place.
fn is_start(one: Start, other: Start) -> bool
    ensures { result ≡ is_start one other }
{
    one == other
}

/// Whether a route starts where a walk ends, at a signal.
fn is_next(routes: &RouteTable, walk: &[RouteNo], next: &Route) -> bool
    requires { All (IsRoute routes.now) walk.now }
    ensures { result ≡ false → goes_further (map (route_at routes.now) walk.now) next.now ≡ false }
{
    match walk.last() {
        Some(last) => goes_on(route_at(routes, *last).finish, next.start),
        None => false,
    }
}

/// Whether a route starts at the signal where a walk ends, and no route of the walk starts there.
fn starts_no_other(routes: &RouteTable, walk: &[RouteNo], next: &Route) -> bool
    requires { All (IsRoute routes.now) walk.now }
    ensures { result ≡ goes_further (map (route_at routes.now) walk.now) next.now }
{
    let mut goes = false;
    for number in walk {
        let route = route_at(routes, *number);
        if is_start(route.start, next.start) {
            return false;
        }
        goes = goes_on(route.finish, next.start);
    }
    goes
}
