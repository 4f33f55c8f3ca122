//! Where a train goes no further than its path in a cone.

ghost use Rattle.std.specs.Prelude.{◌≡◌, List, All, false, map};
ghost use Rattle.rail_base.specs.declared.station.Station.{Station};
ghost use Rattle.rail_base.specs.declared.route.Route.{Route};
ghost use Rattle.cone_spec.specs.declared.Cone.{Cone};
ghost use Rattle.rail_base.specs.Routes.{IsRoute, route_at};
ghost use Rattle.rail_spec.specs.Plans.{is_start};
ghost use Rattle.cone_spec.specs.Cones.{all_free, named};
ghost use Rattle.cone_spec.specs.Clauses.{goes_further, is_closed, is_path_violation};

use cone_form::entry_of;
use cone_spec::Cone;
use interlocking::goes_on;
use rail_base::plan::Violation;
use rail_base::route::{Route, RouteNo, RouteTable, Start, route_at};
use rail_base::station::TrainNo;

/// Whether the cone says that a train goes no further than its path.
pub fn is_closed(cone: &Cone, train: TrainNo) -> bool
    ensures { (d : Station) (routes : List Route) → result ≡ is_closed d routes cone.now train }
{
    all_free(cone, train) || is_path_violation(cone.violation)
}

/// Whether a route starts at the signal where a path ends, which is not a start of one of the path's routes.
pub fn goes_further(routes: &RouteTable, path: &[RouteNo], route: &Route) -> bool
    requires { All (IsRoute routes.now) path.now }
    ensures { result ≡ goes_further (map (route_at routes.now) path.now) route.now }
{
    is_next(routes, path, route) && starts_no_other(routes, path, route)
}

/// Whether all commands of a train are free.
fn all_free(cone: &Cone, train: TrainNo) -> bool
    ensures { result ≡ all_free (named cone.now train) }
{
    match entry_of(cone, train) {
        Some(entry) => entry.path.len() <= entry.free as usize,
        None => true,
    }
}

/// Whether the cone is one of a path that misses a visit.
fn is_path_violation(violation: Violation) -> bool
    ensures { (d : Station) (routes : List Route) (k : Cone) → result ≡ is_path_violation d routes k violation }
{
    matches!(violation, Violation::Path { .. })
}

/// Whether two routes start at one place.
fn is_start(one: Start, other: Start) -> bool
    ensures { result ≡ is_start one other }
{
    one == other
}

/// Whether a route starts where a path ends, at a signal.
fn is_next(routes: &RouteTable, path: &[RouteNo], route: &Route) -> bool
    requires { All (IsRoute routes.now) path.now }
    ensures { result ≡ false → goes_further (map (route_at routes.now) path.now) route.now ≡ false }
{
    if path.is_empty() {
        return false;
    }
    let last = route_at(routes, path[path.len() - 1]);
    goes_on(last.finish, route.start)
}

/// The same, by the whole path.
fn starts_no_other(routes: &RouteTable, path: &[RouteNo], route: &Route) -> bool
    requires { All (IsRoute routes.now) path.now }
    ensures { result ≡ goes_further (map (route_at routes.now) path.now) route.now }
{
    let mut goes = false;
    for number in path {
        let last = route_at(routes, *number);
        if is_start(last.start, route.start) {
            return false;
        }
        goes = goes_on(last.finish, route.start);
    }
    goes
}
