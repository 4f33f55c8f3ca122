//! Whether routes make a way from a boundary.

ghost use Rattle.std.specs.Prelude.{◌≡◌, All, map, not};
ghost use Rattle.std.specs.List.{list_any};
ghost use Rattle.rail_base.specs.Members.{all_neighbors, all_pairs};
ghost use Rattle.rail_base.specs.Routes.{IsRoute, route_at};
ghost use Rattle.rail_spec.specs.Plans.{goes_on, is_start};
ghost use Rattle.cone_spec.specs.Validity.{from_boundary, is_walk};

use interlocking::goes_on;
use rail_base::route::{Route, RouteNo, RouteTable, Start, route_at};

/// Whether the routes stand in a row, from a boundary, and use no start twice.
pub fn is_walk(routes: &RouteTable, path: &[RouteNo]) -> bool
    requires { All (IsRoute routes.now) path.now }
    ensures { result ≡ is_walk (map (route_at routes.now) path.now) }
{
    is_from_boundary(routes, path) && is_connected(routes, path) && starts_differ(routes, path)
}

/// Whether the first route starts at a boundary.
fn is_from_boundary(routes: &RouteTable, path: &[RouteNo]) -> bool
    requires { All (IsRoute routes.now) path.now }
    ensures { result ≡ from_boundary (map (route_at routes.now) path.now) }
{
    match path.first() {
        Some(first) => matches!(route_at(routes, *first).start, Start::Boundary(_)),
        None => false,
    }
}

/// Whether each route starts at the signal where the one before ends.
fn is_connected(routes: &RouteTable, path: &[RouteNo]) -> bool
    requires { All (IsRoute routes.now) path.now }
    ensures { result ≡ all_neighbors (λ r q. goes_on r.finish q.start) (map (route_at routes.now) path.now) }
{
    for index in 1..path.len() {
        let last = route_at(routes, path[index - 1]);
        let next = route_at(routes, path[index]);
        if !goes_on(last.finish, next.start) {
            return false;
        }
    }
    true
}

/// Whether one of the routes starts where this one does.
fn starts_again(routes: &RouteTable, path: &[RouteNo], route: &Route) -> bool
    requires { All (IsRoute routes.now) path.now }
    ensures { result ≡ list_any (λ q. is_start route.now.start q.start) (map (route_at routes.now) path.now) }
{
    for other in path {
        if route_at(routes, *other).start == route.start {
            return true;
        }
    }
    false
}

/// Whether no two routes have one start.
fn starts_differ(routes: &RouteTable, path: &[RouteNo]) -> bool
    requires { All (IsRoute routes.now) path.now }
    ensures { result ≡ all_pairs (λ r q. not (is_start r.start q.start)) (map (route_at routes.now) path.now) }
{
    for index in 0..path.len() {
        let route = route_at(routes, path[index]);
        if starts_again(routes, &path[..index], route) {
            return false;
        }
    }
    true
}
