//! On which routes a train makes its visits.

ghost use Rattle.std.specs.Prelude.{◌≡◌, ◌&&◌, ◌==◌, All, IfOk, not, true};
ghost use Rattle.std.specs.List.{list_all, list_any};
ghost use Rattle.rail_base.specs.Routes.{IsRoute};
ghost use Rattle.rail_spec.specs.Requirements.{visit_numbers};
ghost use Rattle.rail_spec.specs.Places.{may_visit};
ghost use Rattle.bound_spec.specs.Certificates.{nodes_of_visit};
ghost use Rattle.bound_spec.specs.Validity.{ends_at_signal};
ghost use Rattle.bound_design.specs.Covered.{is_used_among, is_used_in, is_visited_among, is_visited_named};
ghost use Rattle.bound_design.specs.Covered.{is_visited_in};
ghost use Rattle.bound_design.specs.Named.{place_fits};

use crate::before::is_first;
use crate::tracks::open_routes;
use crate::visit::{Visit, visit_of, visits_of};
use bound_spec::Place;
use interlocking::Interlocking;
use rail_base::route::{Finish, Route, RouteNo};
use rail_base::station::{Station, TrainNo};
use std::alloc::{AllocError, Global};

/// Whether a train uses a route of a place: the named one, or else one of those on which it makes some visit.
pub(crate) fn is_used(
    alloc: Global,
    interlocking: &Interlocking,
    train: TrainNo,
    place: &Place,
) -> Result<bool, AllocError>
    requires { place_fits interlocking.now place.now ≡ true }
    ensures { IfOk result (λ b. b ≡ is_used_in interlocking.now train place.now) }
{
    match place {
        Place::Named { .. } => Ok(true),
        Place::Among { routes, without } => {
            let own = routes.as_slice();
            let kept = without.as_slice();
            let used = is_used_among(alloc, interlocking, train, own, kept)?;
            Ok(used)
        }
    }
}

/// Whether a visit is not made before a route of a place.
pub(crate) fn is_visited(
    alloc: Global,
    interlocking: &Interlocking,
    train: TrainNo,
    number: usize,
    place: &Place,
) -> Result<bool, AllocError>
    requires { place_fits interlocking.now place.now ≡ true }
    ensures { IfOk result (λ b. b ≡ is_visited_in interlocking.now train number place.now) }
{
    let visit = visit_of(alloc, &interlocking.design.station, train, number)?;
    match place {
        Place::Named { route } => {
            let visited = is_visited_named(alloc, interlocking, &visit, *route)?;
            Ok(visited)
        }
        Place::Among { routes, without } => {
            let own = routes.as_slice();
            let kept = without.as_slice();
            let visited = is_visited_among(alloc, interlocking, &visit, own, kept)?;
            Ok(visited)
        }
    }
}

/// Whether a visit may be made on none of the routes.
fn is_missed(visit: &Visit, routes: &[&Route]) -> bool
    ensures { result ≡ list_all (λ r. not (may_visit visit.now.number visit.now.list.now r.now)) routes.now }
{
    routes.iter().all(|route| !visit.may_visit(route))
}

/// Whether some visit of a train may be made on none of the routes.
fn misses_some(
    alloc: Global,
    station: &Station,
    train: TrainNo,
    routes: &[&Route],
) -> Result<bool, AllocError>
    ensures { IfOk result (λ b. b ≡ list_any (λ k. list_all (λ r.
        not (may_visit k (nodes_of_visit station.now train k) r.now)) routes.now) (visit_numbers station.now train)) }
{
    let visits = visits_of(station, train);
    for number in 1..visits.len() + 1 {
        let visit = visit_of(alloc, station, train, number)?;
        if is_missed(&visit, routes) {
            return Ok(true);
        }
    }
    Ok(false)
}

/// Whether some visit of a train can be made on none but these routes and those that are kept out.
fn is_used_among(
    alloc: Global,
    interlocking: &Interlocking,
    train: TrainNo,
    own: &[RouteNo],
    kept: &[RouteNo],
) -> Result<bool, AllocError>
    requires own { All (IsRoute interlocking.now.routes) own.now }
    requires kept { All (IsRoute interlocking.now.routes) kept.now }
    ensures { IfOk result (λ b. b ≡ is_used_among interlocking.now train own.now kept.now) }
{
    let open = open_routes(alloc, interlocking, own, kept)?;
    let used = misses_some(alloc, &interlocking.design.station, train, open.as_slice())?;
    Ok(used)
}

/// Whether a visit can be made on none but these routes and those that are kept out.
fn is_visited_among(
    alloc: Global,
    interlocking: &Interlocking,
    visit: &Visit,
    own: &[RouteNo],
    kept: &[RouteNo],
) -> Result<bool, AllocError>
    requires own { All (IsRoute interlocking.now.routes) own.now }
    requires kept { All (IsRoute interlocking.now.routes) kept.now }
    ensures { IfOk result (λ b. b
        ≡ is_visited_among interlocking.now visit.now.number visit.now.list.now own.now kept.now) }
{
    let open = open_routes(alloc, interlocking, own, kept)?;
    Ok(is_missed(visit, open.as_slice()))
}

/// Whether a route ends at a signal.
fn ends_at_signal(finish: Finish) -> bool
    ensures { result ≡ ends_at_signal finish }
{
    matches!(finish, Finish::Signal(_))
}

/// Whether on none of the routes that go on a visit may be made.
fn is_made_where_paths_end(visit: &Visit, routes: &[&Route]) -> bool
    ensures { result ≡ list_all (λ r.
        not (may_visit visit.now.number visit.now.list.now r.now && ends_at_signal r.now.finish)) routes.now }
{
    routes.iter().all(|route| !(visit.may_visit(route) && ends_at_signal(route.finish)))
}

/// Whether a visit can be made on no route that may come earlier than the named one.
fn is_visited_named(
    alloc: Global,
    interlocking: &Interlocking,
    visit: &Visit,
    route: RouteNo,
) -> Result<bool, AllocError>
    requires { IsRoute interlocking.now.routes route }
    ensures { IfOk result (λ b. b ≡ is_visited_named interlocking.now visit.now.number visit.now.list.now route) }
{
    if is_first(interlocking.route(route)) {
        return Ok(true);
    }
    let open = open_routes(alloc, interlocking, &[route], &[])?;
    Ok(is_made_where_paths_end(visit, open.as_slice()))
}
