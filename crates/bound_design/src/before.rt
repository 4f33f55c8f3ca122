//! Whether a train that uses a route of a place has used one of the place before it.

ghost use Rattle.std.specs.Prelude.{◌≡◌, ◌∷◌, [], ◌&&◌, All, IfOk, not, true};
ghost use Rattle.std.specs.List.{list_all};
ghost use Rattle.rail_base.specs.Members.{all_neighbors};
ghost use Rattle.rail_base.specs.Routes.{IsRoute};
ghost use Rattle.rail_spec.specs.Plans.{goes_on};
ghost use Rattle.cone_spec.specs.Validity.{from_boundary};
ghost use Rattle.bound_design.specs.Covered.{comes_before_in, follows_among, follows_named, legs_follow};
ghost use Rattle.bound_design.specs.Covering.{leads_into as leads};
ghost use Rattle.bound_design.specs.Named.{leg_fits, place_fits};

use crate::tracks::{leads_into, open_routes, routes_of_numbers, starts_of};
use bound_spec::{Leg, Place, routes_of};
use interlocking::{Interlocking, goes_on};
use number_sets::NumberSet;
use rail_base::route::{Finish, Route, RouteNo, Start};
use std::alloc::{AllocError, Global};

/// Whether a route starts at a boundary.
pub(crate) fn is_first(route: &Route) -> bool
    ensures { result ≡ from_boundary (route.now ∷ []) }
{
    matches!(route.start, Start::Boundary(_))
}

/// Whether it is so on each leg.
pub(crate) fn legs_follow(
    alloc: Global,
    interlocking: &Interlocking,
    legs: &[Leg],
) -> Result<bool, AllocError>
    requires { list_all (leg_fits interlocking.now) legs.now ≡ true }
    ensures { IfOk result (λ b. b ≡ legs_follow interlocking.now legs.now) }
{
    for leg in legs {
        if !places_follow(alloc, interlocking, leg.places.as_slice())? {
            return Ok(false);
        }
    }
    Ok(true)
}

/// Whether none of the routes starts at a boundary.
fn none_is_first(routes: &[&Route]) -> bool
    ensures { result ≡ list_all (λ r. not (from_boundary (r.now ∷ []))) routes.now }
{
    routes.iter().all(|route| !is_first(route))
}

/// Whether all routes start where another ends.
fn all_go_on(finish: Finish, routes: &[&Route]) -> bool
    ensures { result ≡ list_all (λ r. goes_on finish r.now.start) routes.now }
{
    routes.iter().all(|route| goes_on(finish, route.start))
}

/// Whether none of the routes ends at a signal of the set.
fn none_leads_into(set: &NumberSet, routes: &[&Route]) -> bool
    ensures { result ≡ list_all (λ r. not (leads set.now r.now.finish)) routes.now }
{
    routes.iter().all(|route| !leads_into(set, route.finish))
}

/// Whether all of the next routes go on where a route ends.
fn follow_named(
    alloc: Global,
    interlocking: &Interlocking,
    route: RouteNo,
    next: &[RouteNo],
) -> Result<bool, AllocError>
    requires route { IsRoute interlocking.now.routes route }
    requires next { All (IsRoute interlocking.now.routes) next.now }
    ensures { IfOk result (λ b. b ≡ follows_named interlocking.now route next.now) }
{
    let finish = interlocking.route(route).finish;
    let routes = routes_of_numbers(alloc, &interlocking.routes, next)?;
    Ok(all_go_on(finish, routes.as_slice()))
}

/// Whether none of the next routes is the first of a path, and none goes on where a route ends that is neither one of
/// these nor kept out.
fn follow_among(
    alloc: Global,
    interlocking: &Interlocking,
    own: &[RouteNo],
    kept: &[RouteNo],
    next: &[RouteNo],
) -> Result<bool, AllocError>
    requires own { All (IsRoute interlocking.now.routes) own.now }
    requires kept { All (IsRoute interlocking.now.routes) kept.now }
    requires next { All (IsRoute interlocking.now.routes) next.now }
    ensures { IfOk result (λ b. b ≡ follows_among interlocking.now own.now kept.now next.now) }
{
    let routes = routes_of_numbers(alloc, &interlocking.routes, next)?;
    if !none_is_first(routes.as_slice()) {
        return Ok(false);
    }
    let starts = starts_of(alloc, &interlocking.routes, next)?;
    let open = open_routes(alloc, interlocking, own, kept)?;
    Ok(none_leads_into(&starts, open.as_slice()))
}

/// Whether a train that uses a route of the second place has used one of the first just before.
fn comes_before(
    alloc: Global,
    interlocking: &Interlocking,
    place: &Place,
    next: &Place,
) -> Result<bool, AllocError>
    requires place { place_fits interlocking.now place.now ≡ true }
    requires next { place_fits interlocking.now next.now ≡ true }
    ensures { IfOk result (λ b. b ≡ comes_before_in interlocking.now place.now next.now) }
{
    let next = routes_of(next);
    match place {
        Place::Named { route } => {
            let follow = follow_named(alloc, interlocking, *route, next)?;
            Ok(follow)
        }
        Place::Among { routes, without } => {
            let own = routes.as_slice();
            let kept = without.as_slice();
            let follow = follow_among(alloc, interlocking, own, kept, next)?;
            Ok(follow)
        }
    }
}

/// Whether each place comes before the next.
fn places_follow(
    alloc: Global,
    interlocking: &Interlocking,
    places: &[Place],
) -> Result<bool, AllocError>
    requires { list_all (place_fits interlocking.now) places.now ≡ true }
    ensures { IfOk result (λ b. b ≡ all_neighbors (comes_before_in interlocking.now) places.now) }
{
    for index in 1..places.len() {
        if !comes_before(alloc, interlocking, &places[index - 1], &places[index])? {
            return Ok(false);
        }
    }
    Ok(true)
}
