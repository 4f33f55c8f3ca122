//! The walks of a leg, by the numbers of their routes.

ghost use Rattle.std.specs.Prelude.{◌≡◌, ◌++◌, ◌∷◌, All, IfOk, OnOk, flat_map, length};
ghost use Rattle.rail_base.specs.Routes.{IsRoute};
ghost use Rattle.bound_ticks.specs.Walks.{IsPlaceOf, IsWalk, first_routes, longer_by, precedes_walk, walks_by_number};

use bound_spec::{Leg, Place, routes_of};
use interlocking::goes_on;
use rail_base::list::List;
use rail_base::route::{RouteNo, RouteTable, route_at};
use std::alloc::{AllocError, Global};

/// The routes of the first place of the first of some legs.
pub fn first_routes(legs: &[Leg]) -> &[RouteNo]
    ensures { result.now ≡ first_routes legs.now }
{
    match legs {
        [] => &[],
        [leg, ..] => match leg.places.as_slice() {
            [] => &[],
            [place, ..] => routes_of(place),
        },
    }
}

/// The walks over places, each of one route of each place.
pub(crate) fn walks_of(
    alloc: Global,
    routes: &RouteTable,
    places: &[Place],
) -> Result<Vec<List<RouteNo>>, AllocError>
    requires { All (IsPlaceOf routes.now) places.now }
    ensures walks { IfOk result (λ walks. walks.items ≡ walks_by_number routes.now places.now) }
    ensures named { IfOk result (λ walks. All (IsWalk routes.now (length places.now)) walks.items) }
{
    match places {
        [] => {
            let mut walks = Vec::new(alloc);
            walks.push(List::new(alloc))?;
            Ok(walks)
        }
        [place, rest @ ..] => {
            let later = walks_of(alloc, routes, rest)?;
            longer_walks(alloc, routes, routes_of(place), &later)
        }
    }
}

/// Whether the first route of a walk, if there is one, goes on where a route ends.
fn precedes_walk(routes: &RouteTable, route: RouteNo, walk: &[RouteNo]) -> bool
    requires route { IsRoute routes.now route }
    requires walk { All (IsRoute routes.now) walk.now }
    ensures { result ≡ precedes_walk routes.now route walk.now }
{
    match walk {
        [] => true,
        [next, ..] => goes_on(
            route_at(routes, route).finish,
            route_at(routes, *next).start,
        ),
    }
}

/// A walk with a route before it.
fn walk_with(alloc: Global, route: RouteNo, walk: &[RouteNo]) -> Result<List<RouteNo>, AllocError>
    ensures { IfOk result (λ longer. longer ≡ route ∷ walk.now) }
{
    let mut longer = Vec::new(alloc);
    longer.push(route)?;
    longer.extend_from_slice(walk)?;
    Ok(List::from_vec(longer))
}

/// Adds the walks that a route makes longer.
fn push_longer(
    alloc: Global,
    walks: &mut Vec<List<RouteNo>>,
    routes: &RouteTable,
    route: RouteNo,
    later: &[List<RouteNo>],
) -> Result<(), AllocError>
    requires route { IsRoute routes.now route }
    requires later { All (All (IsRoute routes.now)) later.now }
    ensures { OnOk result (walks.new.items ≡ walks.old.items ++ longer_by routes.now later.now route) }
{
    for walk in later {
        if precedes_walk(routes, route, walk.as_slice()) {
            walks.push(walk_with(alloc, route, walk.as_slice())?)?;
        }
    }
    Ok(())
}

/// The walks that the routes of a place make longer.
fn longer_walks(
    alloc: Global,
    routes: &RouteTable,
    place: &[RouteNo],
    later: &[List<RouteNo>],
) -> Result<Vec<List<RouteNo>>, AllocError>
    requires place { All (IsRoute routes.now) place.now }
    requires later { All (All (IsRoute routes.now)) later.now }
    ensures { IfOk result (λ walks. walks.items ≡ flat_map (longer_by routes.now later.now) place.now) }
{
    let mut walks = Vec::new(alloc);
    for route in place {
        push_longer(alloc, &mut walks, routes, *route, later)?;
    }
    Ok(walks)
}
