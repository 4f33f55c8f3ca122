//! What is asked of routes by numbers that a design may not have.

use bound_chains::known::route;
use interlocking::{Interlocking, goes_on};
use rail_base::route::{RouteNo, Start};

/// Whether a route is one of these.
pub(crate) fn has_route(routes: &[RouteNo], route: RouteNo) -> bool {
    routes.iter().any(|other| *other == route)
}

/// Whether a route starts at a boundary.
pub(crate) fn starts_at_boundary(interlocking: &Interlocking, number: RouteNo) -> bool {
    match route(interlocking, number) {
        Some(route) => matches!(route.start, Start::Boundary(_)),
        None => false,
    }
}

/// Whether two routes start at one place.
pub(crate) fn starts_like(interlocking: &Interlocking, one: RouteNo, other: RouteNo) -> bool {
    match (route(interlocking, one), route(interlocking, other)) {
        (Some(one), Some(other)) => one.start == other.start,
        _ => false,
    }
}

/// Whether a route goes on to a walk, if that has routes.
pub(crate) fn leads_to(interlocking: &Interlocking, number: RouteNo, walk: &[RouteNo]) -> bool {
    let Some(next) = walk.first() else {
        return true;
    };
    match (route(interlocking, number), route(interlocking, *next)) {
        (Some(one), Some(other)) => goes_on(one.finish, other.start),
        _ => false,
    }
}
