//! Whether the first leg begins with the visit from which ticks are counted.

ghost use Rattle.std.specs.Prelude.{◌≡◌, ◌∷◌, [], ◌&&◌, ◌==◌, ◌≤◌, IfOk, not, true};
ghost use Rattle.std.specs.List.{list_all};
ghost use Rattle.rail_base.specs.Numbering.{after_first};
ghost use Rattle.rail_spec.specs.Plans.{exits, length_mm};
ghost use Rattle.rail_spec.specs.Places.{may_visit};
ghost use Rattle.cone_spec.specs.Validity.{from_boundary};
ghost use Rattle.bound_spec.specs.Certificates.{first_in};
ghost use Rattle.bound_spec.specs.Validity.{first_leg};
ghost use Rattle.bound_design.specs.Covered.{begins_at, is_made_where_it_exits, origin_covered_in};
ghost use Rattle.bound_design.specs.Named.{leg_fits, place_fits, requirement_fits};

use crate::before::is_first;
use crate::reaching::first_place;
use crate::requirement::first_visit;
use crate::tracks::{open_routes, routes_of_numbers};
use crate::visit::{Visit, visit_of};
use bound_spec::{Bound, Leg, Origin, Place, routes_of};
use interlocking::Interlocking;
use rail_base::route::Route;
use rail_base::station::{NodeNo, TrainNo};
use std::alloc::{AllocError, Global};

/// Whether the first leg begins on a route of the visit from which the ticks are counted.
pub(crate) fn origin_covered(
    alloc: Global,
    interlocking: &Interlocking,
    bound: &Bound,
    first: &Leg,
) -> Result<bool, AllocError>
    requires requirement { requirement_fits interlocking.now bound.now.requirement ≡ true }
    requires leg { leg_fits interlocking.now first.now ≡ true }
    requires first_leg { first_leg bound.now.legs ≡ first.now }
    ensures { IfOk result (λ b. b ≡ origin_covered_in interlocking.now bound.now) }
{
    match &bound.origin {
        Origin::Visit => match first_visit(interlocking, bound.requirement) {
            Some(visit) => {
                let begins = begins_with(alloc, interlocking, visit, first_place(first))?;
                Ok(begins)
            }
            None => Ok(true),
        },
        Origin::Start | Origin::FirstTick | Origin::Cone { .. } => Ok(true),
    }
}

/// How far from a route's start, in mm, the first of these nodes is in the visit's set, or 0 where none is.
fn first_offset(visit: &Visit, nodes: &[(NodeNo, i64)]) -> u64
    ensures { result ≡ first_in visit.now.list.now nodes.now }
{
    for place in nodes {
        if visit.set.contains(place.0.0) {
            return place.1.unsigned_abs();
        }
    }
    0
}

/// How far from a route's start a node of the visit is at the end of an edge, in mm, or 0 where none is.
fn offset(visit: &Visit, route: &Route) -> u64
    ensures { result ≡ first_in visit.now.list.now (after_first route.now.nodes) }
{
    match route.nodes.as_slice().split_first() {
        Some((_, later)) => first_offset(visit, later),
        None => 0,
    }
}

/// Whether a route exits, and the visit is made at its end.
fn is_at_exit(visit: &Visit, route: &Route) -> bool
    ensures { result
        ≡ (exits route.now && (first_in visit.now.list.now (after_first route.now.nodes) == length_mm route.now)) }
{
    route.exits() && offset(visit, route) == route.length_mm()
}

/// Whether the visit may be made on none of the routes but at exits.
fn none_is_made_before(visit: &Visit, routes: &[&Route]) -> bool
    ensures { result ≡ list_all (λ r. not (may_visit visit.now.number visit.now.list.now r.now
        && not (exits r.now && (first_in visit.now.list.now (after_first r.now.nodes) == length_mm r.now))))
        routes.now }
{
    routes.iter().all(|route| !(visit.may_visit(route) && !is_at_exit(visit, route)))
}

/// Whether the visit can only be made where the path ends.
fn is_made_where_it_exits(
    alloc: Global,
    interlocking: &Interlocking,
    visit: &Visit,
) -> Result<bool, AllocError>
    ensures { IfOk result (λ b. b ≡ is_made_where_it_exits interlocking.now visit.now.number visit.now.list.now) }
{
    let open = open_routes(alloc, interlocking, &[], &[])?;
    Ok(none_is_made_before(visit, open.as_slice()))
}

/// Whether all routes start at boundaries.
fn all_first(routes: &[&Route]) -> bool
    ensures { result ≡ list_all (λ r. from_boundary (r.now ∷ [])) routes.now }
{
    routes.iter().all(|route| is_first(route))
}

/// Whether the visit may be made on each route.
fn is_made_on_all(visit: &Visit, routes: &[&Route]) -> bool
    ensures { result ≡ list_all (λ r. may_visit visit.now.number visit.now.list.now r.now) routes.now }
{
    routes.iter().all(|route| visit.may_visit(route))
}

/// Whether a train that begins a leg with a route of the place makes the visit no later than where it can on that
/// route.
fn begins_with(
    alloc: Global,
    interlocking: &Interlocking,
    visit: (TrainNo, u32),
    place: &Place,
) -> Result<bool, AllocError>
    requires { place_fits interlocking.now place.now ≡ true }
    ensures { IfOk result (λ b. b ≡ begins_at interlocking.now visit.0 visit.1 place.now) }
{
    let routes = routes_of_numbers(alloc, &interlocking.routes, routes_of(place))?;
    if visit.1 <= 1 {
        return Ok(all_first(routes.as_slice()));
    }
    let station = &interlocking.design.station;
    let made = visit_of(alloc, station, visit.0, visit.1 as usize)?;
    if !is_made_on_all(&made, routes.as_slice()) {
        return Ok(false);
    }
    if visit.1 == 2 {
        return Ok(true);
    }
    let last = is_made_where_it_exits(alloc, interlocking, &made)?;
    Ok(last)
}
