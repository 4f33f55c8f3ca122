//! Whether what is required can't happen before the last place of a certificate.

ghost use Rattle.std.specs.Prelude.{◌≡◌, List, IfOk, not, true};
ghost use Rattle.rail_base.specs.declared.station.Station.{Station};
ghost use Rattle.rail_base.specs.declared.route.Route.{Route};
ghost use Rattle.std.specs.List.{list_all};
ghost use Rattle.bound_spec.specs.Certificates.{first_of_leg, last_of_leg};
ghost use Rattle.bound_spec.specs.Validity.{is_empty, is_just};
ghost use Rattle.bound_design.specs.Covered.{is_used_last, reaches_in, uses_before_last};
ghost use Rattle.bound_design.specs.Named.{leg_fits, requirement_fits};

use crate::requirement::{order_of, within_of};
use crate::visits::{is_used, is_visited};
use bound_spec::{Leg, Place, Requirement};
use interlocking::Interlocking;
use rail_base::route::RouteNo;
use std::alloc::{AllocError, Global};

/// The first place of a leg.
pub(crate) fn first_place(leg: &Leg) -> &Place
    requires { not (is_empty leg.now.places) ≡ true }
    ensures { result.now ≡ first_of_leg leg.now }
{
    &leg.places.as_slice()[0]
}

/// Whether that is so with each leg before the last.
pub(crate) fn uses_before_last(
    alloc: Global,
    interlocking: &Interlocking,
    legs: &[Leg],
) -> Result<bool, AllocError>
    requires { list_all (leg_fits interlocking.now) legs.now ≡ true }
    ensures { IfOk result (λ b. b ≡ uses_before_last interlocking.now legs.now) }
{
    for index in 1..legs.len() {
        if !is_used_last(alloc, interlocking, &legs[index - 1])? {
            return Ok(false);
        }
    }
    Ok(true)
}

/// Whether what is required can't happen before the leg's train is on its last place.
pub(crate) fn reaches_target(
    alloc: Global,
    interlocking: &Interlocking,
    requirement: Requirement,
    leg: &Leg,
) -> Result<bool, AllocError>
    requires requirement { requirement_fits interlocking.now requirement ≡ true }
    requires leg { leg_fits interlocking.now leg.now ≡ true }
    ensures { IfOk result (λ b. b ≡ reaches_in interlocking.now requirement leg.now) }
{
    let station = &interlocking.design.station;
    let place = last_place(leg);
    match requirement {
        Requirement::Within { within } => {
            let within = within_of(station, within);
            let number = within.to_visit as usize;
            let visited = is_visited(alloc, interlocking, within.to_train, number, place)?;
            Ok(visited)
        }
        Requirement::Order { order } => {
            let order = order_of(station, order);
            let number = order.first_visit as usize;
            let visited = is_visited(alloc, interlocking, order.first_train, number, place)?;
            Ok(visited)
        }
        Requirement::Visit { train, visit } => {
            let visited = is_visited(alloc, interlocking, train, visit as usize, place)?;
            Ok(visited)
        }
        Requirement::Grant { command } => Ok(is_just(command.route, leg.places.as_slice())),
    }
}

/// The last place of a leg.
fn last_place(leg: &Leg) -> &Place
    requires { not (is_empty leg.now.places) ≡ true }
    ensures { result.now ≡ last_of_leg leg.now }
{
    let places = leg.places.as_slice();
    &places[places.len() - 1]
}

/// Whether the leg's train uses a route of the last place.
fn is_used_last(alloc: Global, interlocking: &Interlocking, leg: &Leg) -> Result<bool, AllocError>
    requires { leg_fits interlocking.now leg.now ≡ true }
    ensures { IfOk result (λ b. b ≡ is_used_last interlocking.now leg.now) }
{
    let place = last_place(leg);
    let used = is_used(alloc, interlocking, leg.train, place)?;
    Ok(used)
}

/// Whether there is one place, that names the route.
fn is_just(route: RouteNo, places: &[Place]) -> bool
    ensures { (d : Station) (routes : List Route) → result ≡ is_just d routes route places.now }
{
    match places {
        [Place::Named { route: named }] => *named == route,
        _ => false,
    }
}
