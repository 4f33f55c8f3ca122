//! The routes of places and legs, and the trains of legs.

ghost use Rattle.std.specs.Prelude.{◌≡◌};
ghost use Rattle.bound_spec.specs.Certificates.{first_of_leg, last_of_leg, routes_of_place};
ghost use Rattle.bound_spec.specs.Validity.{first_leg, last_leg};

use crate::{Leg, Place};
use rail_base::route::RouteNo;
use rail_base::station::TrainNo;
use std::slice::from_ref;

/// The routes of a place: the train uses one of them.
pub fn routes_of(place: &Place) -> &[RouteNo]
    ensures { result.now ≡ routes_of_place place.now }
{
    match place {
        Place::Named { route } => from_ref(route),
        Place::Among { routes, .. } => routes.as_slice(),
    }
}

/// The routes of the first place of a leg.
pub fn first_routes(leg: &Leg) -> &[RouteNo]
    ensures { result.now ≡ routes_of_place (first_of_leg leg.now) }
{
    match leg.places.as_slice().first() {
        Some(place) => routes_of(place),
        None => &[],
    }
}

/// The routes of the last place of a leg.
pub fn last_routes(leg: &Leg) -> &[RouteNo]
    ensures { result.now ≡ routes_of_place (last_of_leg leg.now) }
{
    match leg.places.as_slice().last() {
        Some(place) => routes_of(place),
        None => &[],
    }
}

/// The train of the first leg; 0 where there is none.
pub fn first_train(legs: &[Leg]) -> TrainNo
    ensures { result ≡ (first_leg legs.now).train }
{
    match legs.first() {
        Some(leg) => leg.train,
        None => TrainNo(0),
    }
}

/// The train of the last leg; 0 where there is none.
pub fn last_train(legs: &[Leg]) -> TrainNo
    ensures { result ≡ (last_leg legs.now).train }
{
    match legs.last() {
        Some(leg) => leg.train,
        None => TrainNo(0),
    }
}
