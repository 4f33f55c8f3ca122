//! The legs of a certificate.

ghost use Rattle.std.specs.Prelude.{◌≡◌, nat_le};
ghost use Rattle.std.specs.List.{list_all};
ghost use Rattle.bound_spec.specs.Validity.{most_places, places_of};
ghost use Rattle.bound_design.specs.Named.{leg_fits, place_fits};

use crate::lists::is_empty;
use crate::places::place_in_design;
use crate::requirement::is_one_of;
use bound_spec::{Leg, Place};
use interlocking::Interlocking;

/// How many places all legs may have.
const MOST_PLACES: usize = 64;

/// Whether all legs are such.
pub(crate) fn legs_in_design(interlocking: &Interlocking, legs: &[Leg]) -> bool
    ensures { result ≡ list_all (leg_fits interlocking.now) legs.now }
{
    legs.iter().all(|leg| leg_in_design(interlocking, leg))
}

/// Whether the legs have no more places than a plan has steps.
pub(crate) fn are_few_places(legs: &[Leg]) -> bool
    ensures { result ≡ nat_le (places_of legs.now) most_places }
{
    let mut left = MOST_PLACES;
    for leg in legs {
        if left < leg.places.len() {
            return false;
        }
        left -= leg.places.len();
    }
    true
}

/// Whether each place names routes of the design.
fn are_places(interlocking: &Interlocking, places: &[Place]) -> bool
    ensures { result ≡ list_all (place_fits interlocking.now) places.now }
{
    places
        .iter()
        .all(|place| place_in_design(interlocking, place))
}

/// Whether the leg is of a train of the design, and has places, each with routes of the design.
fn leg_in_design(interlocking: &Interlocking, leg: &Leg) -> bool
    ensures { result ≡ leg_fits interlocking.now leg.now }
{
    let places = leg.places.as_slice();
    is_one_of(leg.train.0, interlocking.design.station.trains.len())
        && !is_empty(places)
        && are_places(interlocking, places)
}
