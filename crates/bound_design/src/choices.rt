//! How many ways there are to choose one route for each place.

ghost use Rattle.std.specs.Prelude.{◌≡◌, ◌≤◌, ◌*◌, List, min};
ghost use Rattle.rail_base.specs.declared.station.Station.{Station};
ghost use Rattle.rail_base.specs.declared.route.Route.{Route};
ghost use Rattle.bound_spec.specs.Validity.{are_few_choices as few_choices, choices as many_choices};
ghost use Rattle.bound_design.specs.Named.{few_choices_before};

use bound_spec::{Leg, Place, first_routes, routes_of};

/// Of a leg with more choices nothing is shown.
const MOST_CHOICES: usize = 4096;

/// Whether there are not too many choices on each leg.
pub(crate) fn are_few_choices(legs: &[Leg]) -> bool
    ensures { (d : Station) (routes : List Route) → result ≡ few_choices d routes legs.now }
{
    for index in 0..legs.len() {
        if !is_few(&legs[index], &legs[index + 1..]) {
            return false;
        }
    }
    true
}

/// So many choices of as many, or one too many where there are more.
fn product(one: usize, other: usize) -> usize
    requires { one ≤ 4097 }
    ensures { result ≡ min 4097 (one * other) }
{
    (one * other.min(MOST_CHOICES + 1)).min(MOST_CHOICES + 1)
}

/// How many choices of one route for each place there are, or one too many where there are more.
fn choices(places: &[Place]) -> usize
    ensures { result ≡ min 4097 (many_choices places.now) }
{
    let mut total = 1;
    for place in places {
        total = product(total, routes_of(place).len());
    }
    total
}

/// Whether there are not too many choices on a leg, with those of the first place of the next leg, if there is one.
fn is_few(leg: &Leg, later: &[Leg]) -> bool
    ensures { result ≡ few_choices_before leg.now later.now }
{
    let own = choices(leg.places.as_slice());
    match later.first() {
        Some(next) => product(own, first_routes(next).len()) <= MOST_CHOICES,
        None => own <= MOST_CHOICES,
    }
}
