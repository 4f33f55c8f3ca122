//! How many literals the clause of a certificate has, roughly.

use crate::search::BoundSearch;
use bound_chains::goals::Goal;
use bound_chains::known::{count_routes, count_trains, share};
use bound_spec::{Bound, Leg, Origin, Place};
use cone_form::free_path;
use cone_spec::Cone;
use interlocking::Interlocking;
use rail_base::route::RouteNo;

impl BoundSearch<'_> {
    /// How many literals a certificate's clause has, roughly.
    pub(crate) fn size(&self, goal: &Goal, bound: &Bound) -> usize {
        let legs = size_of_legs(bound.legs.as_slice());
        match (&bound.origin, goal.from) {
            (Origin::FirstTick, Some(from)) => {
                let routes = self.chains.tables.visit(from.train, 1);
                let others = count_trains(self.chains.interlocking).saturating_sub(1) as usize;
                let sharing = count_sharing(self.chains.interlocking, routes);
                legs.saturating_add(sharing.saturating_mul(others))
            }
            (Origin::Cone { cone, .. }, _) => legs.saturating_add(self.size_of_cone(cone)),
            _ => legs,
        }
    }

    /// How many literals say what a cone takes for granted.
    fn size_of_cone(&self, cone: &Cone) -> usize {
        let others = count_trains(self.chains.interlocking).saturating_sub(1) as usize;
        let mut size = cone.pairs.len();
        for train in cone.trains.as_slice() {
            let sharing = count_sharing(self.chains.interlocking, free_path(cone, train.train));
            size = size
                .saturating_add(train.path.len())
                .saturating_add(sharing.saturating_mul(others));
        }
        size
    }
}

/// How many routes a place has.
fn width(place: &Place) -> usize {
    match place {
        Place::Named { .. } => 1,
        Place::Among { routes, .. } => routes.len(),
    }
}

/// How many literals say which routes are used at a place.
fn size_of_place(place: &Place) -> usize {
    match place {
        Place::Named { .. } => 1,
        Place::Among { without, .. } => without.len(),
    }
}

/// How many say in which order two legs next to each other come.
fn size_of_meeting(leg: &Leg, next: &Leg) -> usize {
    let last = leg.places.as_slice().last();
    let first = next.places.as_slice().first();
    match (last, first) {
        (Some(last), Some(first)) => width(last).saturating_mul(width(first)),
        _ => 0,
    }
}

/// How many say what the legs take for granted.
fn size_of_legs(legs: &[Leg]) -> usize {
    let mut size = 0usize;
    let mut before: Option<&Leg> = None;
    for leg in legs {
        for place in leg.places.as_slice() {
            size = size.saturating_add(size_of_place(place));
        }
        if let Some(before) = before {
            size = size.saturating_add(size_of_meeting(before, leg));
        }
        before = Some(leg);
    }
    size
}

/// How many routes share a section with one of these, each counted for each of these.
fn count_sharing(interlocking: &Interlocking, routes: &[RouteNo]) -> usize {
    let mut count = 0usize;
    for route in routes {
        for other in 1..count_routes(interlocking) + 1 {
            if share(interlocking, *route, RouteNo(other)) {
                count = count.saturating_add(1);
            }
        }
    }
    count
}
