//! The least ticks of trains on walks, each found out once.

use crate::known::{is_train, is_walk};
use free_moves::{on_ticks, run_ticks};
use interlocking::Interlocking;
use rail_base::route::RouteNo;
use rail_base::station::{TrainNo, VehicleNo};
use std::alloc::{AllocError, Global};
use std::collections::BTreeMap;

/// No place on a walk is past this one, in mm.
const MOST_PLACE: u64 = 1 << 46;

/// So many trips are kept at the most.
const MOST_TRIPS: usize = 4_000_000;

/// A trip on a walk to a place.
#[derive(Clone, Copy, PartialEq, Eq, PartialOrd, Ord)]
struct Trip {
    vehicle: VehicleNo,
    walk: usize,
    /// Whether it begins at a place, or else with the grant of the walk's first route.
    runs: bool,
    from: u64,
    place: u64,
}

/// The least ticks of trips.
#[derive(Drop)]
pub struct Ticks {
    walks: BTreeMap<Vec<RouteNo>, usize>,
    known: BTreeMap<Trip, u64>,
}

impl Ticks {
    /// Those of no trip.
    pub fn new(alloc: Global) -> Ticks {
        Ticks {
            walks: BTreeMap::new(alloc),
            known: BTreeMap::new(alloc),
        }
    }

    /// The least ticks of a train from a place of a walk, or from the grant of its first route, to another place; none
    /// where the train or a route is not of the design, or the place is too far.
    pub(crate) fn hop(
        &mut self,
        alloc: Global,
        interlocking: &Interlocking,
        train: TrainNo,
        walk: &[RouteNo],
        from: Option<u64>,
        place: u64,
    ) -> Result<Option<u64>, AllocError> {
        if !is_train(interlocking, train) || !is_walk(interlocking, walk) || place > MOST_PLACE {
            return Ok(None);
        }
        let trip = Trip {
            vehicle: interlocking.design.train(train).vehicle,
            walk: self.walk_number(alloc, walk)?,
            runs: from.is_some(),
            from: from.unwrap_or(0),
            place,
        };
        if let Some(ticks) = self.known.get(&trip) {
            return Ok(Some(*ticks));
        }
        let most = interlocking.design.horizon();
        let ticks = match from {
            Some(from) => on_ticks(alloc, interlocking, train, walk, from, place, most)?,
            None => run_ticks(alloc, interlocking, train, walk, place, most)?,
        };
        if self.known.len() < MOST_TRIPS {
            self.known.insert(trip, ticks)?;
        }
        Ok(Some(ticks))
    }

    /// The number of a walk.
    fn walk_number(&mut self, alloc: Global, walk: &[RouteNo]) -> Result<usize, AllocError> {
        if let Some(number) = self.walks.get(walk) {
            return Ok(*number);
        }
        let mut routes = Vec::new(alloc);
        routes.extend_from_slice(walk)?;
        let number = self.walks.len();
        self.walks.insert(routes, number)?;
        Ok(number)
    }
}
