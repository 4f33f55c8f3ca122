//! The ride of one train in a run.

ghost use Rattle.tick_sim.specs.Running.{IsJourneyIn};

use rail_course::{Journey, PlannedJourneys};

/// A run, and the journey that it gives one of the trains.
#[derive(Clone, Copy)]
pub(crate) struct Ride<'a> {
    pub run: &'a PlannedJourneys<'a>,
    pub journey: &'a Journey,
    pub ghost led: { IsJourneyIn run.now journey.now },
}
