//! The journeys of a plan.

ghost use Rattle.rail_spec.specs.Feasible.{IsWellFormed};
ghost use Rattle.rail_course.specs.Journeys.{ArePlanJourneys};
ghost use Rattle.interlocking.specs.Plans.{on};

use crate::journey::Journey;
use interlocking::Interlocking;
use rail_base::plan::Plan;

/// A well-formed plan that is run over an interlocking, and the journeys that it gives the trains.
#[derive(Drop)]
pub struct PlannedJourneys<'a> {
    pub interlocking: &'a Interlocking,
    pub plan: &'a Plan,
    pub journeys: Vec<Journey>,
    pub ghost formed: { IsWellFormed interlocking.now.design.station interlocking.now.routes 256 plan.now.steps },
    pub ghost led: { on interlocking.now ArePlanJourneys plan.now.steps journeys.items },
}
