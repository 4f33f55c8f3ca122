//! The paths that a plan gives the trains, and their train paths.

ghost use Rattle.std.specs.Prelude.{◌≡◌, IfOk};
ghost use Rattle.rail_spec.specs.Feasible.{IsWellFormed};
ghost use Rattle.rail_spec.specs.Dispatches.{of_plan};
ghost use Rattle.rail_spec.specs.Plans.{path};
ghost use Rattle.rail_course.specs.Tracks.{ArePaths, all_paths};
ghost use Rattle.rail_course.specs.Itineraries.{AllGiveIn};
ghost use Rattle.interlocking.specs.Plans.{on};

use crate::itineraries::Itineraries;
use crate::journeys::PlannedJourneys;
use crate::train_paths::TrainPaths;
use crate::waits::Wait;
use interlocking::Interlocking;
use rail_base::list::List;
use rail_base::plan::Plan;
use rail_base::route::RouteNo;
use rail_base::station::TrainNo;
use rail_plan::paths::path_of;
use std::alloc::{AllocError, Global};

/// The paths that a plan gives all trains, in file order.
fn paths_of(
    alloc: Global,
    interlocking: &Interlocking,
    plan: &Plan,
) -> Result<Vec<List<RouteNo>>, AllocError>
    requires { IsWellFormed interlocking.now.design.station interlocking.now.routes 256 plan.now.steps }
    ensures { IfOk result (λ paths. on interlocking.now ArePaths (path plan.now.steps) paths.items) }
{
    let mut paths = Vec::new(alloc);
    for number in 1..interlocking.design.station.trains.len() as u32 + 1 {
        let path = path_of(alloc, plan, TrainNo(number))?;
        paths.push(List::from_vec(path))?;
    }
    Ok(paths)
}

/// A well-formed plan, and the train paths that it gives the trains.
#[derive(Drop)]
pub struct PlannedTrainPaths<'a> {
    pub train_paths: TrainPaths<'a>,
    pub plan: &'a Plan,
    pub ghost formed: { on train_paths.given.interlocking.now IsWellFormed 256 plan.now.steps },
    pub ghost paths: { train_paths.given.paths.items
        ≡ on train_paths.given.interlocking.now all_paths plan.now.steps },
}

impl<'a> PlannedTrainPaths<'a> {
    /// The train paths that a plan gives the trains.
    pub fn of(
        alloc: Global,
        interlocking: &'a Interlocking,
        plan: &'a Plan,
    ) -> Result<PlannedTrainPaths<'a>, AllocError>
        requires { IsWellFormed interlocking.now.design.station interlocking.now.routes 256 plan.now.steps }
        ensures interlocking { IfOk result (λ p. p.train_paths.given.interlocking.now ≡ interlocking.now) }
        ensures plan { IfOk result (λ p. p.plan.now ≡ plan.now) }
    {
        let paths = paths_of(alloc, interlocking, plan)?;
        let given = Itineraries {
            interlocking,
            paths,
        };
        let train_paths = TrainPaths::of(alloc, given)?;
        Ok(PlannedTrainPaths { train_paths, plan })
    }

    /// The journeys of the plan, where the commands of each train, in file order, wait so.
    pub fn into_journeys(
        self,
        alloc: Global,
        waits: Vec<List<Vec<Wait>>>,
    ) -> Result<PlannedJourneys<'a>, AllocError>
        requires { AllGiveIn self.train_paths.given
            (of_plan self.train_paths.given.interlocking.now.routes self.plan.now.steps) waits.items }
        ensures interlocking { IfOk result (λ j. j.interlocking.now ≡ self.entry.train_paths.given.interlocking.now) }
        ensures plan { IfOk result (λ j. j.plan.now ≡ self.entry.plan.now) }
    {
        let PlannedTrainPaths {
            train_paths,
            plan,
            ..
        } = self;
        let interlocking = train_paths.given.interlocking;
        let journeys = train_paths.into_journeys(alloc, waits)?;
        Ok(PlannedJourneys {
            interlocking,
            plan,
            journeys,
        })
    }
}
