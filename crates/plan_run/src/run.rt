//! A plan with all that its run needs.

ghost use Rattle.std.specs.Prelude.{◌≡◌, ◌≤◌, IfOk};
ghost use Rattle.rail_spec.specs.Dispatches.{of_plan};
ghost use Rattle.rail_spec.specs.Feasible.{IsWellFormed};
ghost use Rattle.rail_spec.specs.Histories.{history_at, verdict_of};
ghost use Rattle.rail_spec.specs.Requirements.{path_violation};
ghost use Rattle.dispatch_run.specs.FollowedTrains.{AreFollowedTrains};
ghost use Rattle.interlocking.specs.Plans.{on};

use crate::histories::history_of_traffic;
use crate::planned::followed_trains;
use crate::verdicts::verdict_by_events;
use dispatch_run::{FollowedTrain, Traffic};
use dispatcher::journeys;
use interlocking::Interlocking;
use rail_base::history::{TrainHistory, Verdict};
use rail_base::list::List;
use rail_base::plan::{Plan, Violation};
use std::alloc::{AllocError, Global};

/// A plan that is run: its trains, and what each of their commands waits for.
#[derive(Drop)]
pub struct PlanRun<'a> {
    pub interlocking: &'a Interlocking,
    pub plan: &'a Plan,
    /// The first visit, by train, that no path makes.
    pub missed: Option<Violation>,
    /// The trains, in file order.
    pub trains: Vec<FollowedTrain>,
    pub ghost formed: { IsWellFormed interlocking.now.design.station interlocking.now.routes 256 plan.now.steps },
    pub ghost is_missed: { missed ≡ on interlocking.now path_violation plan.now.steps },
    pub ghost followed: { on interlocking.now AreFollowedTrains
        (of_plan interlocking.now.routes plan.now.steps) trains.items },
}

impl<'a> PlanRun<'a> {
    /// What the run of a plan needs, worked out once.
    ///
    /// # Errors
    ///
    /// Want of memory alone.
    pub fn of(
        alloc: Global,
        interlocking: &'a Interlocking,
        plan: &'a Plan,
    ) -> Result<PlanRun<'a>, AllocError>
        requires { IsWellFormed interlocking.now.design.station interlocking.now.routes 256 plan.now.steps }
        ensures interlocking { IfOk result (λ r. r.interlocking.now ≡ interlocking.now) }
        ensures plan { IfOk result (λ r. r.plan.now ≡ plan.now) }
    {
        let planned = journeys(alloc, interlocking, plan)?;
        let missed = planned.path_violation();
        let trains = followed_trains(planned, alloc)?;
        Ok(PlanRun {
            interlocking,
            plan,
            missed,
            trains,
        })
    }

    /// What so many ticks show of the plan.
    ///
    /// # Errors
    ///
    /// Want of memory alone.
    pub fn verdict(&self, alloc: Global, ticks: u64) -> Result<Verdict, AllocError>
        ensures { IfOk result (λ v. v ≡ on self.now.interlocking.now verdict_of self.now.plan.now.steps ticks) }
    {
        let Some(violation) = self.missed else {
            let traffic = Traffic {
                interlocking: self.interlocking,
                followed_trains: self.trains.as_slice(),
            };
            return verdict_by_events(&traffic, self.plan, alloc, ticks);
        };
        if ticks == 0 {
            return Ok(Verdict::Undecided);
        }
        Ok(Verdict::Failed {
            history: List::new(alloc),
            tick: 1,
            violation,
        })
    }

    /// What has happened to each train by a tick of the run, in file order.
    ///
    /// # Errors
    ///
    /// Want of memory alone.
    pub fn history(&self, alloc: Global, tick: u64) -> Result<Vec<TrainHistory>, AllocError>
        requires { tick ≤ 86400 }
        ensures { IfOk result (λ h. h.items ≡ on self.now.interlocking.now history_at self.now.plan.now.steps tick) }
    {
        let traffic = Traffic {
            interlocking: self.interlocking,
            followed_trains: self.trains.as_slice(),
        };
        history_of_traffic(&traffic, self.plan, alloc, tick)
    }
}
