//! The verdict of a plan.

ghost use Rattle.std.specs.Prelude.{◌≡◌, IfOk, None};
ghost use Rattle.rail_spec.specs.Feasible.{IsWellFormed};
ghost use Rattle.rail_spec.specs.Requirements.{path_violation};
ghost use Rattle.rail_spec.specs.Histories.{verdict_of};
ghost use Rattle.rail_spec.specs.Safety.{KeepsToTrack};
ghost use Rattle.rail_spec.specs.Dispatches.{Dispatch};
ghost use Rattle.plan_run.specs.Planned.{IsPlanned};
ghost use Rattle.interlocking.specs.Plans.{on};
ghost use Rattle.rail_course.specs.Standing.{StandsAtVisits};
ghost use Rattle.rail_laws.specs.Overlaps.{OverlapsStayFree};
ghost use Rattle.rail_laws.specs.Plans.{StaysApart, GrantsInTime};

use crate::asked::{due_after, violation_now};
use crate::run::PlanRun;
use dispatch_run::Traffic;
use interlocking::Interlocking;
use rail_base::history::Verdict;
use rail_base::list::List;
use rail_base::plan::Plan;
use rail_require::are_done;
use std::alloc::{AllocError, Global};

/// What so many ticks of a run show of a plan: that it meets the design, that it fails and why, or nothing yet. The
/// history ends with the deciding tick.
///
/// At whatever tick each train is within its authority and its limits, and it stands its ticks exactly where it makes
/// its visits. Where the plan is executable too, no two trains ever hold one section or stand on one, the sections of an
/// overlap are free of other trains for as long as they are held, and each command is granted in a bounded time.
pub fn simulate(
    alloc: Global,
    interlocking: &Interlocking,
    plan: &Plan,
    ticks: u64,
) -> Result<Verdict, AllocError>
    requires formed { IsWellFormed interlocking.now.design.station interlocking.now.routes 256 plan.now.steps }
    ensures value { IfOk result (λ v. v ≡ on interlocking.now verdict_of plan.now.steps ticks) }
    ensures keeps { KeepsToTrack interlocking.now.design.station interlocking.now.routes plan.now.steps }
    ensures stands { on interlocking.now StandsAtVisits plan.now.steps }
    ensures granted { on interlocking.now GrantsInTime plan.now.steps }
    ensures apart { on interlocking.now StaysApart plan.now.steps }
    ensures free { on interlocking.now OverlapsStayFree plan.now.steps }
{
    run_plan(alloc, interlocking, plan, ticks)
}

/// The verdict of a plan whose paths make all visits. Whether all is done is asked at each tick at which something
/// happens to a train, and what fails only where a visit is made or a greatest time may end.
pub(crate) fn verdict_by_events(
    traffic: &Traffic,
    plan: &Plan,
    alloc: Global,
    ticks: u64,
) -> Result<Verdict, AllocError>
    ghost dispatch: { Dispatch }
    requires planned { IsPlanned dispatch traffic.now plan.now.steps }
    requires paths { on traffic.now.interlocking.now path_violation plan.now.steps ≡ None }
    ensures { IfOk result (λ v. v ≡ on traffic.now.interlocking.now verdict_of plan.now.steps ticks) }
{
    let design = &traffic.interlocking.design;
    let last = ticks.min(design.horizon());
    let mut progress = traffic.begin(alloc)?;
    let mut due = 0;
    while progress.tick < last {
        due = due_after(design, &progress, due, last);
        progress = traffic.advance(alloc, progress, due)?;
        let tick = progress.tick;
        if let Some(violation) = violation_now(design, &progress, due) {
            return Ok(Verdict::Failed {
                history: List::from_vec(progress.histories),
                tick,
                violation,
            });
        }
        if are_done(progress.histories.as_slice()) {
            return Ok(Verdict::Met {
                history: List::from_vec(progress.histories),
                tick,
            });
        }
    }
    Ok(Verdict::Undecided)
}

/// Runs a plan for so many ticks: what they show of it.
fn run_plan<'a>(
    alloc: Global,
    interlocking: &'a Interlocking,
    plan: &'a Plan,
    ticks: u64,
) -> Result<Verdict, AllocError>
    requires { IsWellFormed interlocking.now.design.station interlocking.now.routes 256 plan.now.steps }
    ensures { IfOk result (λ v. v ≡ on interlocking.now verdict_of plan.now.steps ticks) }
{
    let run = PlanRun::of(alloc, interlocking, plan)?;
    run.verdict(alloc, ticks)
}
