//! The verdict of a plan.

ghost use Rattle.std.specs.Prelude.{◌≡◌, IfOk, None};
ghost use Rattle.rail_spec.specs.Feasible.{IsWellFormed};
ghost use Rattle.rail_spec.specs.Histories.{verdict_of};
ghost use Rattle.rail_spec.specs.Safety.{KeepsToTrack};
ghost use Rattle.tick_sim.specs.Running.{path_violation_in, states_in, verdict_in};
ghost use Rattle.interlocking.specs.Plans.{on};
ghost use Rattle.rail_course.specs.Standing.{StandsAtVisits};
ghost use Rattle.rail_laws.specs.Overlaps.{OverlapsStayFree};
ghost use Rattle.rail_laws.specs.Plans.{StaysApart, GrantsInTime};

use crate::histories::{first_histories, next_histories};
use crate::moves::next_states;
use crate::pairs::journeys;
use interlocking::Interlocking;
use rail_base::history::Verdict;
use rail_base::list::List;
use rail_base::plan::Plan;
use rail_base::state::TrainState;
use rail_course::{IDLE, PlannedJourneys};
use rail_require::{first_violation, is_done};
use std::alloc::{AllocError, Global};

/// What so many ticks of a run show of a plan: that it meets the design, that it fails and why, or nothing yet. The
/// history ends with the deciding tick.
///
/// At whatever tick each train is within its authority and its limits, and it stands its ticks exactly where it makes
/// its visits. Where the plan is executable too, no two trains ever hold one section or stand on one, the sections of an
/// overlap are free of other trains for as long as they are held, and each command is granted in a bounded time.
pub fn simulate(
    alloc: Global,
    interlocking: &Interlocking,
    plan: &Plan,
    ticks: u64,
) -> Result<Verdict, AllocError>
    requires formed { IsWellFormed interlocking.now.design.station interlocking.now.routes 256 plan.now.steps }
    ensures value { IfOk result (λ v. v ≡ on interlocking.now verdict_of plan.now.steps ticks) }
    ensures keeps { KeepsToTrack interlocking.now.design.station interlocking.now.routes plan.now.steps }
    ensures stands { on interlocking.now StandsAtVisits plan.now.steps }
    ensures granted { on interlocking.now GrantsInTime plan.now.steps }
    ensures apart { on interlocking.now StaysApart plan.now.steps }
    ensures free { on interlocking.now OverlapsStayFree plan.now.steps }
{
    run_plan(alloc, interlocking, plan, ticks)
}

/// All trains before the first tick.
fn first_states(run: &PlannedJourneys, alloc: Global) -> Result<Vec<TrainState>, AllocError>
    ensures { IfOk result (λ s. s.items ≡ states_in run.now 0) }
{
    let mut states = Vec::new(alloc);
    for _journey in run.journeys.as_slice() {
        states.push(IDLE)?;
    }
    Ok(states)
}

/// The verdict of a plan whose paths make all visits.
fn verdict_by_ticks(run: &PlannedJourneys, alloc: Global, ticks: u64) -> Result<Verdict, AllocError>
    requires paths { path_violation_in run.now ≡ None }
    ensures { IfOk result (λ v. v ≡ verdict_in run.now ticks) }
{
    let mut states = first_states(run, alloc)?;
    let mut history = first_histories(run, alloc)?;
    let last = ticks.min(run.interlocking.design.horizon());
    for tick in 1..last + 1 {
        states = next_states(run, alloc, states.as_slice(), history.as_slice())?;
        history = next_histories(run, alloc, &history, states.as_slice(), tick)?;
        if let Some(violation) = first_violation(&run.interlocking.design, &history, tick) {
            return Ok(Verdict::Failed {
                history,
                tick,
                violation,
            });
        }
        if is_done(&history) {
            return Ok(Verdict::Met { history, tick });
        }
    }
    Ok(Verdict::Undecided)
}

/// The verdict of the plan that is run.
fn verdict(run: &PlannedJourneys, alloc: Global, ticks: u64) -> Result<Verdict, AllocError>
    ensures { IfOk result (λ v. v ≡ verdict_in run.now ticks) }
{
    let Some(violation) = run.path_violation() else {
        return verdict_by_ticks(run, alloc, ticks);
    };
    if ticks == 0 {
        return Ok(Verdict::Undecided);
    }
    Ok(Verdict::Failed {
        history: List::new(alloc),
        tick: 1,
        violation,
    })
}

/// Runs a plan for so many ticks: what they show of it.
fn run_plan<'a>(
    alloc: Global,
    interlocking: &'a Interlocking,
    plan: &'a Plan,
    ticks: u64,
) -> Result<Verdict, AllocError>
    requires { IsWellFormed interlocking.now.design.station interlocking.now.routes 256 plan.now.steps }
    ensures { IfOk result (λ v. v ≡ on interlocking.now verdict_of plan.now.steps ticks) }
{
    let run = journeys(alloc, interlocking, plan)?;
    verdict(&run, alloc, ticks)
}
