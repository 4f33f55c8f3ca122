//! What happens in the run of a plan.

ghost use Rattle.std.specs.Prelude.{◌≡◌, ◌≤◌, IfOk};
ghost use Rattle.rail_spec.specs.Dispatches.{Dispatch};
ghost use Rattle.rail_spec.specs.Feasible.{IsWellFormed};
ghost use Rattle.rail_spec.specs.Histories.{history_at};
ghost use Rattle.plan_run.specs.Planned.{IsPlanned};
ghost use Rattle.interlocking.specs.Plans.{on};

use crate::run::PlanRun;
use dispatch_run::Traffic;
use interlocking::Interlocking;
use rail_base::history::TrainHistory;
use rail_base::plan::Plan;
use std::alloc::{AllocError, Global};

/// What has happened to each train by a tick of the run of a plan, in file order.
///
/// # Errors
///
/// Want of memory alone.
pub fn history<'a>(
    alloc: Global,
    interlocking: &'a Interlocking,
    plan: &'a Plan,
    tick: u64,
) -> Result<Vec<TrainHistory>, AllocError>
    requires formed { IsWellFormed interlocking.now.design.station interlocking.now.routes 256 plan.now.steps }
    requires at_most_86400 { tick ≤ 86400 }
    ensures { IfOk result (λ h. h.items ≡ on interlocking.now history_at plan.now.steps tick) }
{
    let run = PlanRun::of(alloc, interlocking, plan)?;
    run.history(alloc, tick)
}

/// The same of the traffic of a plan.
pub(crate) fn history_of_traffic(
    traffic: &Traffic,
    plan: &Plan,
    alloc: Global,
    tick: u64,
) -> Result<Vec<TrainHistory>, AllocError>
    ghost dispatch: { Dispatch }
    requires planned { IsPlanned dispatch traffic.now plan.now.steps }
    requires at_most_86400 { tick ≤ 86400 }
    ensures { IfOk result (λ h. h.items ≡ on traffic.now.interlocking.now history_at plan.now.steps tick) }
{
    let progress = traffic.run(alloc, tick)?;
    Ok(progress.histories)
}
