//! Runs of a plan.

use crate::named::can_be_run;
use anyhow::{Result, ensure};
use interlocking::Interlocking;
use plan_run::simulate;
use rail_base::history::Verdict;
use rail_base::list::List;
use rail_base::plan::{Command, Plan, Violation};
use rail_base::route::RouteNo;
use rail_base::station::TrainNo;
use std::alloc::Global;

/// The commands of the plan, each in a step of its own: a train and its route.
const COMMANDS: [(u32, u32); 3] = [(1, 1), (2, 3), (1, 2)];

/// The most ticks of a run.
const DAY: u64 = 86_400;

/// The plan in which each of two trains waits for the other.
pub(crate) fn waiting_plan(alloc: Global) -> Result<Plan> {
    let mut steps = List::new(alloc);
    for (train, route) in COMMANDS {
        let mut step = List::new(alloc);
        step.push(Command {
            train: TrainNo(train),
            route: RouteNo(route),
        })?;
        steps.push(step)?;
    }
    Ok(Plan { steps })
}

/// How many of so many runs fail at the end of the day.
///
/// # Errors
///
/// Want of memory, and a plan that cannot be run over the station.
pub(crate) fn failed_runs(
    alloc: Global,
    interlocking: &Interlocking,
    plan: &Plan,
    times: u64,
) -> Result<u64> {
    ensure!(
        can_be_run(interlocking, plan),
        "the station has no such plan"
    );
    let mut failed = 0u64;
    for _ in 0..times {
        if fails_at_the_end(&simulate(alloc, interlocking, plan, DAY)?) {
            failed = failed.saturating_add(1);
        }
    }
    Ok(failed)
}

/// Whether the run of a plan fails at the end of the day, for want of the first train's second grant.
fn fails_at_the_end(verdict: &Verdict) -> bool {
    match verdict {
        Verdict::Failed {
            tick,
            violation: Violation::Grant { train, command },
            ..
        } => *tick == DAY && train.0 == 1 && *command == 2,
        _ => false,
    }
}
