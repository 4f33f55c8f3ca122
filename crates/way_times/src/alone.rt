//! The run of a train alone on a way.

ghost use Rattle.std.specs.Prelude.{◌≡◌, IfOk};
ghost use Rattle.rail_base.specs.Stations.{IsTrain};
ghost use Rattle.interlocking.specs.Plans.{on};
ghost use Rattle.plan_ways.specs.Paths.{IsPlanWay};
ghost use Rattle.way_times.specs.Times.{plan_alone, step_alone, ticks_alone, ticks_between};

use interlocking::Interlocking;
use plan_run::history;
use rail_base::list::List;
use rail_base::plan::{Command, Plan};
use rail_base::route::RouteNo;
use rail_base::station::TrainNo;
use rail_require::visit_tick;
use std::alloc::{AllocError, Global};

/// The step that gives a train a route.
fn step_alone(alloc: Global, train: TrainNo, route: RouteNo) -> Result<List<Command>, AllocError>
    ensures { IfOk result (λ step. step ≡ step_alone train route) }
{
    let mut step = List::new(alloc);
    step.push(Command { train, route })?;
    Ok(step)
}

/// The plan that gives a train these routes, one in each step.
fn plan_alone(alloc: Global, train: TrainNo, way: &[RouteNo]) -> Result<Plan, AllocError>
    ensures { IfOk result (λ plan. plan.steps ≡ plan_alone train way.now) }
{
    let mut steps = List::new(alloc);
    for route in way {
        steps.push(step_alone(alloc, train, *route)?)?;
    }
    Ok(Plan { steps })
}

/// How many ticks there are from the one to the other.
fn ticks_between(from: Option<u64>, to: Option<u64>) -> Option<u64>
    ensures { result ≡ ticks_between from to }
{
    match (from, to) {
        (Some(from), Some(to)) => Some(to.saturating_sub(from)),
        _ => None,
    }
}

/// How many ticks a train takes from one visit to another where it runs alone on a way; none where one of them is not
/// made up to the horizon.
pub(crate) fn ticks_alone(
    alloc: Global,
    interlocking: &Interlocking,
    train: TrainNo,
    way: &[RouteNo],
    from: u32,
    to: u32,
) -> Result<Option<u64>, AllocError>
    requires train { IsTrain interlocking.now.design.station train }
    requires way { on interlocking.now IsPlanWay train way.now }
    ensures { IfOk result (λ ticks. ticks ≡ on interlocking.now ticks_alone train way.now from to) }
{
    let plan = plan_alone(alloc, train, way)?;
    let history = history(alloc, interlocking, &plan, interlocking.design.horizon())?;
    let first = visit_tick(&history, train, from);
    let last = visit_tick(&history, train, to);
    Ok(ticks_between(first, last))
}
