//! What the commands of a plan wait for, pair by pair, and the journeys that this gives the trains.

ghost use Rattle.std.specs.Prelude.{◌≡◌, ◌||◌, not, All, IfOk, OnOk, map};
ghost use Rattle.rail_base.specs.Routes.{IsRoute};
ghost use Rattle.rail_base.specs.Stations.{IsTrain};
ghost use Rattle.rail_spec.specs.Feasible.{IsWellFormed};
ghost use Rattle.rail_course.specs.Itineraries.{IsCommandIn, IsWaitIn, has_cleared_in};
ghost use Rattle.rail_course.specs.Planned.{AllGiveInPlan};
ghost use Rattle.rail_course.specs.Waits.{AddsWaits};
ghost use Rattle.tick_sim.specs.Pairs.{AreTrainWaitsInPlan, AreWaitsInPlan, have_cleared, precedes_in};

use interlocking::Interlocking;
use rail_base::list::List;
use rail_base::plan::{Command, Plan};
use rail_base::station::TrainNo;
use rail_course::{PlannedJourneys, PlannedTrainPaths, Wait};
use rail_plan::paths::precedes;
use std::alloc::{AllocError, Global};

/// The journeys that a plan gives the trains.
pub(crate) fn journeys<'a>(
    alloc: Global,
    interlocking: &'a Interlocking,
    plan: &'a Plan,
) -> Result<PlannedJourneys<'a>, AllocError>
    requires { IsWellFormed interlocking.now.design.station interlocking.now.routes 256 plan.now.steps }
    ensures interlocking { IfOk result (λ j. j.interlocking.now ≡ interlocking.now) }
    ensures plan { IfOk result (λ j. j.plan.now ≡ plan.now) }
{
    let planned = PlannedTrainPaths::of(alloc, interlocking, plan)?;
    let waits = waits_of_all(&planned, alloc)?;
    planned.into_journeys(alloc, waits)
}

/// For each train, in file order, the waits of each command of its path.
fn waits_of_all(
    planned: &PlannedTrainPaths,
    alloc: Global,
) -> Result<Vec<List<Vec<Wait>>>, AllocError>
    ensures { IfOk result (λ waits. AllGiveInPlan planned.now waits.items) }
{
    let mut all = Vec::new(alloc);
    let station = &planned.train_paths.given.interlocking.design.station;
    for number in 1..station.trains.len() as u32 + 1 {
        let waits = waits_of_train(planned, alloc, TrainNo(number))?;
        all.push(List::from_vec(waits))?;
    }
    Ok(all)
}

/// Adds what a command waits for of another, if that is to come before it.
fn push_waits(
    planned: &PlannedTrainPaths,
    alloc: Global,
    waits: &mut Vec<Wait>,
    command: Command,
    other: Command,
) -> Result<(), AllocError>
    requires command { IsRoute planned.now.train_paths.given.interlocking.now.routes command.route }
    requires other { IsCommandIn planned.now.train_paths.given other }
    ensures { OnOk result (AddsWaits waits.old.items waits.new.items
        (λ ps. not (precedes_in planned.now other command)
        || has_cleared_in planned.now.train_paths.given ps command other)
        (IsWaitIn planned.now.train_paths.given)) }
{
    let interlocking = planned.train_paths.given.interlocking;
    if !precedes(interlocking, planned.plan, other, command) {
        return Ok(());
    }
    planned
        .train_paths
        .push_waits(alloc, waits, command, other)?;
    Ok(())
}

/// Adds what a command waits for of a step.
fn push_step(
    planned: &PlannedTrainPaths,
    alloc: Global,
    waits: &mut Vec<Wait>,
    command: Command,
    step: &List<Command>,
) -> Result<(), AllocError>
    requires command { IsRoute planned.now.train_paths.given.interlocking.now.routes command.route }
    requires step { All (IsCommandIn planned.now.train_paths.given) step.now }
    ensures { OnOk result (AddsWaits waits.old.items waits.new.items
        (have_cleared planned.now command step.now) (IsWaitIn planned.now.train_paths.given)) }
{
    for other in step.as_slice() {
        push_waits(planned, alloc, waits, command, *other)?;
    }
    Ok(())
}

/// The waits of a command.
fn waits_of(
    planned: &PlannedTrainPaths,
    alloc: Global,
    command: Command,
) -> Result<Vec<Wait>, AllocError>
    requires { IsRoute planned.now.train_paths.given.interlocking.now.routes command.route }
    ensures { IfOk result (λ w. AreWaitsInPlan planned.now command w.items) }
{
    let mut waits = Vec::new(alloc);
    for step in planned.plan.steps.as_slice() {
        push_step(planned, alloc, &mut waits, command, step)?;
    }
    Ok(waits)
}

/// The waits of each command of a train's path.
fn waits_of_train(
    planned: &PlannedTrainPaths,
    alloc: Global,
    train: TrainNo,
) -> Result<Vec<Vec<Wait>>, AllocError>
    requires { IsTrain planned.now.train_paths.given.interlocking.now.design.station train }
    ensures { IfOk result (λ w. AreTrainWaitsInPlan planned.now train (map (λ v. v.items) w.items)) }
{
    let mut waits = Vec::new(alloc);
    let train_path = planned.train_paths.train_path(train);
    for route in &train_path.path {
        let command = Command {
            train,
            route: *route,
        };
        let own = waits_of(planned, alloc, command)?;
        waits.push(own)?;
    }
    Ok(waits)
}
