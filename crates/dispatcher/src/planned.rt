//! The journeys that a plan gives the trains.

ghost use Rattle.std.specs.Prelude.{◌≡◌, ◌+◌, ◌<◌, [], All, IfOk, OnOk, length, slice_index_or};
ghost use Rattle.rail_spec.specs.Feasible.{IsWellFormed};
ghost use Rattle.rail_course.specs.Itineraries.{IsCommandIn};
ghost use Rattle.dispatcher.specs.Planned.{AreKnown, AreQueues};

use crate::lists::{empty_lists, put};
use crate::turns::turn;
use crate::waits::waits_of;
use interlocking::Interlocking;
use rail_base::list::List;
use rail_base::plan::{Command, Plan};
use rail_course::{PlannedJourneys, PlannedTrainPaths, Wait};
use std::alloc::{AllocError, Global};

/// The waits of each command of a train's path.
type Waits = List<Vec<Wait>>;

/// The journeys that a plan gives the trains.
///
/// # Errors
///
/// Want of memory alone.
pub fn journeys<'a>(
    alloc: Global,
    interlocking: &'a Interlocking,
    plan: &'a Plan,
) -> Result<PlannedJourneys<'a>, AllocError>
    requires { IsWellFormed interlocking.now.design.station interlocking.now.routes 256 plan.now.steps }
    ensures interlocking { IfOk result (λ j. j.interlocking.now ≡ interlocking.now) }
    ensures plan { IfOk result (λ j. j.plan.now ≡ plan.now) }
{
    let planned = PlannedTrainPaths::of(alloc, interlocking, plan)?;
    let waits = waits_of_all(&planned, alloc)?;
    planned.into_journeys(alloc, waits)
}

/// The commands of a step, counted from 0.
fn step_at<'a>(planned: &PlannedTrainPaths<'a>, number: usize) -> &'a [Command]
    requires { number < length planned.now.plan.now.steps }
    ensures step { result.now ≡ slice_index_or planned.now.plan.now.steps number [] }
    ensures named { All (IsCommandIn planned.now.train_paths.given) result.now }
{
    planned.plan.steps.as_slice()[number].as_slice()
}

/// Adds the waits of the commands of a step.
fn push_step(
    planned: &PlannedTrainPaths,
    alloc: Global,
    waits: &mut Vec<Waits>,
    queues: &[List<Wait>],
    number: usize,
) -> Result<(), AllocError>
    requires number { number < length planned.now.plan.now.steps }
    requires queues { AreQueues planned.now number queues.now }
    requires waits { AreKnown planned.now number waits.old.items }
    ensures { OnOk result (AreKnown planned.now (number + 1) waits.new.items) }
{
    let interlocking = planned.train_paths.given.interlocking;
    let step = step_at(planned, number);
    for command in step {
        let own = waits_of(interlocking, alloc, queues, *command)?;
        put(waits, command.train.0, own)?;
    }
    Ok(())
}

/// For each train, in file order, the waits of each command of its path. Each command waits for those that stand last
/// on its sections before its step.
fn waits_of_all(planned: &PlannedTrainPaths, alloc: Global) -> Result<Vec<Waits>, AllocError>
    ensures { IfOk result (λ waits. AreKnown planned.now (length planned.now.plan.now.steps) waits.items) }
{
    let station = &planned.train_paths.given.interlocking.design.station;
    let mut queues = empty_lists(alloc, station.sections.len())?;
    let mut waits = empty_lists(alloc, station.trains.len())?;
    for number in 0..planned.plan.steps.len() {
        push_step(planned, alloc, &mut waits, queues.as_slice(), number)?;
        turn(
            &planned.train_paths,
            &mut queues,
            alloc,
            step_at(planned, number),
        )?;
    }
    Ok(waits)
}
