//! The queues after a step of a plan.

ghost use Rattle.std.specs.Prelude.{◌≡◌, All, OnOk, length};
ghost use Rattle.rail_course.specs.Itineraries.{IsCommandIn};
ghost use Rattle.dispatcher.specs.Turned.{HasQueues, AreTurned, AreLeft, AreEntered};

use crate::enter::{enter, leave};
use crate::sections::sections_of;
use rail_base::list::List;
use rail_base::plan::Command;
use rail_course::{TrainPaths, Wait};
use std::alloc::{AllocError, Global};

/// After a step its commands stand last on their sections.
pub(crate) fn turn(
    train_paths: &TrainPaths,
    queues: &mut Vec<List<Wait>>,
    alloc: Global,
    step: &[Command],
) -> Result<(), AllocError>
    requires every_section { HasQueues train_paths.now.given queues.old.items }
    requires step { All (IsCommandIn train_paths.now.given) step.now }
    ensures same_length { length queues.new.items ≡ length queues.old.items }
    ensures turned { OnOk result (AreTurned queues.old.items queues.new.items train_paths.now.given step.now) }
{
    leave_all(train_paths, queues, alloc, step)?;
    enter_all(train_paths, queues, alloc, step)?;
    Ok(())
}

/// Leaves in the queues what no command of a step, of another train, follows there.
fn leave_all(
    train_paths: &TrainPaths,
    queues: &mut Vec<List<Wait>>,
    alloc: Global,
    step: &[Command],
) -> Result<(), AllocError>
    requires every_section { HasQueues train_paths.now.given queues.old.items }
    requires step { All (IsCommandIn train_paths.now.given) step.now }
    ensures same_length { length queues.new.items ≡ length queues.old.items }
    ensures left { OnOk result (AreLeft queues.old.items queues.new.items train_paths.now.given step.now) }
{
    for command in step {
        let route = train_paths.given.interlocking.route(command.route);
        let sections = sections_of(alloc, route)?;
        leave(queues, alloc, command.train, sections.as_slice())?;
    }
    Ok(())
}

/// Puts the commands of a step into the queues of their sections.
fn enter_all(
    train_paths: &TrainPaths,
    queues: &mut Vec<List<Wait>>,
    alloc: Global,
    step: &[Command],
) -> Result<(), AllocError>
    requires every_section { HasQueues train_paths.now.given queues.old.items }
    requires step { All (IsCommandIn train_paths.now.given) step.now }
    ensures same_length { length queues.new.items ≡ length queues.old.items }
    ensures entered { OnOk result (AreEntered queues.old.items queues.new.items train_paths.now.given step.now) }
{
    for command in step {
        let own = train_paths.own_waits(alloc, *command)?;
        let held = train_paths.hold_waits(alloc, *command)?;
        enter(queues, own.as_slice())?;
        enter(queues, held.as_slice())?;
    }
    Ok(())
}
