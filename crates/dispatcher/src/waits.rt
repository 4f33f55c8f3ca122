//! The waits of a command for what stands last on its sections.

ghost use Rattle.std.specs.Prelude.{◌≡◌, IfOk, OnOk, length};
ghost use Rattle.std.specs.List.{list_all};
ghost use Rattle.rail_base.specs.Members.{In};
ghost use Rattle.rail_base.specs.Routes.{IsRoute};
ghost use Rattle.rail_course.specs.Waits.{AddsWaits};
ghost use Rattle.dispatcher.specs.Waits.{lets_pass};
ghost use Rattle.dispatcher.specs.Turned.{AsksQueues};

use crate::sections::sections_of;
use interlocking::Interlocking;
use rail_base::list::List;
use rail_base::plan::Command;
use rail_base::station::TrainNo;
use rail_course::{Wait, push_wait};
use std::alloc::{AllocError, Global};

/// The waits of a command for the other trains in the queues of its sections.
pub(crate) fn waits_of(
    interlocking: &Interlocking,
    alloc: Global,
    queues: &[List<Wait>],
    command: Command,
) -> Result<Vec<Wait>, AllocError>
    requires route { IsRoute interlocking.now.routes command.route }
    requires every_section { length queues.now ≡ length interlocking.now.design.station.sections }
    ensures { IfOk result (λ own. AsksQueues interlocking.now.routes queues.now command own.items) }
{
    let sections = sections_of(alloc, interlocking.route(command.route))?;
    let mut waits = Vec::new(alloc);
    for section in &sections {
        let queue = queues[section.0 as usize - 1].as_slice();
        push_queue(&mut waits, queue, command.train)?;
    }
    Ok(waits)
}

/// Adds a wait of a train, if it is for another one.
fn push_other(waits: &mut Vec<Wait>, wait: Wait, train: TrainNo) -> Result<(), AllocError>
    ensures { OnOk result (AddsWaits waits.old.items waits.new.items (λ ps. lets_pass ps train wait) (λ w. w ≡ wait)) }
{
    if wait.event.train == train {
        return Ok(());
    }
    push_wait(waits, wait)?;
    Ok(())
}

/// Adds the waits of a queue that are for other trains.
fn push_queue(waits: &mut Vec<Wait>, queue: &[Wait], train: TrainNo) -> Result<(), AllocError>
    ensures { OnOk result (AddsWaits waits.old.items waits.new.items
        (λ ps. list_all (lets_pass ps train) queue.now) (λ w. In w queue.now)) }
{
    for wait in queue {
        push_other(waits, *wait, train)?;
    }
    Ok(())
}
