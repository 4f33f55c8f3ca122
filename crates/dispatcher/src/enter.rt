//! How a command leaves and enters the queues of its sections.

ghost use Rattle.std.specs.Prelude.{◌≡◌, All, OnOk, length};
ghost use Rattle.dispatcher.specs.Queues.{IsWithin};
ghost use Rattle.dispatcher.specs.Turned.{LeavesTrain, PutsWaits};

use crate::lists::{keep, put};
use rail_base::list::List;
use rail_base::station::{SectionNo, TrainNo};
use rail_course::Wait;
use std::alloc::{AllocError, Global};

/// Leaves in the queues of some sections the waits for one train alone.
pub(crate) fn leave(
    queues: &mut Vec<List<Wait>>,
    alloc: Global,
    train: TrainNo,
    sections: &[SectionNo],
) -> Result<(), AllocError>
    requires { All (IsWithin (length queues.old.items)) sections.now }
    ensures same_length { length queues.new.items ≡ length queues.old.items }
    ensures left { OnOk result (LeavesTrain queues.old.items queues.new.items train sections.now) }
{
    for section in sections {
        keep(queues, alloc, section.0, train)?;
    }
    Ok(())
}

/// Puts waits into the queues of their sections.
pub(crate) fn enter(
    queues: &mut Vec<List<Wait>>,
    waits: &[(SectionNo, Wait)],
) -> Result<(), AllocError>
    requires { All (λ w. IsWithin (length queues.old.items) w.0) waits.now }
    ensures same_length { length queues.new.items ≡ length queues.old.items }
    ensures entered { OnOk result (PutsWaits queues.old.items queues.new.items waits.now) }
{
    for (section, wait) in waits {
        put(queues, section.0, *wait)?;
    }
    Ok(())
}
