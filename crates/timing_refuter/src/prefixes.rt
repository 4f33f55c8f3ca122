//! How much of each path a slice has.

ghost use Rattle.std.specs.Prelude.{◌≡◌, IfOk};
ghost use Rattle.timing_refuter.specs.Prefixes.{prefix_of, prefixes_of, holds_one, needed_count, past_holder};

use cone_spec::ConeTrain;
use rail_base::list::List;
use rail_base::plan::Command;
use std::alloc::{AllocError, Global};

/// The trains of which any commands are needed, with those commands.
pub(crate) fn prefixes_of(alloc: Global, trains: &[ConeTrain]) -> Result<Vec<ConeTrain>, AllocError>
    ensures { IfOk result (λ ks. ks.items ≡ prefixes_of trains.now trains.now) }
{
    let mut prefixes = Vec::new(alloc);
    for train in trains {
        let count = needed_count(trains, train);
        if count > 0 {
            prefixes.push(prefix_of(alloc, train, count)?)?;
        }
    }
    Ok(prefixes)
}

/// Whether one of the trains is held up by a command.
fn holds_one(trains: &[ConeTrain], command: Command) -> bool
    ensures { result ≡ holds_one trains.now command }
{
    trains.iter().any(|train| train.holder == Some(command))
}

/// One past the last place of a train's path with whose command it holds one up, or 0.
fn past_holder(trains: &[ConeTrain], train: &ConeTrain) -> usize
    ensures { result ≡ past_holder trains.now train.now }
{
    let mut past = 0;
    for (place, route) in train.path.as_slice().iter().enumerate() {
        let command = Command {
            train: train.train,
            route: *route,
        };
        if holds_one(trains, command) {
            past = place + 1;
        }
    }
    past
}

/// How many commands of a train are needed: those granted by its horizon and the next one, where it is followed, and
/// those up to the last that holds one up.
fn needed_count(trains: &[ConeTrain], train: &ConeTrain) -> usize
    ensures { result ≡ needed_count trains.now train.now }
{
    let past = past_holder(trains, train);
    if train.horizon == 0 {
        past
    } else {
        past.max(train.free as usize + 1)
    }
}

/// A train with the first commands of its path.
fn prefix_of(alloc: Global, train: &ConeTrain, count: usize) -> Result<ConeTrain, AllocError>
    ensures { IfOk result (λ k. k ≡ prefix_of train.now count) }
{
    let mut path = train.path.as_slice().to_vec(alloc)?;
    path.truncate(count);
    Ok(ConeTrain {
        train: train.train,
        horizon: train.horizon,
        free: train.free,
        path: List::from_vec(path),
        holder: train.holder,
    })
}
