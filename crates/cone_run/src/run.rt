//! The run of a cone, from event to event.

ghost use Rattle.std.specs.Prelude.{◌≡◌, ◌≤◌, true, IfOk};
ghost use Rattle.cone_spec.specs.Cones.{of_cone};
ghost use Rattle.quiet_spec.specs.Histories.{history_at};
ghost use Rattle.rail_spec.specs.Dispatches.{Dispatch};
ghost use Rattle.dispatch_run.specs.FollowedTrains.{IsTraffic};
ghost use Rattle.cone_form.specs.Fits.{fits};
ghost use Rattle.cone_run.specs.Layouts.{history_in};
ghost use Rattle.cone_run.specs.Runs.{last_tick, run_of};
ghost use Rattle.interlocking.specs.Plans.{on};

use crate::layout::ConeLayout;
use crate::paths::ConePaths;
use cone_spec::Cone;
use dispatch_run::Traffic;
use interlocking::Interlocking;
use rail_base::history::{History, TrainHistory};
use rail_base::list::List;
use std::alloc::{AllocError, Global};

/// What happens to each train in the run of a cone, up to the greatest horizon.
pub fn cone_history(
    alloc: Global,
    interlocking: &Interlocking,
    cone: &Cone,
) -> Result<History, AllocError>
    requires known { fits interlocking.now cone.now ≡ true }
    ensures { IfOk result (λ h. h ≡ run_of interlocking.now cone.now) }
{
    let layout = ConeLayout { interlocking, cone };
    Ok(List::from_vec(layout.history(alloc)?))
}

impl ConeLayout<'_> {
    /// What happens to each train in the run of the cone.
    pub(crate) fn history(&self, alloc: Global) -> Result<Vec<TrainHistory>, AllocError>
        ensures { IfOk result (λ h. h.items ≡ history_in self.now) }
    {
        let paths = ConePaths::of(alloc, *self)?;
        let journeys = paths.into_journeys(alloc)?;
        let followed_trains = self.followed_trains(alloc, journeys)?;
        let traffic = Traffic {
            interlocking: self.interlocking,
            followed_trains: followed_trains.as_slice(),
        };
        history_of(&traffic, self.cone, alloc, last_tick(self.cone))
    }
}

/// The last tick of a cone's run: the greatest of its horizons.
fn last_tick(cone: &Cone) -> u64
    ensures { result ≡ last_tick cone.now }
{
    cone.trains
        .as_slice()
        .iter()
        .map(|train| train.horizon)
        .fold(0, |most, horizon| most.max(horizon))
}

/// What happens to each train in the run of a cone up to a tick.
fn history_of(
    traffic: &Traffic,
    cone: &Cone,
    alloc: Global,
    last: u64,
) -> Result<Vec<TrainHistory>, AllocError>
    ghost dispatch: { Dispatch }
    requires traffic { IsTraffic dispatch traffic.now }
    requires same { dispatch ≡ of_cone cone.now }
    requires at_most_86400 { last ≤ 86400 }
    ensures { IfOk result (λ h. h.items ≡ on traffic.now.interlocking.now history_at (of_cone cone.now) last) }
{
    let progress = traffic.run(alloc, last)?;
    Ok(progress.histories)
}
