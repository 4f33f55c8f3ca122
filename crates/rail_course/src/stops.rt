//! Where trains have still to stand.

ghost use Rattle.std.specs.Prelude.{◌≡◌, ℕ, ◌+◌, ◌<◌, ◌^◌, List, if◌then◌else◌};
ghost use Rattle.rail_spec.specs.Places.{next_stop};
ghost use Rattle.rail_spec.specs.Dispatches.{is_at};
ghost use Rattle.rail_course.specs.Dwells.{dwells_from};
ghost use Rattle.rail_course.specs.Stops.{IsStopPlace, made_within};

use crate::dwells::Dwell;
use crate::train_path::TrainPath;
use rail_base::state::{PathNode, TrainState};

impl TrainPath {
    /// The place, in mm along the path, of the visit at which the train has still to stand, if that is on its granted
    /// routes: so far it may go.
    pub fn stop_place(&self, state: TrainState) -> Option<u64>
        ensures { IsStopPlace self.now state result }
    {
        let stop = next_stop(self.dwells.as_slice(), self.visits.as_slice(), state.stood);
        let here = made_within(stop, state.granted)?;
        Some(here.event.place)
    }
}

/// How many ticks a train has stood in all after a tick that begins so, where this is the place at which it has still
/// to stand.
pub fn stood_after(state: TrainState, place: Option<u64>) -> u64
    requires { state.stood < 2 ^ 63 }
    ensures { result ≡ (if is_at place state.x then state.stood + 1 else state.stood) }
{
    match place {
        Some(place) if state.x == place => state.stood + 1,
        _ => state.stood,
    }
}

/// Where the visit is made at which a train that has stood so many ticks has still to stand.
fn next_stop(dwells: &[Dwell], visits: &[Option<PathNode>], stood: u64) -> Option<PathNode>
    ensures { (ws : List ℕ) → dwells.now ≡ dwells_from 0 ws → result ≡ next_stop ws visits.now stood }
{
    let number = dwells.iter().position(|dwell| stood < dwell.until)?;
    *visits.get(number)?
}

/// A visit, where so many commands lead to it.
fn made_within(visit: Option<PathNode>, granted: usize) -> Option<PathNode>
    ensures { result ≡ made_within granted visit }
{
    visit.filter(|made| made.event.granted <= granted)
}
