//! Trains that stand at their visits.

ghost use Rattle.std.specs.Prelude.{◌≡◌, ◌⊎◌, ◌≤◌, ◌<◌};
ghost use Rattle.rail_base.specs.Members.{In};
ghost use Rattle.rail_course.specs.declared.dwells.Dwell.{Dwell};
ghost use Rattle.rail_spec.specs.Dispatches.{is_at};
ghost use Rattle.dispatch_run.specs.Drifts.{rested};

use rail_base::state::TrainState;
use rail_course::Dwell;

/// Whether the head of a train is at the place where it has still to stand.
pub(crate) fn stands(state: TrainState, place: Option<u64>) -> bool
    ensures { result ≡ is_at place state.x }
{
    match place {
        Some(place) => state.x == place,
        None => false,
    }
}

/// A train that stands, after so many ticks.
pub(crate) fn stand_on(state: TrainState, ticks: u64) -> TrainState
    requires stood { state.stood ≤ 86400 }
    requires ticks { ticks ≤ 86400 }
    ensures { result ≡ rested ticks state }
{
    if ticks == 0 {
        return state;
    }
    TrainState {
        v: 0,
        stood: state.stood + ticks,
        ..state
    }
}

/// How many ticks a train that has stood so many in all has stood when it next leaves a visit, or `most`.
pub(crate) fn next_end(dwells: &[Dwell], stood: u64, most: u64) -> u64
    requires most { stood < most }
    ensures ahead { stood < result }
    ensures within { result ≤ most }
    ensures least { (w : Dwell) → In w dwells.now → (w.until ≤ stood) ⊎ (result ≤ w.until) }
{
    let mut end = most;
    for dwell in dwells {
        if stood < dwell.until {
            end = end.min(dwell.until);
        }
    }
    end
}
