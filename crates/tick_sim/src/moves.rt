//! The moves of trains in a tick.

ghost use Rattle.std.specs.Prelude.{◌≡◌, ◌≤◌, ◌<◌, ◌^◌, IfOk, None, Some, if◌then◌else◌, length};
ghost use Rattle.std.specs.Option.{ForSome, option_or};
ghost use Rattle.rail_motion.specs.Ranges.{IsPlace};
ghost use Rattle.rail_motion.specs.Track.{end_of, stretches_of};
ghost use Rattle.rail_spec.specs.Dispatches.{state_of, track_end};
ghost use Rattle.tick_sim.specs.Running.{AreMovedIn, AreReachedIn, CanMoveIn, moved_in};
ghost use Rattle.tick_sim.specs.Rides.{HasMoved, path_granted, routes_granted, track_granted};

use crate::ride::Ride;
use rail_base::history::TrainHistory;
use rail_base::state::TrainState;
use rail_course::{PathPrefix, PlannedJourneys, granted_on, state_of, stood_after};
use rail_motion::{Ahead, advance};
use std::alloc::{AllocError, Global};

/// All trains after the tick: all grants are seen against the states and the histories before it.
pub(crate) fn next_states<'a>(
    run: &'a PlannedJourneys<'a>,
    alloc: Global,
    states: &[TrainState],
    histories: &[TrainHistory],
) -> Result<Vec<TrainState>, AllocError>
    requires reached { AreReachedIn run.now states.now histories.now }
    ensures { IfOk result (λ s. AreMovedIn run.now states.now histories.now s.items) }
{
    let mut next = Vec::new(alloc);
    for journey in run.journeys.as_slice() {
        let ride = Ride { run, journey };
        next.push(ride.next_state(states, histories))?;
    }
    Ok(next)
}

/// How far a train may go, in mm along its path: to the place at which it has still to stand, or else to the end of
/// the routes of a prefix.
fn authority_end(place: Option<u64>, prefix: PathPrefix) -> Option<i64>
    requires place { ForSome place (λ x. x < 2 ^ 47) }
    requires prefix { prefix.length < 2 ^ 47 }
    ensures value { end_of result ≡ option_or place (if prefix.exits then None else Some prefix.length) }
    ensures range { ForSome result IsPlace }
{
    if let Some(place) = place {
        return Some(place as i64);
    }
    if prefix.exits {
        None
    } else {
        Some(prefix.length as i64)
    }
}

impl<'a> Ride<'a> {
    /// The track ahead of the train where it is granted so many commands and has still to stand at this place.
    fn ahead(&self, granted: usize, place: Option<u64>) -> Ahead<'a>
        requires granted { granted ≤ length (path_granted self.now) }
        requires place { ForSome place (λ x. x < 2 ^ 47) }
        ensures spans { stretches_of result.spans.now ≡ track_granted self.now granted }
        ensures end { end_of result.end ≡ option_or place (track_end (routes_granted self.now granted)) }
    {
        let train_path = &self.journey.train_path;
        let prefixes = train_path.prefixes.as_slice();
        let prefix = prefixes[granted];
        let spans = train_path.spans.as_slice();
        Ahead {
            spans: &spans[..prefix.spans],
            end: authority_end(place, prefix),
        }
    }

    /// The train after the tick, of which so many commands are granted then.
    fn move_train(&self, state: TrainState, granted: usize) -> TrainState
        requires { CanMoveIn self.now.run.now self.now.journey.now.train_path.train granted state }
        ensures { result ≡ moved_in self.now.run.now self.now.journey.now.train_path.train state granted }
    {
        if granted == 0 {
            return state;
        }
        let train_path = &self.journey.train_path;
        let seen = TrainState { granted, ..state };
        let place = train_path.stop_place(seen);
        let ahead = self.ahead(granted, place);
        let (x, v) = advance(&train_path.motor, &ahead, state.x, state.v);
        let stood = stood_after(seen, place);
        TrainState {
            granted,
            x,
            v,
            stood,
        }
    }

    /// The train after the tick before which all trains are in these states and have these histories.
    fn next_state(&self, states: &[TrainState], histories: &[TrainHistory]) -> TrainState
        requires { AreReachedIn self.now.run.now states.now histories.now }
        ensures { HasMoved self.now states.now histories.now result }
    {
        let journey = self.journey;
        let state = state_of(states, journey.train_path.train);
        let granted = granted_on(states, histories, state.granted, journey.waits.as_slice());
        self.move_train(state, granted)
    }
}
