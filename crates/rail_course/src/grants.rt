//! Which commands are granted in a tick.

ghost use Rattle.std.specs.Prelude.{◌≡◌, ◌<◌, map, slice_get};
ghost use Rattle.std.specs.List.{list_all};
ghost use Rattle.rail_spec.specs.Dispatches.{state_of};
ghost use Rattle.rail_course.specs.Granting.{granted_on, hold_end, is_seen_over};

use crate::waits::Wait;
use rail_base::history::TrainHistory;
use rail_base::state::TrainState;
use rail_base::station::TrainNo;

/// How a train begins: nothing is granted, and it stands at the start of its path.
pub const IDLE: TrainState = TrainState {
    granted: 0,
    x: 0,
    v: 0,
    stood: 0,
};

/// The state of a train; who is no train is idle.
pub fn state_of(states: &[TrainState], train: TrainNo) -> TrainState
    ensures { result ≡ state_of states.now train }
{
    if train.0 == 0 || states.len() < train.0 as usize {
        return IDLE;
    }
    states[train.0 as usize - 1]
}

/// How many commands are granted after the tick, where so many are before it and these are the waits of each.
pub fn granted_on(
    states: &[TrainState],
    histories: &[TrainHistory],
    granted: usize,
    waits: &[Vec<Wait>],
) -> usize
    ensures { result ≡ granted_on states.now histories.now granted (slice_get (map (λ v. v.items) waits.now) granted) }
{
    if waits.len() <= granted {
        return granted;
    }
    if are_over(states, histories, waits[granted].as_slice()) {
        granted + 1
    } else {
        granted
    }
}

/// The tick at which a train's hold of this number, counted from 0, has ended.
fn hold_end(histories: &[TrainHistory], train: TrainNo, number: usize) -> Option<u64>
    ensures { result ≡ hold_end histories.now train number }
{
    let history = histories.get((train.0 as usize).checked_sub(1)?)?;
    let hold = history.holds.as_slice().get(number)?;
    hold.2
}

/// Whether a wait is over.
fn is_over(states: &[TrainState], histories: &[TrainHistory], wait: &Wait) -> bool
    ensures { result ≡ is_seen_over states.now histories.now wait.now }
{
    let event = wait.event;
    match wait.hold {
        Some(number) => hold_end(histories, event.train, number).is_some(),
        None => event.event.has_happened(state_of(states, event.train)),
    }
}

/// Whether all of these waits are over.
fn are_over(states: &[TrainState], histories: &[TrainHistory], waits: &[Wait]) -> bool
    ensures { result ≡ list_all (is_seen_over states.now histories.now) waits.now }
{
    waits.iter().all(|wait| is_over(states, histories, wait))
}
