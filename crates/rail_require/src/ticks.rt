//! The ticks that a history has.

ghost use Rattle.std.specs.Prelude.{◌≡◌};
ghost use Rattle.rail_require.specs.Ticks.{is_before, is_by, visit_tick};
ghost use Rattle.rail_spec.specs.Requirements.{is_after};

use rail_base::history::TrainHistory;
use rail_base::station::TrainNo;

/// The tick at which a train makes a visit. None where it hasn't been made, or the history has no such visit.
pub fn visit_tick(history: &[TrainHistory], train: TrainNo, visit: u32) -> Option<u64>
    ensures { result ≡ visit_tick history.now train visit }
{
    let train = history.get((train.0 as usize).checked_sub(1)?)?;
    let made = train
        .visits
        .as_slice()
        .get((visit as usize).checked_sub(1)?)?;
    made.map(|made| made.1)
}

/// Whether the tick has come by the end of tick `now`.
pub(crate) fn is_by(tick: Option<u64>, now: u64) -> bool
    ensures { result ≡ is_by now tick }
{
    tick.is_some_and(|tick| tick <= now)
}

/// Whether the tick has come before tick `now`.
pub(crate) fn is_before(tick: Option<u64>, now: u64) -> bool
    ensures { result ≡ is_before now tick }
{
    tick.is_some_and(|tick| tick < now)
}

/// Whether tick `now` is `most` ticks after this one.
pub(crate) fn is_after(tick: Option<u64>, most: u64, now: u64) -> bool
    ensures { result ≡ is_after most tick now }
{
    tick.is_some_and(|tick| tick.checked_add(most) == Some(now))
}
