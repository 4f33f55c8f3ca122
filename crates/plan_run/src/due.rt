//! When a greatest time may end.

ghost use Rattle.std.specs.Prelude.{◌⊎◌, ◌≤◌, ◌<◌, ◌+◌, ◌-◌};
ghost use Rattle.rail_base.specs.declared.station.Within.{Within};
ghost use Rattle.plan_run.specs.Due.{IsNotDue, NoneIsDue};

use rail_base::design::Design;
use rail_base::station::Within;
use rail_require::{TrainHistory, visit_tick};

/// The next tick, up to the last, at which a greatest time may end.
pub(crate) fn next_due(design: &Design, history: &[TrainHistory], now: u64, last: u64) -> u64
    requires now { now < last }
    ensures after { now < result }
    ensures within { result ≤ last }
    ensures undue { NoneIsDue design.now.station history.now now (result - 1 - now) }
{
    now + 1 + all_open_for(design, history, now, last - now - 1)
}

/// For how many ticks after a tick, up to so many, the greatest time of a within does not end.
fn open_for(design: &Design, history: &[TrainHistory], within: &Within, tick: u64, most: u64) -> u64
    requires { tick < 18446744073709551615 }
    ensures within { result ≤ most }
    ensures undue { IsNotDue design.now.station history.now tick result within.now }
{
    match visit_tick(history, within.from_train, within.from_visit) {
        None => most,
        Some(from) => {
            let longest = u64::from(within.max_ms / design.station.tick_ms);
            ticks_before(from.saturating_add(longest), tick, most)
        }
    }
}

/// How many ticks there are after a tick and before a later one, up to so many.
fn ticks_before(due: u64, tick: u64, most: u64) -> u64
    ensures within { result ≤ most }
    ensures before { (due ≤ tick) ⊎ (tick + result < due) }
{
    if due <= tick {
        most
    } else {
        most.min(due - tick - 1)
    }
}

/// For how many ticks after a tick, up to so many, no greatest time ends.
fn all_open_for(design: &Design, history: &[TrainHistory], tick: u64, most: u64) -> u64
    requires { tick < 18446744073709551615 }
    ensures within { result ≤ most }
    ensures undue { NoneIsDue design.now.station history.now tick result }
{
    let mut quiet = most;
    for within in design.station.withins.as_slice() {
        quiet = open_for(design, history, within, tick, quiet);
    }
    quiet
}
