//! Visits that are made at a tick.

ghost use Rattle.std.specs.Prelude.{◌≡◌};
ghost use Rattle.rail_require.specs.Ticks.{makes_visit_at};
ghost use Rattle.dispatch_run.specs.Looks.{has_looked_visit_at};

use crate::looks::Look;
use rail_base::history::TrainHistory;

/// Whether a train that was to be looked at in a tick makes a visit then. What the others have made they made earlier.
pub(crate) fn has_looked_visit_at(looks: &[Look], histories: &[TrainHistory], tick: u64) -> bool
    ensures { result ≡ has_looked_visit_at tick looks.now histories.now }
{
    looks.iter().zip(histories.iter()).any(|(look, history)| look.until == tick
        && makes_visit_at(history, tick))
}

/// Whether a train makes a visit at a tick.
fn makes_visit_at(history: &TrainHistory, tick: u64) -> bool
    ensures { result ≡ makes_visit_at tick history.now }
{
    history
        .visits
        .as_slice()
        .iter()
        .any(|visit| visit.is_some_and(|made| made.1 == tick))
}
