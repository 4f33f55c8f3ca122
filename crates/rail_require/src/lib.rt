//! What the history of a run says of the requirements: the first violation that is certain at a tick, and whether all
//! is done. Ticks are those of the run; nothing here takes memory.
#![tactic(auto)]

ghost use Rattle.std.specs.Prelude.{◌≡◌, ◌++◌, ◌&&◌, find, is_some, true};
ghost use Rattle.std.specs.List.{list_all};
ghost use Rattle.rail_spec.specs.Requirements.{is_done};
ghost use Rattle.rail_require.specs.Ticks.{HasNumbers};
ghost use Rattle.rail_require.specs.Violations.{violation_in, is_done_in, is_certain, grant_violations};
ghost use Rattle.rail_require.specs.Violations.{visit_violations, IsOfRun, SaysWhetherDone};

mod failures;
pub mod laws;
mod ticks;

use crate::failures::{broken_order, late_within, missing_grant, missing_visit};
use rail_base::design::Design;
pub use rail_base::history::{History, TrainHistory, Verdict};
pub use rail_base::plan::Violation;
pub use ticks::visit_tick;

/// The first violation that is certain at the tick: withins in file order, orders in file order, and at the horizon
/// grants by train and command, then visits by train and visit. A path's is not looked for here.
pub fn first_violation(design: &Design, history: &History, tick: u64) -> Option<Violation>
    requires { HasNumbers history.now }
    ensures value { result ≡ violation_in design.now.station history.now tick }
    ensures run { IsOfRun design.now.station history.now tick result }
{
    violation_of_history(design, history.as_slice(), tick)
}

/// The same of the trains that are not made a history yet.
pub fn violation_of_history(
    design: &Design,
    history: &[TrainHistory],
    tick: u64,
) -> Option<Violation>
    requires { HasNumbers history.now }
    ensures value { result ≡ violation_in design.now.station history.now tick }
    ensures run { IsOfRun design.now.station history.now tick result }
{
    late_within(design, history, tick)
        .or_else(|| broken_order(design, history, tick))
        .or_else(|| first_missing(design, history, tick))
}

/// Whether each command of each train is granted, and each visit made.
pub fn is_done(history: &History) -> bool
    ensures value { result ≡ is_done_in history.now }
    ensures run { SaysWhetherDone history.now result }
{
    are_done(history.as_slice())
}

/// The same of the trains that are not made a history yet.
pub fn are_done(history: &[TrainHistory]) -> bool
    ensures value { result ≡ is_done_in history.now }
    ensures run { SaysWhetherDone history.now result }
{
    all_ended(history) && all_done(history)
}

/// Whether each train has its last command and its last visit: without them not all is done, and they are soon asked.
fn all_ended(history: &[TrainHistory]) -> bool
    ensures { is_done_in history.now ≡ true → result ≡ true }
{
    history.iter().all(has_ended)
}

/// Whether each train has all of them.
fn all_done(history: &[TrainHistory]) -> bool
    ensures { result ≡ is_done_in history.now }
{
    history
        .iter()
        .all(|train| is_granted(train) && is_visited(train))
}

/// Whether the train's last command is granted, and its last visit made.
fn has_ended(train: &TrainHistory) -> bool
    ensures { (list_all (λ g. is_some g.1) train.now.grants && list_all is_some train.now.visits) ≡ true
        → result ≡ true }
{
    let is_granted = match train.grants.as_slice() {
        [.., last] => last.1.is_some(),
        [] => true,
    };
    let is_visited = match train.visits.as_slice() {
        [.., last] => last.is_some(),
        [] => true,
    };
    is_granted && is_visited
}

/// At the horizon, the first command that isn't granted, or else the first visit that isn't made.
fn first_missing(design: &Design, history: &[TrainHistory], tick: u64) -> Option<Violation>
    requires { HasNumbers history.now }
    ensures { result
        ≡ find (is_certain design.now.station history.now tick)
        (grant_violations history.now ++ visit_violations history.now) }
{
    if tick != design.horizon() {
        return None;
    }
    missing_grant(history, tick).or_else(|| missing_visit(history, tick))
}

/// Whether each command of the train is granted.
fn is_granted(train: &TrainHistory) -> bool
    ensures { result ≡ list_all (λ g. is_some g.1) train.now.grants }
{
    train
        .grants
        .as_slice()
        .iter()
        .all(|grant| grant.1.is_some())
}

/// Whether each visit of the train is made.
fn is_visited(train: &TrainHistory) -> bool
    ensures { result ≡ list_all is_some train.now.visits }
{
    train.visits.as_slice().iter().all(|visit| visit.is_some())
}
