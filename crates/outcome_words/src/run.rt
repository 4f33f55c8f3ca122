//! A run that a verdict shows.

use interlocking::Interlocking;
use rail_base::history::TrainHistory;
use rail_base::plan::Plan;

/// What has happened in the run of a plan up to a last tick.
#[derive(Clone, Copy)]
pub(crate) struct ShownRun<'a> {
    pub interlocking: &'a Interlocking,
    pub plan: &'a Plan,
    pub history: &'a [TrainHistory],
    pub last: u64,
}
