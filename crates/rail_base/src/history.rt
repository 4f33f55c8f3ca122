//! What happened in a run of a plan, and what it shows.

use crate::list::List;
use crate::plan::Violation;
use crate::route::RouteNo;
use crate::station::{NodeNo, SectionNo};

/// What happened to one train up to a tick. Each entry has its tick, or none where it hasn't come by then.
#[derive(Drop)]
pub struct TrainHistory {
    /// The commands of the train's path, in path order.
    pub grants: List<(RouteNo, Option<u64>)>,
    /// The nodes of its path, in path order.
    pub passes: List<(NodeNo, Option<u64>)>,
    /// The sections that each route of its path goes over, in path order.
    pub releases: List<(RouteNo, SectionNo, Option<u64>)>,
    /// The sections of the overlap at the end of each route of its path, in path order.
    pub holds: List<(RouteNo, SectionNo, Option<u64>)>,
    /// Its visits, in order, each with the node at which it was made.
    pub visits: List<Option<(NodeNo, u64)>>,
    /// For each visit the tick at which it has stood long enough there; none where it need not stand, or has not yet.
    pub dwells: List<Option<u64>>,
}

/// What happened to each train, in file order.
pub type History = List<TrainHistory>;

/// What a run shows of a plan.
#[derive(Drop)]
pub enum Verdict {
    /// The plan meets the design; all is done at this tick.
    Met {
        history: History,
        tick: u64,
    },
    /// The plan fails at this tick. Where a path fails the history is empty and the tick is 1.
    Failed {
        history: History,
        tick: u64,
        violation: Violation,
    },
    /// The deciding tick is past the ticks that were to be run.
    Undecided,
}
