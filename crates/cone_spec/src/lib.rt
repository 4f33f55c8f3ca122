//! Cones: the part of a run that shows why every plan with that part fails.
#![tactic(auto)]

pub mod laws;

use rail_base::list::List;
use rail_base::plan::{Command, Violation};
use rail_base::route::RouteNo;
use rail_base::station::TrainNo;

/// What a cone says of one train.
#[derive(Drop)]
pub struct ConeTrain {
    pub train: TrainNo,
    /// The last tick up to which the train is followed.
    pub horizon: u64,
    /// How many commands of the path are free, from its first on; the others wait.
    pub free: u32,
    /// A prefix of the train's path.
    pub path: List<RouteNo>,
    /// The command that holds up the first waiting one.
    pub holder: Option<Command>,
}

/// Some trains of a run up to a tick each, which command waits for which, and a violation that is certain by then.
#[derive(Drop)]
pub struct Cone {
    /// In increasing order.
    pub trains: List<ConeTrain>,
    /// The second command of each waits for the first. In increasing order.
    pub pairs: List<(Command, Command)>,
    pub violation: Violation,
}

/// Why a cone shows nothing: the first of these that holds.
#[derive(Clone, Copy, Debug, PartialEq, Eq)]
pub enum ConeFault {
    /// It names what the design does not have, or not in order, or a path that no train can go.
    PathNotInDesign,
    /// A free command is not granted by its train's horizon.
    CommandNotGranted,
    /// A train waits for a command that does not hold it up, or for none where it has to.
    HolderNotValid,
    /// The violation is not certain by the horizons of its trains.
    ViolationNotShown,
}
