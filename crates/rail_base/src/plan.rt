//! Plans: which train is given which route, in which order.

use crate::list::List;
use crate::route::RouteNo;
use crate::station::TrainNo;

/// A route given to a train.
#[derive(Clone, Copy, Debug, PartialEq, Eq, PartialOrd, Ord)]
pub struct Command {
    pub train: TrainNo,
    pub route: RouteNo,
}

/// A dispatch plan. Its steps are an order and not times, and a step is a set of commands.
#[derive(Drop)]
pub struct Plan {
    pub steps: List<List<Command>>,
}

/// A way in which a plan fails. Visits, commands of a train, orders and withins are counted from 1.
#[derive(Clone, Copy, Debug, PartialEq, Eq)]
pub enum Violation {
    /// The train's path does not make the visit.
    Path { train: TrainNo, visit: u32 },
    /// The greatest time between two visits has passed.
    Within { within: u32 },
    /// Of two visits the second was made, and the first was not made before it.
    Order { order: u32 },
    /// The train's command is not granted by the horizon.
    Grant { train: TrainNo, command: u32 },
    /// The train's visit is not made by the horizon.
    Visit { train: TrainNo, visit: u32 },
}
