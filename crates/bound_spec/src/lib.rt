//! Lower bounds: how many ticks a chain of trains that wait for each other takes at the least, however other trains
//! move, and what that says of all plans.
#![tactic(auto)]

pub mod laws;
mod legs;

use cone_spec::{Cone, ConeFault};
pub use legs::{first_routes, first_train, last_routes, last_train, routes_of};
use rail_base::list::List;
use rail_base::plan::Command;
use rail_base::route::RouteNo;
use rail_base::station::TrainNo;

/// What is shown to fail. Visits of a train, orders and withins are counted from 1.
#[derive(Clone, Copy, Debug, PartialEq, Eq)]
pub enum Requirement {
    /// The greatest time between two visits.
    Within { within: u32 },
    /// That one visit is made before another.
    Order { order: u32 },
    /// That a visit is made by the horizon.
    Visit { train: TrainNo, visit: u32 },
    /// That a command is granted by the horizon.
    Grant { command: Command },
}

/// From where the ticks are counted.
#[derive(Drop)]
pub enum Origin {
    /// From the first of the requirement's two visits.
    Visit,
    /// From the start of the run.
    Start,
    /// From the start of the run, where the first of the requirement's two visits is made in the first tick.
    FirstTick,
    /// From the start of the run, where the first of the two visits is made at this tick in the run of a cone. The
    /// cone's violation is that of the requirement.
    Cone { tick: u64, cone: Cone },
}

/// What is known of one route of a leg.
#[derive(Drop)]
pub enum Place {
    /// The train uses this route.
    Named {
        route: RouteNo,
    },
    /// The train uses one of the routes, since it uses none of the others. Both in increasing order.
    Among {
        routes: List<RouteNo>,
        without: List<RouteNo>,
    },
}

/// Routes in a row of one train.
#[derive(Drop)]
pub struct Leg {
    pub train: TrainNo,
    pub places: List<Place>,
}

/// Legs of which each waits for what the one before releases, and the requirement that fails since they take so long.
#[derive(Drop)]
pub struct Bound {
    pub requirement: Requirement,
    pub origin: Origin,
    pub legs: List<Leg>,
}

/// What the clause of a line of a proof is shown by.
#[derive(Drop)]
pub enum Evidence {
    /// How a failure of a plan comes about.
    Cone(Cone),
    /// How long a chain of trains takes.
    Bound(Bound),
}

/// Why it shows nothing.
#[derive(Clone, Copy, Debug, PartialEq, Eq)]
pub enum EvidenceFault {
    Cone(ConeFault),
    Bound(BoundFault),
}

/// Why a certificate shows nothing: the first of these that holds.
#[derive(Clone, Copy, Debug, PartialEq, Eq)]
pub enum BoundFault {
    /// It names what the design does not have, or not in order, or legs that do not wait for each other.
    BoundNotInDesign,
    /// At some place the train may use a route that is neither one of it nor kept out.
    PlaceNotCovered,
    /// The legs do not take so long that the requirement fails.
    BoundNotShown,
}
