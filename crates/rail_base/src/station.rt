//! A station: its track and signals, its trains, and what is asked of them.

use crate::list::{List, Name};

/// The number of a node, counted from 1 in file order.
#[derive(Clone, Copy, Debug, PartialEq, Eq, PartialOrd, Ord)]
pub struct NodeNo(pub u32);

/// The number of an edge, counted from 1 in file order.
#[derive(Clone, Copy, Debug, PartialEq, Eq, PartialOrd, Ord)]
pub struct EdgeNo(pub u32);

/// The number of a section, counted from 1 by the first edge that names it.
#[derive(Clone, Copy, Debug, PartialEq, Eq, PartialOrd, Ord)]
pub struct SectionNo(pub u32);

/// The number of a signal, counted from 1 in file order.
#[derive(Clone, Copy, Debug, PartialEq, Eq, PartialOrd, Ord)]
pub struct SignalNo(pub u32);

/// The number of a vehicle, counted from 1 in file order.
#[derive(Clone, Copy, Debug, PartialEq, Eq, PartialOrd, Ord)]
pub struct VehicleNo(pub u32);

/// The number of a train, counted from 1 in file order.
#[derive(Clone, Copy, Debug, PartialEq, Eq, PartialOrd, Ord)]
pub struct TrainNo(pub u32);

/// A side of a node. A path that enters a node by one side leaves it by the other.
#[derive(Clone, Copy, Debug, PartialEq, Eq, PartialOrd, Ord)]
pub enum Side {
    A,
    B,
}

/// A side of one node, where edges may end.
#[derive(Clone, Copy, Debug, PartialEq, Eq, PartialOrd, Ord)]
pub struct End {
    pub node: NodeNo,
    pub side: Side,
}

/// A node of the track graph. Trains enter and exit at a boundary.
#[derive(Drop)]
pub struct Node {
    pub name: Name,
    pub boundary: bool,
}

/// A piece of track between two ends.
#[derive(Drop)]
pub struct Edge {
    pub name: Name,
    pub from: End,
    pub to: End,
    /// In mm.
    pub length_mm: u32,
    /// The speed limit, in mm/s.
    pub speed_mm_s: u32,
    pub section: SectionNo,
}

/// A signal at a node, for trains that leave the node by one side.
#[derive(Drop)]
pub struct Signal {
    pub name: Name,
    pub node: NodeNo,
    pub toward: Side,
}

/// A kind of vehicle.
#[derive(Drop)]
pub struct Vehicle {
    pub name: Name,
    /// In mm.
    pub length_mm: u32,
    /// In mm/s².
    pub accel_mm_s2: u32,
    /// The rate of full braking, in mm/s².
    pub brake_mm_s2: u32,
    /// The top speed, in mm/s.
    pub speed_mm_s: u32,
}

/// A train, with the sets of nodes that it is to visit, in order.
#[derive(Drop)]
pub struct Train {
    pub name: Name,
    pub vehicle: VehicleNo,
    pub visits: List<List<NodeNo>>,
    /// How long it stands at each visit, in ms; as many as there are visits.
    pub dwell_ms: List<u32>,
}

/// One visit is to come before another. Visits are counted from 1.
#[derive(Clone, Copy, Debug, PartialEq, Eq)]
pub struct Order {
    pub first_train: TrainNo,
    pub first_visit: u32,
    pub then_train: TrainNo,
    pub then_visit: u32,
}

/// One visit is to come soon enough after another. Visits are counted from 1.
#[derive(Clone, Copy, Debug, PartialEq, Eq)]
pub struct Within {
    pub from_train: TrainNo,
    pub from_visit: u32,
    pub to_train: TrainNo,
    pub to_visit: u32,
    /// The greatest time between the two, in ms.
    pub max_ms: u32,
}

/// The sections that are kept free behind a signal where a train ends its route.
#[derive(Drop)]
pub struct Overlap {
    pub signal: SignalNo,
    pub sections: List<SectionNo>,
    /// How long they are held after the train's arrival at the signal, in ms.
    pub hold_ms: u32,
}

/// A station and what is asked of its traffic, as a file has it. `Design` is one that the reader admits.
#[derive(Drop)]
pub struct Station {
    pub version: u32,
    /// The length of a tick, in ms.
    pub tick_ms: u32,
    /// By when all is to be done, in ms.
    pub horizon_ms: u32,
    pub nodes: List<Node>,
    pub edges: List<Edge>,
    /// The names of the sections, by their numbers.
    pub sections: List<Name>,
    pub signals: List<Signal>,
    pub vehicles: List<Vehicle>,
    pub trains: List<Train>,
    pub orders: List<Order>,
    pub withins: List<Within>,
    pub overlaps: List<Overlap>,
}
