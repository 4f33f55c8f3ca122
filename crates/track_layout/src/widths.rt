//! How much room names take.

use crate::ends::{index_of, length_at, set_at};
use crate::graph::Graph;
use rail_base::station::{Edge, Station};
use std::alloc::{AllocError, Global};

/// The room beside a node that its signals and their names take, in px; 0 where there is none.
#[derive(Drop)]
pub(crate) struct SignalRoom {
    /// For trains to the right.
    right: Vec<u64>,
    /// For trains to the left.
    left: Vec<u64>,
}

/// The most that a name of so many characters takes, in px.
pub fn name_width(characters: usize) -> u64 {
    (characters as u64).saturating_mul(6).saturating_add(2)
}

/// The room that signals take. The error is want of memory.
pub(crate) fn signal_room(
    alloc: Global,
    station: &Station,
    graph: &Graph,
) -> Result<SignalRoom, AllocError> {
    let many = station.nodes.len();
    let mut room = SignalRoom {
        right: vec![in alloc; 0; many]?,
        left: vec![in alloc; 0; many]?,
    };
    for signal in station.signals.as_slice() {
        let node = index_of(signal.node);
        let width = name_width(signal.name.as_bytes().len()).saturating_add(15);
        if graph.sides.left_of(node) == Some(signal.toward) {
            set_at(room.left.as_mut_slice(), node, width);
        } else {
            set_at(room.right.as_mut_slice(), node, width);
        }
    }
    Ok(room)
}

impl SignalRoom {
    /// The room at the right or at the left of a node.
    pub(crate) fn at(&self, node: usize, right: bool) -> u64 {
        if right {
            length_at(self.right.as_slice(), node)
        } else {
            length_at(self.left.as_slice(), node)
        }
    }
}

/// The room that the names at an edge ask for, in px.
pub(crate) fn names_room(
    station: &Station,
    room: &SignalRoom,
    edge: &Edge,
    left: usize,
    right: usize,
) -> u64 {
    let section = (edge.section.0 as usize).saturating_sub(1);
    let section = match station.sections.as_slice().get(section) {
        Some(name) => name_width(name.as_bytes().len()),
        None => 0,
    };
    let both = match (node_width(station, left), node_width(station, right)) {
        (Some(one), Some(other)) => one / 2 + other / 2,
        (Some(_), None) => 0,
        (None, Some(_)) => 0,
        (None, None) => 0,
    };
    section
        .max(both)
        .max(room.at(left, true))
        .max(room.at(right, false))
        .saturating_add(8)
}

/// The width of the name of a node that is no boundary.
fn node_width(station: &Station, node: usize) -> Option<u64> {
    let node = station.nodes.as_slice().get(node)?;
    if node.boundary {
        None
    } else {
        Some(name_width(node.name.as_bytes().len()))
    }
}
