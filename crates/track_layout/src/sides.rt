//! Which side of each node lies to the left, and which nodes are connected.

use crate::ends::{Ends, ends_of, index_of, other_side, set_at};
use rail_base::station::{Edge, End, Side, Signal, Station};
use std::alloc::{AllocError, Global};

/// How the nodes lie. An edge that leaves a node by its right side ends at a left side, unless it is a turn.
#[derive(Drop)]
pub(crate) struct Sides {
    /// The side of each node that lies to the left; none where it is not known yet.
    pub(crate) left: Vec<Option<Side>>,
    /// The connected piece of track of each node.
    pub(crate) piece: Vec<usize>,
    /// How many pieces there are.
    pub(crate) pieces: usize,
    /// The nodes in the order in which they were reached.
    reached: Vec<usize>,
}

/// How the nodes of a station lie, from the first boundary of each piece, or else its first node, by breadth first. The
/// first edge of the file at that node leaves it to the right. The error is want of memory.
pub(crate) fn sides_of(alloc: Global, station: &Station) -> Result<Sides, AllocError> {
    let nodes = station.nodes.as_slice();
    let edges = station.edges.as_slice();
    let ends = ends_of(alloc, nodes, edges)?;
    let mut sides = Sides {
        left: vec![in alloc; None; nodes.len()]?,
        piece: vec![in alloc; 0; nodes.len()]?,
        pieces: 0,
        reached: Vec::with_capacity(alloc, nodes.len())?,
    };
    for (node, at) in nodes.iter().enumerate() {
        if at.boundary {
            sides.begin(station, ends.as_slice(), node)?;
        }
    }
    for node in 0..nodes.len() {
        sides.begin(station, ends.as_slice(), node)?;
    }
    Ok(sides)
}

impl Sides {
    /// The side of a node that lies to the left, if it is known.
    pub(crate) fn left_of(&self, node: usize) -> Option<Side> {
        match self.left.get(node) {
            Some(side) => *side,
            None => None,
        }
    }

    /// Whether a side of a node lies to the right.
    pub(crate) fn is_right(&self, end: End) -> bool {
        self.left_of(index_of(end.node)) != Some(end.side)
    }

    /// Goes over a piece from a node, unless that is reached already.
    fn begin(&mut self, station: &Station, ends: &[Ends], node: usize) -> Result<(), AllocError> {
        if self.left_of(node).is_some() {
            return Ok(());
        }
        let from = self.reached.len();
        let left = first_left(station.signals.as_slice(), ends, node);
        self.reach(node, left)?;
        for head in from..ends.len() {
            let Some(next) = self.reached.get(head).copied() else {
                break;
            };
            self.go_on(station.edges.as_slice(), ends, next)?;
        }
        self.pieces = self.pieces.saturating_add(1);
        Ok(())
    }

    /// Reaches the neighbours of a node, first those to the right.
    fn go_on(&mut self, edges: &[Edge], ends: &[Ends], node: usize) -> Result<(), AllocError> {
        let left = self.left_of(node).unwrap_or(Side::A);
        let Some(at) = ends.get(node).copied() else {
            return Ok(());
        };
        for side in [other_side(left), left] {
            for edge in at.at(side).both() {
                if let Some(far) = far_end(edges, edge, node, side) {
                    let new = if side == left {
                        other_side(far.side)
                    } else {
                        far.side
                    };
                    self.reach(index_of(far.node), new)?;
                }
            }
        }
        Ok(())
    }

    /// Notes which side of a node lies to the left, unless that is known.
    fn reach(&mut self, node: usize, left: Side) -> Result<(), AllocError> {
        if node < self.left.len() && self.left_of(node).is_none() {
            set_at(self.left.as_mut_slice(), node, Some(left));
            set_at(self.piece.as_mut_slice(), node, self.pieces);
            self.reached.push(node)?;
        }
        Ok(())
    }
}

/// The other end of an edge that ends at a side of a node.
fn far_end(edges: &[Edge], edge: Option<usize>, node: usize, side: Side) -> Option<End> {
    let edge = edges.get(edge?)?;
    if index_of(edge.from.node) == node && edge.from.side == side {
        Some(edge.to)
    } else {
        Some(edge.from)
    }
}

/// The left side of the node at which a piece begins: not that of its first edge. Of a node without edges the first
/// signal looks to the right.
fn first_left(signals: &[Signal], ends: &[Ends], node: usize) -> Side {
    match ends.get(node) {
        Some(at) => match (at.a.first, at.b.first) {
            (Some(one), Some(other)) => { if one < other { Side::B } else { Side::A } }
            (Some(_), None) => Side::B,
            (None, Some(_)) => Side::A,
            (None, None) => behind_first_signal(signals, node),
        },
        None => Side::A,
    }
}

/// The side behind the first signal of a node; A where there is none.
fn behind_first_signal(signals: &[Signal], node: usize) -> Side {
    for signal in signals {
        if index_of(signal.node) == node {
            return other_side(signal.toward);
        }
    }
    Side::A
}
