//! The track as a graph from the left to the right.

use crate::ends::{Pair, index_of, is_set, length_at, number_at, set_at};
use crate::sides::{Sides, sides_of};
use rail_base::station::{Edge, Station};
use std::alloc::{AllocError, Global};

/// The nodes that an edge joins, from the left to the right.
#[derive(Clone, Copy, Debug, PartialEq, Eq)]
pub(crate) struct Arc {
    pub(crate) left: usize,
    pub(crate) right: usize,
}

/// How an edge goes round that does not lead from the left to the right.
#[derive(Clone, Copy, Debug, PartialEq, Eq)]
pub(crate) enum Around {
    /// It joins two right sides.
    Right,
    /// It joins two left sides.
    Left,
    /// It closes a circle.
    Circle,
}

/// An edge that goes round.
#[derive(Clone, Copy, Debug, PartialEq, Eq)]
pub(crate) struct Turn {
    pub(crate) edge: usize,
    pub(crate) around: Around,
}

/// The edges from the left to the right, the turns beside them, and an order of the nodes along the edges.
#[derive(Drop)]
pub(crate) struct Graph {
    pub(crate) sides: Sides,
    /// For each edge; none for a turn.
    pub(crate) arcs: Vec<Option<Arc>>,
    pub(crate) turns: Vec<Turn>,
    /// The edges that end at the left side of each node, without the turns.
    ins: Vec<Pair>,
    /// The edges that end at the right side of each node, without the turns.
    outs: Vec<Pair>,
    /// The nodes from the left to the right.
    pub(crate) order: Vec<usize>,
    /// The place of each node in that order.
    pub(crate) rank: Vec<usize>,
    /// The length of each edge, in mm.
    lengths: Vec<u64>,
}

/// The graph of a station. The error is want of memory.
pub(crate) fn graph_of(alloc: Global, station: &Station) -> Result<Graph, AllocError> {
    let edges = station.edges.as_slice();
    let nodes = station.nodes.len();
    let mut graph = Graph {
        sides: sides_of(alloc, station)?,
        arcs: Vec::with_capacity(alloc, edges.len())?,
        turns: Vec::new(alloc),
        ins: vec![in alloc; Pair::none(); nodes]?,
        outs: vec![in alloc; Pair::none(); nodes]?,
        order: Vec::with_capacity(alloc, nodes)?,
        rank: vec![in alloc; 0; nodes]?,
        lengths: Vec::with_capacity(alloc, edges.len())?,
    };
    for (index, edge) in edges.iter().enumerate() {
        graph.add(index, edge)?;
    }
    graph.put_in_order(alloc, nodes)?;
    Ok(graph)
}

/// The edges at a node.
fn pair_at(pairs: &[Pair], node: usize) -> Pair {
    pairs.get(node).copied().unwrap_or(Pair::none())
}

impl Graph {
    /// The edges that end at the left side of a node.
    pub(crate) fn ins(&self, node: usize) -> Pair {
        pair_at(self.ins.as_slice(), node)
    }

    /// The edges that end at the right side of a node.
    pub(crate) fn outs(&self, node: usize) -> Pair {
        pair_at(self.outs.as_slice(), node)
    }

    /// The nodes of an edge; none of a turn.
    pub(crate) fn arc(&self, edge: usize) -> Option<Arc> {
        match self.arcs.get(edge) {
            Some(arc) => *arc,
            None => None,
        }
    }

    /// The length of an edge, in mm.
    pub(crate) fn length(&self, edge: usize) -> u64 {
        length_at(self.lengths.as_slice(), edge)
    }

    /// The place of a node in the order from the left to the right.
    pub(crate) fn rank_of(&self, node: usize) -> usize {
        number_at(self.rank.as_slice(), node)
    }

    /// The piece of a node.
    pub(crate) fn piece_of(&self, node: usize) -> usize {
        number_at(self.sides.piece.as_slice(), node)
    }

    /// Whether a node has one edge at each side.
    pub(crate) fn is_plain(&self, node: usize) -> bool {
        self.ins(node).len() == 1 && self.outs(node).len() == 1
    }

    /// Whether a node has one edge at one side and two at the other.
    pub(crate) fn is_points(&self, node: usize) -> bool {
        let left = self.ins(node).len();
        let right = self.outs(node).len();
        (left == 1 && right == 2) || (left == 2 && right == 1)
    }

    /// Adds an edge, from the left to the right or as a turn.
    fn add(&mut self, index: usize, edge: &Edge) -> Result<(), AllocError> {
        self.lengths.push(u64::from(edge.length_mm))?;
        let from = index_of(edge.from.node);
        let to = index_of(edge.to.node);
        let from_right = self.sides.is_right(edge.from);
        if from_right == self.sides.is_right(edge.to) {
            let around = if from_right {
                Around::Right
            } else {
                Around::Left
            };
            self.turns.push(Turn {
                edge: index,
                around,
            })?;
            self.arcs.push(None)?;
            return Ok(());
        }
        let (left, right) = if from_right { (from, to) } else { (to, from) };
        let outs = self.outs(left).with(index);
        let ins = self.ins(right).with(index);
        set_at(self.outs.as_mut_slice(), left, outs);
        set_at(self.ins.as_mut_slice(), right, ins);
        self.arcs.push(Some(Arc { left, right }))?;
        Ok(())
    }

    /// Puts the nodes in order. An edge that closes a circle becomes a turn.
    fn put_in_order(&mut self, alloc: Global, nodes: usize) -> Result<(), AllocError> {
        let mut waiting = Vec::with_capacity(alloc, nodes)?;
        let mut ready = Vec::new(alloc);
        for node in 0..nodes {
            let many = self.ins(node).len();
            waiting.push(many)?;
            if many == 0 {
                ready.push(node)?;
            }
        }
        let mut done = vec![in alloc; false; nodes]?;
        for place in 0..nodes {
            if ready.len() <= place {
                let node = least_waiting(waiting.as_slice(), done.as_slice());
                self.cut_before(node, done.as_slice())?;
                ready.push(node)?;
            }
            let node = number_at(ready.as_slice(), place);
            set_at(done.as_mut_slice(), node, true);
            set_at(self.rank.as_mut_slice(), node, place);
            self.order.push(node)?;
            self.pass(node, &mut waiting, &mut ready)?;
        }
        Ok(())
    }

    /// A node has its place: its neighbours to the right wait for one less.
    fn pass(
        &self,
        node: usize,
        waiting: &mut Vec<usize>,
        ready: &mut Vec<usize>,
    ) -> Result<(), AllocError> {
        for edge in self.outs(node).both() {
            let Some(edge) = edge else { continue };
            let Some(arc) = self.arc(edge) else { continue };
            let left = number_at(waiting.as_slice(), arc.right).saturating_sub(1);
            set_at(waiting.as_mut_slice(), arc.right, left);
            if left == 0 {
                ready.push(arc.right)?;
            }
        }
        Ok(())
    }

    /// Makes turns of the edges to a node whose left nodes have no place yet.
    fn cut_before(&mut self, node: usize, done: &[bool]) -> Result<(), AllocError> {
        for edge in self.ins(node).both() {
            let Some(edge) = edge else { continue };
            let Some(arc) = self.arc(edge) else { continue };
            if is_set(done, arc.left) {
                continue;
            }
            let ins = self.ins(node).without(edge);
            let outs = self.outs(arc.left).without(edge);
            set_at(self.ins.as_mut_slice(), node, ins);
            set_at(self.outs.as_mut_slice(), arc.left, outs);
            set_at(self.arcs.as_mut_slice(), edge, None);
            self.turns.push(Turn {
                edge,
                around: Around::Circle,
            })?;
        }
        Ok(())
    }
}

/// The first of the nodes without a place that wait for the fewest edges.
fn least_waiting(waiting: &[usize], done: &[bool]) -> usize {
    let mut best = None;
    let mut least = 0;
    for (node, many) in waiting.iter().enumerate() {
        if !is_set(done, node) && (best.is_none() || *many < least) {
            best = Some(node);
            least = *many;
        }
    }
    best.unwrap_or(0)
}
