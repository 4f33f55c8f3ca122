//! Points are moved as by rods that give way in proportion to their length.

use crate::ends::{entry_at, is_set, length_at, set_at};
use crate::graph::Graph;
use crate::tracks::Tracks;
use std::alloc::{AllocError, Global};

/// What a rod of a metre weighs in a mean.
const WEIGHT: u64 = 1_000_000_000;

/// The most that a rod weighs.
const HEAVIEST: u64 = 1_000_000;

/// A chain of edges with no points inside.
#[derive(Clone, Copy, Debug, PartialEq, Eq)]
struct Rod {
    first: usize,
    left: usize,
    right: usize,
    /// In mm.
    length: u64,
    /// Whether it is of a crossover.
    slopes: bool,
}

/// The rods of a graph.
#[derive(Drop)]
struct Rods {
    rods: Vec<Rod>,
    /// The rod of each edge.
    of_edges: Vec<Option<usize>>,
}

/// Moves points to the mean of what their rods ask for, at most two sweeps for each of them, there and back; ends hang
/// where their points are, and chains are filled in proportion. The error is want of memory.
pub(crate) fn move_points(
    alloc: Global,
    graph: &Graph,
    tracks: &Tracks,
    places: &mut Vec<u64>,
) -> Result<(), AllocError> {
    let rods = rods_of(alloc, graph, tracks)?;
    let mut moved = Vec::new(alloc);
    for node in graph.order.as_slice() {
        if !graph.is_plain(*node) && many_at(graph, *node) > 1 {
            moved.push(*node)?;
        }
    }
    for _ in 0..moved.len().saturating_add(1) {
        let mut worst = 0;
        for node in moved.as_slice() {
            worst = rods.settle(graph, places.as_mut_slice(), *node).max(worst);
        }
        for node in moved.as_slice().iter().rev() {
            worst = rods.settle(graph, places.as_mut_slice(), *node).max(worst);
        }
        if worst <= 1 {
            break;
        }
    }
    for node in graph.order.as_slice().iter().rev() {
        if !graph.is_plain(*node) && many_at(graph, *node) == 1 {
            rods.hang(graph, places.as_mut_slice(), *node);
        }
    }
    for rod in rods.rods.as_slice() {
        fill(graph, places.as_mut_slice(), *rod);
    }
    Ok(())
}

/// How many edges end at a node.
fn many_at(graph: &Graph, node: usize) -> usize {
    graph.ins(node).len().saturating_add(graph.outs(node).len())
}

/// The rods of a graph. The error is want of memory.
fn rods_of(alloc: Global, graph: &Graph, tracks: &Tracks) -> Result<Rods, AllocError> {
    let mut slopes = vec![in alloc; false; tracks.of_edges.len()]?;
    for (edge, track) in tracks.of_edges.as_slice().iter().enumerate() {
        if let Some(track) = *track
            && let Some(course) = tracks.course(track)
            && course.crosses
        {
            set_at(slopes.as_mut_slice(), edge, true);
        }
    }
    let mut rods = Rods {
        rods: Vec::new(alloc),
        of_edges: vec![in alloc; None; tracks.of_edges.len()]?,
    };
    for node in graph.order.as_slice() {
        if !graph.is_plain(*node) {
            for edge in graph.outs(*node).both() {
                if let Some(edge) = edge {
                    rods.add(graph, *node, edge, is_set(slopes.as_slice(), edge))?;
                }
            }
        }
    }
    Ok(rods)
}

/// The edge that goes on at a plain node.
fn chained(graph: &Graph, edge: usize) -> Option<usize> {
    let right = graph.arc(edge)?.right;
    if graph.is_plain(right) {
        graph.outs(right).first
    } else {
        None
    }
}

/// A place between two others, in proportion.
fn between(one: u64, other: u64, part: u64, whole: u64) -> u64 {
    let whole = whole.max(1);
    let all = other.saturating_sub(one);
    let more = (all / whole).saturating_mul(part);
    let rest = (all % whole).saturating_mul(part) / whole;
    one.saturating_add(more).saturating_add(rest)
}

/// Puts the nodes inside a rod in proportion.
fn fill(graph: &Graph, places: &mut [u64], rod: Rod) {
    let from = length_at(places, rod.left);
    let to = length_at(places, rod.right);
    let mut run = 0_u64;
    let mut edge = rod.first;
    for _ in 0..graph.arcs.len() {
        run = run.saturating_add(graph.length(edge));
        let Some(next) = chained(graph, edge) else {
            break;
        };
        if let Some(arc) = graph.arc(edge) {
            set_at(places, arc.right, between(from, to, run, rod.length));
        }
        edge = next;
    }
}

impl Rods {
    /// Adds the rod from a node that begins with an edge.
    fn add(
        &mut self,
        graph: &Graph,
        left: usize,
        first: usize,
        slopes: bool,
    ) -> Result<(), AllocError> {
        let mut length = 0_u64;
        let mut edge = first;
        let index = self.rods.len();
        for _ in 0..graph.arcs.len() {
            length = length.saturating_add(graph.length(edge));
            set_at(self.of_edges.as_mut_slice(), edge, Some(index));
            let Some(next) = chained(graph, edge) else {
                break;
            };
            edge = next;
        }
        let Some(arc) = graph.arc(edge) else {
            return Ok(());
        };
        self.rods.push(Rod {
            first,
            left,
            right: arc.right,
            length,
            slopes,
        })?;
        Ok(())
    }

    /// The rod of an edge.
    fn rod_of(&self, edge: usize) -> Option<Rod> {
        let index = entry_at(self.of_edges.as_slice(), edge)?;
        self.rods.get(index).copied()
    }

    /// Moves a node to the mean of what its rods ask for, and says how far that is. A crossover that is between half and
    /// four times as long as it says does not ask.
    fn settle(&self, graph: &Graph, places: &mut [u64], node: usize) -> u64 {
        let mut total = 0_u64;
        let mut weights = 0_u64;
        for edge in both_of(graph, node) {
            let Some(rod) = rod_at(self, edge) else {
                continue;
            };
            let gap = length_at(places, rod.right).saturating_sub(length_at(places, rod.left));
            if rod.slopes && rod.length / 2 <= gap && gap <= rod.length.saturating_mul(4) {
                continue;
            }
            let weight = (WEIGHT / rod.length.max(1)).max(1).min(HEAVIEST);
            let asked = asked_by(places, rod, node);
            total = total.saturating_add(asked.saturating_mul(weight));
            weights = weights.saturating_add(weight);
        }
        if weights == 0 {
            return 0;
        }
        let old = length_at(places, node);
        let new = total / weights;
        set_at(places, node, new);
        old.max(new).saturating_sub(old.min(new))
    }

    /// Puts a node with one rod where that ends.
    fn hang(&self, graph: &Graph, places: &mut [u64], node: usize) {
        for edge in both_of(graph, node) {
            if let Some(rod) = rod_at(self, edge)
                && !rod.slopes
            {
                set_at(places, node, asked_by(places, rod, node));
            }
        }
    }
}

/// The edges at a node.
fn both_of(graph: &Graph, node: usize) -> [Option<usize>; 4] {
    let ins = graph.ins(node);
    let outs = graph.outs(node);
    [ins.first, ins.second, outs.first, outs.second]
}

/// The rod of an edge, if there is one.
fn rod_at(rods: &Rods, edge: Option<usize>) -> Option<Rod> {
    rods.rod_of(edge?)
}

/// The place that a rod asks of the node at one of its ends.
fn asked_by(places: &[u64], rod: Rod, node: usize) -> u64 {
    if rod.left == node {
        length_at(places, rod.right).saturating_sub(rod.length)
    } else {
        length_at(places, rod.left).saturating_add(rod.length)
    }
}
