//! Which edges go straight on at a node.

use crate::ends::{Pair, is_set, set_at};
use crate::graph::Graph;
use rail_base::station::Edge;
use std::alloc::{AllocError, Global};

/// Two edges that go straight on into one another, from the left to the right.
#[derive(Clone, Copy, Debug, PartialEq, Eq)]
pub(crate) struct Link {
    pub(crate) before: usize,
    pub(crate) after: usize,
}

/// The edges that go straight on into one another.
#[derive(Drop)]
pub(crate) struct Straight {
    pub(crate) links: Vec<Link>,
    /// The points of which two legs go straight on.
    ties: Vec<bool>,
    /// The legs that turn off at some points.
    off: Vec<bool>,
}

/// The speed limit of an edge.
pub(crate) fn speed_at(edges: &[Edge], edge: usize) -> u32 {
    match edges.get(edge) {
        Some(edge) => edge.speed_mm_s,
        None => 0,
    }
}

/// Which edges go straight on. Points are judged from those with the fastest leg to those with the slowest: of the legs
/// that do not turn off at their other end, or else of both, the fastest are straight. The error is want of memory.
pub(crate) fn straight_of(
    alloc: Global,
    graph: &Graph,
    edges: &[Edge],
) -> Result<Straight, AllocError> {
    let mut straight = Straight {
        links: Vec::new(alloc),
        ties: vec![in alloc; false; graph.order.len()]?,
        off: vec![in alloc; false; edges.len()]?,
    };
    let points = points_in_order(alloc, graph, edges)?;
    for (_, _, node) in points.as_slice() {
        straight.judge(graph, edges, *node)?;
    }
    for node in graph.order.as_slice() {
        if graph.is_plain(*node) {
            straight.link(graph.ins(*node).first, graph.outs(*node).first)?;
        }
    }
    Ok(straight)
}

/// The points from those with the fastest leg to those with the slowest, and then from the left to the right.
fn points_in_order(
    alloc: Global,
    graph: &Graph,
    edges: &[Edge],
) -> Result<Vec<(u32, usize, usize)>, AllocError> {
    let mut points = Vec::new(alloc);
    for node in graph.order.as_slice() {
        if graph.is_points(*node) {
            let mut fastest = 0;
            for leg in legs(graph, *node).both() {
                if let Some(leg) = leg {
                    fastest = speed_at(edges, leg).max(fastest);
                }
            }
            let slowness = u32::MAX.saturating_sub(fastest);
            points.push((slowness, graph.rank_of(*node), *node))?;
        }
    }
    points.sort()?;
    Ok(points)
}

/// The two edges at one side of points.
fn legs(graph: &Graph, node: usize) -> Pair {
    if graph.outs(node).len() == 2 {
        graph.outs(node)
    } else {
        graph.ins(node)
    }
}

impl Straight {
    /// Whether two legs of points go straight on.
    pub(crate) fn is_tie(&self, node: usize) -> bool {
        is_set(self.ties.as_slice(), node)
    }

    /// Judges which legs of points go straight on.
    fn judge(&mut self, graph: &Graph, edges: &[Edge], node: usize) -> Result<(), AllocError> {
        let legs = legs(graph, node);
        let (Some(one), Some(other)) = (legs.first, legs.second) else {
            return Ok(());
        };
        let rank_of_one = (!is_set(self.off.as_slice(), one), speed_at(edges, one));
        let rank_of_other = (!is_set(self.off.as_slice(), other), speed_at(edges, other));
        if rank_of_one == rank_of_other {
            set_at(self.ties.as_mut_slice(), node, true);
            self.link_leg(graph, node, one)?;
            return self.link_leg(graph, node, other);
        }
        let (straight, off) = if rank_of_one < rank_of_other {
            (other, one)
        } else {
            (one, other)
        };
        set_at(self.off.as_mut_slice(), off, true);
        self.link_leg(graph, node, straight)
    }

    /// Links a leg of points with the stem.
    fn link_leg(&mut self, graph: &Graph, node: usize, leg: usize) -> Result<(), AllocError> {
        if graph.outs(node).len() == 2 {
            self.link(graph.ins(node).first, Some(leg))
        } else {
            self.link(Some(leg), graph.outs(node).first)
        }
    }

    /// Links two edges, where there are two.
    fn link(&mut self, before: Option<usize>, after: Option<usize>) -> Result<(), AllocError> {
        let (Some(before), Some(after)) = (before, after) else {
            return Ok(());
        };
        self.links.push(Link { before, after })?;
        Ok(())
    }
}
