//! Tracks as paths of edges, the heaviest first.

use crate::ends::{Pair, entry_at, is_set, set_at};
use crate::graph::Graph;
use crate::straight::{Straight, speed_at};
use rail_base::station::Edge;
use std::alloc::{AllocError, Global};

/// Which edge of a track follows which.
#[derive(Drop)]
pub(crate) struct Paths {
    pub(crate) next: Vec<Option<usize>>,
    pub(crate) previous: Vec<Option<usize>>,
}

/// What is known of an edge while the heaviest path is looked for.
#[derive(Drop)]
struct Search {
    /// The edges that may come before each edge.
    before: Vec<Pair>,
    /// What each edge weighs, in mm.
    weight: Vec<i64>,
    /// The edges with their nodes, from the left to the right.
    order: Vec<(usize, usize, usize)>,
    /// The edges that belong to no track yet.
    free: Vec<bool>,
    /// The weight of the heaviest path that ends with each edge.
    best: Vec<i64>,
    /// The edge before it on that path.
    prev: Vec<Option<usize>>,
}

/// The tracks of a graph: the heaviest path of edges that go straight on into one another, then the heaviest of those
/// that are left, and so on. The error is want of memory.
pub(crate) fn paths_of(
    alloc: Global,
    graph: &Graph,
    edges: &[Edge],
    straight: &Straight,
) -> Result<Paths, AllocError> {
    let mut search = Search::new(alloc, graph, straight)?;
    let many = graph.arcs.len();
    let mut paths = Paths {
        next: vec![in alloc; None; many]?,
        previous: vec![in alloc; None; many]?,
    };
    for _ in 0..many {
        let Some(last) = search.heaviest() else {
            break;
        };
        search.take(last, &mut paths);
    }
    for link in straight.links.as_slice() {
        paths.join(link.before, link.after);
    }
    for (edge, arc) in graph.arcs.as_slice().iter().enumerate() {
        if arc.is_some() {
            paths.prefer_shorter(graph, edges, edge);
        }
    }
    Ok(paths)
}

/// Whether an edge leads from points to points that open the same way.
fn is_ladder(graph: &Graph, left: usize, right: usize) -> bool {
    let opens = graph.outs(left).len() == 2
        && graph.outs(right).len() == 2
        && graph.ins(right).len() == 1;
    let closes = graph.ins(right).len() == 2
        && graph.ins(left).len() == 2
        && graph.outs(left).len() == 1;
    opens || closes
}

/// The mean length of the edges of a graph, in mm.
fn mean_length(graph: &Graph) -> i64 {
    let mut total: i64 = 0;
    let mut many: i64 = 0;
    for (edge, arc) in graph.arcs.as_slice().iter().enumerate() {
        if arc.is_some() {
            total = total.saturating_add(weight_of(graph, edge));
            many = many.saturating_add(1);
        }
    }
    if many > 0 { total / many } else { 0 }
}

/// The length of an edge, in mm.
fn weight_of(graph: &Graph, edge: usize) -> i64 {
    i64::try_from(graph.length(edge)).unwrap_or(0)
}

impl Search {
    /// The edges with their weights: their lengths, less a mean edge for one of a ladder that begins or ends at a tie.
    fn new(alloc: Global, graph: &Graph, straight: &Straight) -> Result<Search, AllocError> {
        let many = graph.arcs.len();
        let mean = mean_length(graph);
        let mut search = Search {
            before: vec![in alloc; Pair::none(); many]?,
            weight: vec![in alloc; 0; many]?,
            order: Vec::with_capacity(alloc, many)?,
            free: vec![in alloc; false; many]?,
            best: vec![in alloc; 0; many]?,
            prev: vec![in alloc; None; many]?,
        };
        for link in straight.links.as_slice() {
            search.add_link(link.before, link.after);
        }
        for (edge, arc) in graph.arcs.as_slice().iter().enumerate() {
            let Some(arc) = *arc else { continue };
            let costs = is_ladder(graph, arc.left, arc.right)
                && (straight.is_tie(arc.left) || straight.is_tie(arc.right));
            let less = if costs { mean } else { 0 };
            let weight = weight_of(graph, edge).saturating_sub(less);
            set_at(search.weight.as_mut_slice(), edge, weight);
            set_at(search.free.as_mut_slice(), edge, true);
            search
                .order
                .push((graph.rank_of(arc.left), graph.rank_of(arc.right), edge))?;
        }
        search.order.sort()?;
        Ok(search)
    }

    /// Notes that an edge may come before another.
    fn add_link(&mut self, before: usize, after: usize) {
        let pair = self.before_of(after).with(before);
        set_at(self.before.as_mut_slice(), after, pair);
    }

    /// The edges that may come before an edge.
    fn before_of(&self, edge: usize) -> Pair {
        self.before.get(edge).copied().unwrap_or(Pair::none())
    }

    /// The weight of the heaviest path that ends with an edge.
    fn best_at(&self, edge: usize) -> i64 {
        self.best.get(edge).copied().unwrap_or(0)
    }

    /// Finds the heaviest path that ends with a free edge.
    fn extend(&mut self, edge: usize) {
        let own = self.weight.get(edge).copied().unwrap_or(0);
        let mut best = own;
        let mut prev = None;
        for before in self.before_of(edge).both() {
            if let Some(before) = before {
                let all = self.best_at(before).saturating_add(own);
                if is_set(self.free.as_slice(), before) && best < all {
                    best = all;
                    prev = Some(before);
                }
            }
        }
        set_at(self.best.as_mut_slice(), edge, best);
        set_at(self.prev.as_mut_slice(), edge, prev);
    }

    /// The last edge of the heaviest path of free edges, if there are any.
    fn heaviest(&mut self) -> Option<usize> {
        let mut last = None;
        let mut most = 0;
        for place in 0..self.order.len() {
            let Some((_, _, edge)) = self.order.get(place).copied() else {
                break;
            };
            if is_set(self.free.as_slice(), edge) {
                self.extend(edge);
                let best = self.best_at(edge);
                if last.is_none() || most < best {
                    last = Some(edge);
                    most = best;
                }
            }
        }
        last
    }

    /// Makes a track of the path that ends with an edge.
    fn take(&mut self, last: usize, paths: &mut Paths) {
        let mut edge = last;
        for _ in 0..self.free.len() {
            set_at(self.free.as_mut_slice(), edge, false);
            let Some(before) = entry_at(self.prev.as_slice(), edge) else {
                break;
            };
            paths.join(before, edge);
            edge = before;
        }
    }
}

impl Paths {
    /// The edge that follows an edge.
    pub(crate) fn after(&self, edge: usize) -> Option<usize> {
        entry_at(self.next.as_slice(), edge)
    }

    /// The edge before an edge.
    pub(crate) fn before(&self, edge: usize) -> Option<usize> {
        entry_at(self.previous.as_slice(), edge)
    }

    /// Joins two edges that end a track and begin one.
    fn join(&mut self, before: usize, after: usize) {
        if self.after(before).is_none() && self.before(after).is_none() {
            set_at(self.next.as_mut_slice(), before, Some(after));
            set_at(self.previous.as_mut_slice(), after, Some(before));
        }
    }

    /// Cuts a track before an edge.
    fn cut_before(&mut self, edge: usize) {
        if let Some(before) = self.before(edge) {
            set_at(self.next.as_mut_slice(), before, None);
            set_at(self.previous.as_mut_slice(), edge, None);
        }
    }

    /// Of two ways between the same points, at one speed, the shorter is straight, or the first of the file: where a
    /// track that begins with an edge is one of them and another track has the other, they change places.
    fn prefer_shorter(&mut self, graph: &Graph, edges: &[Edge], first: usize) {
        if self.before(first).is_some() {
            return;
        }
        let Some(own) = self.way_from(graph, edges, first) else {
            return;
        };
        let Some(arc) = graph.arc(first) else {
            return;
        };
        for beside in graph.outs(arc.left).both() {
            if let Some(beside) = beside
                && beside != first
                && let Some(other) = self.way_from(graph, edges, beside)
                && own.is_rather_straight(other)
                && self.after(own.last).is_none()
            {
                self.exchange(own, other);
            }
        }
    }

    /// Puts a way into a track in place of another.
    fn exchange(&mut self, own: Way, other: Way) {
        let (Some(before), Some(after)) = (self.before(other.first), self.after(other.last)) else {
            return;
        };
        self.cut_before(other.first);
        self.cut_before(after);
        self.join(before, own.first);
        self.join(own.last, after);
    }

    /// The way along a track from an edge to the next points, if there are any.
    fn way_from(&self, graph: &Graph, edges: &[Edge], first: usize) -> Option<Way> {
        let mut last = first;
        let mut length = 0_u64;
        let mut slowest = u32::MAX;
        for _ in 0..edges.len() {
            length = length.saturating_add(graph.length(last));
            slowest = speed_at(edges, last).min(slowest);
            let end = graph.arc(last)?.right;
            if !graph.is_plain(end) {
                return Some(Way {
                    first,
                    last,
                    end,
                    length,
                    speeds: (slowest, speed_at(edges, first), speed_at(edges, last)),
                });
            }
            last = self.after(last)?;
        }
        None
    }
}

/// A way between points.
#[derive(Clone, Copy, Debug, PartialEq, Eq)]
struct Way {
    first: usize,
    last: usize,
    /// The node at which it ends.
    end: usize,
    /// In mm.
    length: u64,
    /// The least speed, and those of the first and the last edge.
    speeds: (u32, u32, u32),
}

impl Way {
    /// Whether it is straight rather than another one between the same points.
    fn is_rather_straight(self, other: Way) -> bool {
        self.end == other.end
            && self.speeds == other.speeds
            && (self.length, self.first) < (other.length, other.first)
    }
}
