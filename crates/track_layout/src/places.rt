//! Places of nodes along their piece of track, in mm.

use crate::ends::{is_set, length_at, number_at, set_at};
use crate::graph::Graph;
use crate::rods::move_points;
use crate::tracks::{Course, Tracks};
use rail_base::station::Node;
use std::alloc::{AllocError, Global};

/// Where the first track of a piece begins, in mm, with room for all that lies before it.
const ORIGIN: u64 = 1_000_000_000_000;

/// Places as they are found.
#[derive(Drop)]
struct Places {
    /// The place of each node that has one.
    places: Vec<Option<u64>>,
    /// The distance of each node from the begin of the track inside which it lies.
    along: Vec<u64>,
    /// Where the first track of each piece begins.
    begins: Vec<Option<u64>>,
    /// The tracks that have their places.
    done: Vec<bool>,
    /// The length of each track, in mm.
    lengths: Vec<u64>,
}

/// The place of each node along its piece, from the leftmost node of the piece. Each edge is as long as it says, as far
/// as that can be. The error is want of memory.
pub(crate) fn places_of(
    alloc: Global,
    nodes: &[Node],
    graph: &Graph,
    tracks: &Tracks,
) -> Result<Vec<u64>, AllocError> {
    let mut places = Places::new(alloc, graph, tracks)?;
    for _ in 0..tracks.courses.len() {
        let Some(track) = places.next_track(alloc, graph, tracks)? else {
            break;
        };
        places.put(nodes, graph, tracks, track);
    }
    for track in tracks.grounded(alloc)?.as_slice() {
        places.put_inside(graph, tracks, *track);
    }
    let mut found = places.all(alloc)?;
    move_points(alloc, graph, tracks, &mut found)?;
    grow_along(graph, found.as_mut_slice());
    begin_at_zero(alloc, graph, found.as_mut_slice())?;
    Ok(found)
}

/// Along each edge the place grows by a quarter of its length at least.
fn grow_along(graph: &Graph, places: &mut [u64]) {
    for node in graph.order.as_slice() {
        for edge in graph.ins(*node).both() {
            if let Some(edge) = edge
                && let Some(arc) = graph.arc(edge)
            {
                let least = (graph.length(edge) / 4).max(1);
                let from = length_at(places, arc.left).saturating_add(least);
                let place = length_at(places, *node).max(from);
                set_at(places, *node, place);
            }
        }
    }
}

/// Counts places from the leftmost node of each piece.
fn begin_at_zero(alloc: Global, graph: &Graph, places: &mut [u64]) -> Result<(), AllocError> {
    let mut least = vec![in alloc; u64::MAX; graph.sides.pieces]?;
    for node in graph.order.as_slice() {
        let piece = graph.piece_of(*node);
        let place = length_at(places, *node).min(length_at(least.as_slice(), piece));
        set_at(least.as_mut_slice(), piece, place);
    }
    for node in graph.order.as_slice() {
        let from = length_at(least.as_slice(), graph.piece_of(*node));
        let place = length_at(places, *node).saturating_sub(from);
        set_at(places, *node, place);
    }
    Ok(())
}

/// The place at an index, if it is known.
fn place_at(places: &[Option<u64>], index: usize) -> Option<u64> {
    match places.get(index) {
        Some(place) => *place,
        None => None,
    }
}

impl Places {
    /// No place is known yet.
    fn new(alloc: Global, graph: &Graph, tracks: &Tracks) -> Result<Places, AllocError> {
        let mut places = Places {
            places: vec![in alloc; None; graph.order.len()]?,
            along: vec![in alloc; 0; graph.order.len()]?,
            begins: vec![in alloc; None; graph.sides.pieces]?,
            done: vec![in alloc; false; tracks.courses.len()]?,
            lengths: Vec::with_capacity(alloc, tracks.courses.len())?,
        };
        for course in tracks.courses.as_slice() {
            let length = places.measure(graph, tracks, *course);
            places.lengths.push(length)?;
        }
        Ok(places)
    }

    /// Notes how far the nodes inside a track are from its begin, and says how long it is.
    fn measure(&mut self, graph: &Graph, tracks: &Tracks, course: Course) -> u64 {
        let mut length = 0_u64;
        let mut next = course.first;
        for _ in 0..tracks.of_edges.len() {
            let Some(edge) = next else { break };
            length = length.saturating_add(graph.length(edge));
            next = tracks.after(edge);
            if next.is_some()
                && let Some(arc) = graph.arc(edge)
            {
                set_at(self.along.as_mut_slice(), arc.right, length);
            }
        }
        length
    }

    /// The next track to be put: first one with a node that has its place, then one with a crossover to such a node,
    /// then any; none where all are put. The error is want of memory.
    fn next_track(
        &self,
        alloc: Global,
        graph: &Graph,
        tracks: &Tracks,
    ) -> Result<Option<usize>, AllocError> {
        let mut hinted = vec![in alloc; false; tracks.courses.len()]?;
        for course in tracks.courses.as_slice() {
            if course.crosses {
                if self.is_placed(course.left) {
                    set_at(hinted.as_mut_slice(), course.ends_on.unwrap_or(0), true);
                }
                if self.is_placed(course.right) {
                    set_at(hinted.as_mut_slice(), course.begins_on.unwrap_or(0), true);
                }
            }
        }
        let mut best = None;
        let mut least: usize = 0;
        for (track, course) in tracks.courses.as_slice().iter().enumerate() {
            if course.crosses || course.first.is_none() || is_set(self.done.as_slice(), track) {
                continue;
            }
            let far = if self.has_placed(graph, tracks, *course) {
                0
            } else if is_set(hinted.as_slice(), track) {
                1
            } else {
                2
            };
            if best.is_none() || far < least {
                best = Some(track);
                least = far;
            }
        }
        Ok(best)
    }

    /// Whether a node has its place.
    fn is_placed(&self, node: usize) -> bool {
        place_at(self.places.as_slice(), node).is_some()
    }

    /// Whether a node of a track has its place.
    fn has_placed(&self, graph: &Graph, tracks: &Tracks, course: Course) -> bool {
        self.offset(graph, tracks, course).is_some()
    }

    /// Where a track begins by the first of its nodes that has its place.
    fn offset(&self, graph: &Graph, tracks: &Tracks, course: Course) -> Option<u64> {
        if let Some(place) = place_at(self.places.as_slice(), course.left) {
            return Some(place);
        }
        let mut run = 0_u64;
        let mut next = course.first;
        for _ in 0..tracks.of_edges.len() {
            let edge = next?;
            run = run.saturating_add(graph.length(edge));
            let right = graph.arc(edge)?.right;
            if let Some(place) = place_at(self.places.as_slice(), right) {
                return Some(place.saturating_sub(run));
            }
            next = tracks.after(edge);
        }
        None
    }

    /// Puts a track: where a node of it lies, or where its crossovers ask for, or where its piece begins.
    fn put(&mut self, nodes: &[Node], graph: &Graph, tracks: &Tracks, track: usize) {
        set_at(self.done.as_mut_slice(), track, true);
        let Some(course) = tracks.course(track) else {
            return;
        };
        let piece = graph.piece_of(course.left);
        let begin = match self.offset(graph, tracks, course) {
            Some(begin) => begin,
            None => {
                let first = place_at(self.begins.as_slice(), piece).unwrap_or(ORIGIN);
                let is_boundary = match nodes.get(course.left) {
                    Some(node) => node.boundary,
                    None => false,
                };
                self.asked(tracks, track, first, is_boundary)
            }
        };
        self.put_from(graph, tracks, course, begin);
        if place_at(self.begins.as_slice(), piece).is_none() {
            set_at(self.begins.as_mut_slice(), piece, Some(begin));
        }
    }

    /// Gives each node of a track its place that has none.
    fn put_from(&mut self, graph: &Graph, tracks: &Tracks, course: Course, begin: u64) {
        let mut place = begin;
        let mut next = course.first;
        self.put_node(course.left, place);
        for _ in 0..tracks.of_edges.len() {
            let Some(edge) = next else { break };
            place = place.saturating_add(graph.length(edge));
            if let Some(arc) = graph.arc(edge) {
                self.put_node(arc.right, place);
            }
            next = tracks.after(edge);
        }
    }

    /// Gives a node a place, unless it has one.
    fn put_node(&mut self, node: usize, place: u64) {
        if !self.is_placed(node) {
            set_at(self.places.as_mut_slice(), node, Some(place));
        }
    }

    /// Where a track begins that hangs on crossovers alone: where the first of its piece begins, as far as each
    /// crossover lets it be drawn between half and four times as long as it says, or at the mean where they disagree.
    fn asked(&self, tracks: &Tracks, track: usize, first: u64, is_boundary: bool) -> u64 {
        let mut low = 0_u64;
        let mut high = u64::MAX;
        let mut total = 0_u64;
        let mut many = 0_u64;
        let mut begin = first;
        for (index, course) in tracks.courses.as_slice().iter().enumerate() {
            if !course.crosses {
                continue;
            }
            let length = length_at(self.lengths.as_slice(), index);
            let Some(wish) = self.wish(track, *course, length) else {
                continue;
            };
            if many == 0 && !is_boundary {
                begin = wish.middle;
            }
            low = low.max(wish.low);
            high = high.min(wish.high);
            total = total.saturating_add(wish.middle);
            many = many.saturating_add(1);
        }
        if many == 0 {
            begin
        } else if low <= high {
            begin.max(low).min(high)
        } else {
            total / many
        }
    }

    /// Where a crossover asks a track to begin, if it joins that with a node that has its place.
    fn wish(&self, track: usize, course: Course, length: u64) -> Option<Wish> {
        let far = length.saturating_mul(4);
        if course.begins_on == Some(track)
            && let Some(place) = place_at(self.places.as_slice(), course.right)
        {
            let end = place.saturating_sub(length_at(self.along.as_slice(), course.left));
            Some(Wish {
                low: end.saturating_sub(far),
                middle: end.saturating_sub(length),
                high: end.saturating_sub(length / 2),
            })
        } else if course.ends_on == Some(track)
            && let Some(place) = place_at(self.places.as_slice(), course.left)
        {
            let end = place.saturating_sub(length_at(self.along.as_slice(), course.right));
            Some(Wish {
                low: end.saturating_add(length / 2),
                middle: end.saturating_add(length),
                high: end.saturating_add(far),
            })
        } else {
            None
        }
    }

    /// Gives the nodes inside a crossover their places.
    fn put_inside(&mut self, graph: &Graph, tracks: &Tracks, track: usize) {
        let Some(course) = tracks.course(track) else {
            return;
        };
        if course.crosses {
            let begin = place_at(self.places.as_slice(), course.left).unwrap_or(ORIGIN);
            self.put_from(graph, tracks, course, begin);
        }
    }

    /// The places of all nodes. The error is want of memory.
    fn all(&self, alloc: Global) -> Result<Vec<u64>, AllocError> {
        let mut all = Vec::with_capacity(alloc, self.places.len())?;
        for place in self.places.as_slice() {
            all.push(place.unwrap_or(ORIGIN))?;
        }
        Ok(all)
    }
}

/// Where a track may begin, and where it should.
#[derive(Clone, Copy, Debug)]
struct Wish {
    low: u64,
    middle: u64,
    high: u64,
}

/// The columns of nodes.
#[derive(Drop)]
pub(crate) struct Columns {
    /// The column of each node.
    pub(crate) of_nodes: Vec<usize>,
    /// The place of each column, in mm.
    pub(crate) places: Vec<u64>,
}

impl Columns {
    /// The column of a node.
    pub(crate) fn of(&self, node: usize) -> usize {
        number_at(self.of_nodes.as_slice(), node)
    }
}

/// Nodes at one place stand above each other: a node joins the column where it is at most a fifth of the shortest edge
/// at it, or at any node of the column, past the column's first. The error is want of memory.
pub(crate) fn columns_of(
    alloc: Global,
    graph: &Graph,
    places: &[u64],
) -> Result<Columns, AllocError> {
    let mut order = Vec::with_capacity(alloc, places.len())?;
    for (node, place) in places.iter().enumerate() {
        order.push((*place, graph.rank_of(node), node))?;
    }
    order.sort()?;
    let mut columns = Columns {
        of_nodes: vec![in alloc; 0; places.len()]?,
        places: Vec::new(alloc),
    };
    let mut first = 0;
    let mut least = 0;
    for (place, _, node) in order.as_slice() {
        let near = shortest_at(graph, *node) / 5;
        if columns.places.is_empty() || place.saturating_sub(first) > near.min(least) {
            columns.places.push(*place)?;
            first = *place;
            least = near;
        }
        least = near.min(least);
        let column = columns.places.len().saturating_sub(1);
        set_at(columns.of_nodes.as_mut_slice(), *node, column);
    }
    Ok(columns)
}

/// The length of the shortest edge at a node, in mm.
fn shortest_at(graph: &Graph, node: usize) -> u64 {
    let mut least = 1_000_000_000;
    for pair in [graph.ins(node), graph.outs(node)] {
        for edge in pair.both() {
            if let Some(edge) = edge {
                least = graph.length(edge).min(least);
            }
        }
    }
    least
}
