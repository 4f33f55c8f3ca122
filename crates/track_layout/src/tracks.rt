//! Tracks: where they begin and end, and which of them are crossovers.

use crate::ends::{entry_at, index_of, is_set, set_at};
use crate::graph::{Graph, Turn};
use crate::paths::{Paths, paths_of};
use crate::straight::straight_of;
use rail_base::station::Station;
use std::alloc::{AllocError, Global};

/// A track: edges that are drawn straight, a turn, or a node alone.
#[derive(Clone, Copy, Debug, PartialEq, Eq)]
pub(crate) struct Course {
    /// Its first edge; none of a turn or a node alone.
    pub(crate) first: Option<usize>,
    pub(crate) turn: Option<Turn>,
    /// The node at which it begins.
    pub(crate) left: usize,
    /// The node at which it ends.
    pub(crate) right: usize,
    /// The other track on which it begins.
    pub(crate) begins_on: Option<usize>,
    /// The other track on which it ends.
    pub(crate) ends_on: Option<usize>,
    /// Whether it is drawn as a line from one track to another, in no row.
    pub(crate) crosses: bool,
}

/// The tracks of a graph.
#[derive(Drop)]
pub(crate) struct Tracks {
    pub(crate) courses: Vec<Course>,
    paths: Paths,
    /// The track of each edge; none for a turn.
    pub(crate) of_edges: Vec<Option<usize>>,
    /// The track on which each node lies.
    pub(crate) of_nodes: Vec<Option<usize>>,
}

/// The tracks of a station, the longest first, then nodes alone and turns. The error is want of memory.
pub(crate) fn tracks_of(
    alloc: Global,
    graph: &Graph,
    station: &Station,
) -> Result<Tracks, AllocError> {
    let edges = station.edges.as_slice();
    let straight = straight_of(alloc, graph, edges)?;
    let mut tracks = Tracks {
        courses: Vec::new(alloc),
        paths: paths_of(alloc, graph, edges, &straight)?,
        of_edges: vec![in alloc; None; edges.len()]?,
        of_nodes: vec![in alloc; None; graph.order.len()]?,
    };
    tracks.begin(alloc, graph)?;
    tracks.attach(alloc, graph, station)?;
    tracks.ground(alloc)?;
    tracks.own_ends();
    tracks.add_lone(graph)?;
    tracks.add_turns(graph, station)?;
    Ok(tracks)
}

impl Course {
    /// A course of edges or of a node alone.
    fn new(first: Option<usize>, left: usize, right: usize) -> Course {
        Course {
            first,
            turn: None,
            left,
            right,
            begins_on: None,
            ends_on: None,
            crosses: false,
        }
    }
}

impl Tracks {
    /// The course of a track.
    pub(crate) fn course(&self, track: usize) -> Option<Course> {
        self.courses.get(track).copied()
    }

    /// The track on which a node lies.
    pub(crate) fn of_node(&self, node: usize) -> usize {
        entry_at(self.of_nodes.as_slice(), node).unwrap_or(0)
    }

    /// The edge that follows an edge of a track.
    pub(crate) fn after(&self, edge: usize) -> Option<usize> {
        self.paths.after(edge)
    }

    /// The edges of a track, from the left to the right. The error is want of memory.
    pub(crate) fn edges(&self, alloc: Global, course: Course) -> Result<Vec<usize>, AllocError> {
        let mut edges = Vec::new(alloc);
        let mut next = course.first;
        for _ in 0..self.of_edges.len() {
            let Some(edge) = next else { break };
            edges.push(edge)?;
            next = self.after(edge);
        }
        Ok(edges)
    }

    /// Lists the paths as tracks, the longest first.
    fn begin(&mut self, alloc: Global, graph: &Graph) -> Result<(), AllocError> {
        let mut found = Vec::new(alloc);
        for (edge, arc) in graph.arcs.as_slice().iter().enumerate() {
            if let Some(arc) = *arc
                && self.paths.before(edge).is_none()
            {
                let (length, last) = self.measure(graph, edge);
                let right = match graph.arc(last) {
                    Some(arc) => arc.right,
                    None => arc.right,
                };
                found.push((u64::MAX.saturating_sub(length), edge, arc.left, right))?;
            }
        }
        found.sort()?;
        for (_, edge, left, right) in found.as_slice() {
            self.courses.push(Course::new(Some(*edge), *left, *right))?;
        }
        Ok(())
    }

    /// The length of the path that begins with an edge, in mm, and its last edge.
    fn measure(&self, graph: &Graph, first: usize) -> (u64, usize) {
        let mut length = 0_u64;
        let mut last = first;
        for _ in 0..self.of_edges.len() {
            length = length.saturating_add(graph.length(last));
            let Some(next) = self.after(last) else {
                break;
            };
            last = next;
        }
        (length, last)
    }

    /// Finds which tracks begin or end on another one, and which of them have no signal inside and so may cross.
    fn attach(
        &mut self,
        alloc: Global,
        graph: &Graph,
        station: &Station,
    ) -> Result<(), AllocError> {
        let mut signals = vec![in alloc; false; graph.order.len()]?;
        for signal in station.signals.as_slice() {
            set_at(signals.as_mut_slice(), index_of(signal.node), true);
        }
        let mut has_signal = Vec::with_capacity(alloc, self.courses.len())?;
        for track in 0..self.courses.len() {
            has_signal.push(self.own_inner(graph, track, signals.as_slice()))?;
        }
        for (track, course) in self.courses.as_mut_slice().iter_mut().enumerate() {
            course.begins_on = entry_at(self.of_nodes.as_slice(), course.left);
            course.ends_on = entry_at(self.of_nodes.as_slice(), course.right);
            course.crosses = course.begins_on.is_some()
                && course.ends_on.is_some()
                && course.begins_on != course.ends_on
                && !is_set(has_signal.as_slice(), track);
        }
        Ok(())
    }

    /// Notes the edges of a track and the nodes inside it, and says whether one of these has a signal.
    fn own_inner(&mut self, graph: &Graph, track: usize, signals: &[bool]) -> bool {
        let mut next = match self.course(track) {
            Some(course) => course.first,
            None => None,
        };
        let mut found = false;
        for _ in 0..self.of_edges.len() {
            let Some(edge) = next else { break };
            set_at(self.of_edges.as_mut_slice(), edge, Some(track));
            next = self.after(edge);
            if next.is_some()
                && let Some(arc) = graph.arc(edge)
            {
                set_at(self.of_nodes.as_mut_slice(), arc.right, Some(track));
                found = found || is_set(signals, arc.right);
            }
        }
        found
    }

    /// Crossovers that hang on each other in a circle are none.
    fn ground(&mut self, alloc: Global) -> Result<(), AllocError> {
        for _ in 0..self.courses.len() {
            let order = self.grounded(alloc)?;
            let mut is_grounded = vec![in alloc; false; self.courses.len()]?;
            for track in order.as_slice() {
                set_at(is_grounded.as_mut_slice(), *track, true);
            }
            let Some(first) = first_unset(is_grounded.as_slice()) else {
                break;
            };
            self.lay(first);
        }
        Ok(())
    }

    /// Makes a laid track of a crossover.
    pub(crate) fn lay(&mut self, track: usize) {
        if let Some(course) = self.courses.get_mut(track) {
            course.crosses = false;
        }
    }

    /// The tracks in an order in which each crossover comes after those that it joins, without those that hang on each
    /// other in a circle. The error is want of memory.
    pub(crate) fn grounded(&self, alloc: Global) -> Result<Vec<usize>, AllocError> {
        let mut done = vec![in alloc; false; self.courses.len()]?;
        let mut order = Vec::with_capacity(alloc, self.courses.len())?;
        for (track, course) in self.courses.as_slice().iter().enumerate() {
            if !course.crosses {
                set_at(done.as_mut_slice(), track, true);
                order.push(track)?;
            }
        }
        for _ in 0..self.courses.len() {
            let before = order.len();
            for (track, course) in self.courses.as_slice().iter().enumerate() {
                if !is_set(done.as_slice(), track) && stands_on(*course, done.as_slice()) {
                    set_at(done.as_mut_slice(), track, true);
                    order.push(track)?;
                }
            }
            if order.len() == before {
                break;
            }
        }
        Ok(order)
    }

    /// A node where tracks only end is that of the first of them; the others are attached to it there.
    fn own_ends(&mut self) {
        for track in 0..self.courses.len() {
            let Some(mut course) = self.course(track) else {
                continue;
            };
            if course.crosses {
                continue;
            }
            if course.begins_on.is_none() {
                course.begins_on = self.own_end(track, course.left);
            }
            if course.ends_on.is_none() {
                course.ends_on = self.own_end(track, course.right);
            }
            set_at(self.courses.as_mut_slice(), track, course);
        }
    }

    /// The other track that has a node already; where none has, it is this one's.
    fn own_end(&mut self, track: usize, node: usize) -> Option<usize> {
        match entry_at(self.of_nodes.as_slice(), node) {
            Some(owner) => { if owner == track { None } else { Some(owner) } }
            None => {
                set_at(self.of_nodes.as_mut_slice(), node, Some(track));
                None
            }
        }
    }

    /// Adds a track for each node that lies on none.
    fn add_lone(&mut self, graph: &Graph) -> Result<(), AllocError> {
        for node in 0..graph.order.len() {
            if entry_at(self.of_nodes.as_slice(), node).is_none() {
                set_at(self.of_nodes.as_mut_slice(), node, Some(self.courses.len()));
                self.courses.push(Course::new(None, node, node))?;
            }
        }
        Ok(())
    }

    /// Adds each turn, which lies in a row of its own.
    fn add_turns(&mut self, graph: &Graph, station: &Station) -> Result<(), AllocError> {
        let edges = station.edges.as_slice();
        for turn in graph.turns.as_slice() {
            let Some(edge) = edges.get(turn.edge) else {
                continue;
            };
            let one = index_of(edge.from.node);
            let other = index_of(edge.to.node);
            let (left, right) = if graph.rank_of(one) <= graph.rank_of(other) {
                (one, other)
            } else {
                (other, one)
            };
            let mut course = Course::new(None, left, right);
            course.turn = Some(*turn);
            course.begins_on = entry_at(self.of_nodes.as_slice(), left);
            course.ends_on = entry_at(self.of_nodes.as_slice(), right);
            self.courses.push(course)?;
        }
        Ok(())
    }
}

/// Whether both tracks that a crossover joins are among some.
fn stands_on(course: Course, done: &[bool]) -> bool {
    match (course.begins_on, course.ends_on) {
        (Some(one), Some(other)) => is_set(done, one) && is_set(done, other),
        (Some(_), None) => true,
        (None, Some(_)) => true,
        (None, None) => true,
    }
}

/// The first index at which a flag is not set.
fn first_unset(flags: &[bool]) -> Option<usize> {
    for (index, flag) in flags.iter().enumerate() {
        if !*flag {
            return Some(index);
        }
    }
    None
}
