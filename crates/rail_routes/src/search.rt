//! The search from one start, depth first, edges at an end in file order.

ghost use Rattle.std.specs.Prelude.{◌≡◌, ◌++◌, ◌∷◌, [], ◌≤◌, ◌<◌, ◌-◌, ◌+◌, IfOk, OnOk, Some, length, take, None};
ghost use Rattle.rail_base.specs.Stations.{IsEdge, IsNode};
ghost use Rattle.rail_routes.specs.Levels.{nested-prop, AreNested, AreOpen};

use crate::path::Path;
use crate::starts::finish_at;
use crate::track::{Track, far_end, through};
use rail_base::route::Finish;
use rail_base::station::{EdgeNo, End};
use std::alloc::{AllocError, Global};

/// An end on the path of a search, with how many of its edges were tried.
#[derive(Clone, Copy, Debug, PartialEq, Eq)]
pub(crate) struct Level {
    /// How many edges the path has up to here.
    pub(crate) after: usize,
    pub(crate) from: End,
    pub(crate) tried: usize,
}

/// How a path closes.
#[derive(Clone, Copy, Debug, PartialEq, Eq)]
pub(crate) enum Closed {
    /// It is a whole route.
    Whole(Finish),
    /// It meets this edge again.
    RepeatsEdge(EdgeNo),
}

/// What comes of one more edge.
#[derive(Clone, Copy, Debug, PartialEq, Eq)]
pub(crate) enum Step {
    Closed(Closed),
    /// The path goes on from this end.
    On(End),
}

/// A search: its path, and the ends on it at which edges are still to be tried, the innermost last.
#[derive(Drop)]
pub(crate) struct Search<'a> {
    pub(crate) track: &'a Track<'a>,
    pub(crate) path: Path,
    pub(crate) levels: Vec<Level>,
    ghost marks: { length path.marks.items ≡ length track.now.design.now.station.edges },
    ghost tried: { AreOpen track.now.design.now.station (length path.edges.items) levels.items },
    ghost nested: { AreNested levels.items } by { nested-prop levels.items },
}

impl<'a> Search<'a> {
    ghost use Rattle.rail_routes.specs.Pending.{walks_by, to_come};

    /// The search of all paths that leave by an end.
    pub(crate) fn new(
        alloc: Global,
        track: &'a Track<'a>,
        from: End,
    ) -> Result<Search<'a>, AllocError>
        requires { IsNode track.now.design.now.station from.node }
        ensures track { IfOk result (λ search. search.track.now ≡ track.now) }
        ensures all { IfOk result (λ search. to_come search ≡ walks_by track.now.design.now.station from) }
    {
        let mut levels = Vec::new(alloc);
        if !track.at(from).edges.is_empty() {
            levels.push(Level {
                after: 0,
                from,
                tried: 0,
            })?;
        }
        Ok(Search {
            track,
            path: Path::new(alloc, track.design.station.edges.len())?,
            levels,
        })
    }
}

impl Search<'_> {
    ghost use Rattle.rail_routes.specs.Pending.{closed_then, going_on, going_over, station_of, stepping, to_come};
    ghost use Rattle.rail_routes.specs.Pending.{GoesOn, IsInnermost, IsLonger};

    /// The next closed path, if one is still to come. Where it is a whole route, its edges are then the search's path.
    pub(crate) fn next(&mut self) -> Result<Option<Closed>, AllocError>
        ensures track { OnOk result (self.new.track ≡ self.old.track) }
        ensures next { IfOk result (λ closed.
            closed_then closed self.new.path.edges.items (to_come self.new) ≡ to_come self.old) }
        ensures done { IfOk result (λ closed. closed ≡ None → self.new.levels.items ≡ []) }
    {
        let Some(level) = self.levels.pop() else {
            return Ok(None);
        };
        self.path.shorten(level.after);
        Ok(Some(self.close(level)?))
    }

    /// Takes the next edge of the innermost level. The edges after it stay to be tried.
    fn take_edge(&mut self, level: Level) -> Result<EdgeNo, AllocError>
        requires { IsInnermost self.old level }
        ensures track { OnOk result (self.new.track ≡ self.old.track) }
        ensures path { OnOk result (self.new.path ≡ self.old.path) }
        ensures edge { IfOk result (IsEdge (station_of self.old)) }
        ensures same { IfOk result (λ edge.
            going_over self.old level.from edge ++ to_come self.new ≡ going_on self.old level ++ to_come self.old) }
    {
        let track = self.track;
        let edges = track.at(level.from).edges.as_slice();
        let tried = level.tried + 1;
        if tried < edges.len() {
            self.levels.push(Level { tried, ..level })?;
        }
        Ok(edges[level.tried])
    }

    /// Goes over an edge from the end of the path, unless the path has it.
    fn follow(&mut self, from: End, edge: EdgeNo) -> Result<Step, AllocError>
        requires { IsEdge (station_of self.old) edge }
        ensures track { OnOk result (self.new.track ≡ self.old.track) }
        ensures goes_on { IfOk result (GoesOn (station_of self.old)) }
        ensures longer { IfOk result (IsLonger self.old.path.edges.items self.new.path.edges.items) }
        ensures same { IfOk result (λ step.
            stepping self.new step ++ to_come self.new ≡ going_over self.old from edge ++ to_come self.old) }
    {
        if self.path.has(edge) {
            return Ok(Step::Closed(Closed::RepeatsEdge(edge)));
        }
        self.path.push(edge)?;
        let track = self.track;
        let there = far_end(track.design.edge(edge), from);
        Ok(match finish_at(track, there) {
            Some(finish) => Step::Closed(Closed::Whole(finish)),
            None => Step::On(through(there)),
        })
    }

    /// Goes on from a level to the next closed path.
    fn close(&mut self, from: Level) -> Result<Closed, AllocError>
        requires { IsInnermost self.old from }
        ensures track { OnOk result (self.new.track ≡ self.old.track) }
        ensures next { IfOk result (λ closed.
            closed_then (Some closed) self.new.path.edges.items (to_come self.new)
            ≡ going_on self.old from ++ to_come self.old) }
    {
        let mut level = from;
        loop {
            let edge = self.take_edge(level)?;
            match self.follow(level.from, edge)? {
                Step::Closed(closed) => return Ok(closed),
                Step::On(end) => {
                    level = Level {
                        after: self.path.len(),
                        from: end,
                        tried: 0,
                    };
                }
            }
        }
    }
}
