//! Where nodes, edges and tracks are drawn.

use drawing::Point;
use rail_base::list::List;
use rail_base::station::{SectionNo, Side};

/// Where a node is drawn, and where it lies.
#[derive(Clone, Copy, Debug, PartialEq, Eq)]
pub struct NodePlace {
    /// Its connected piece of track, counted from 0.
    pub piece: usize,
    /// Its place along its piece, in mm from the leftmost node there.
    pub place_mm: u64,
    /// Its column, counted from 0: nodes that stand above each other have one.
    pub column: usize,
    /// The row of its track, counted from 0 at the top; inside a crossover that of the track where this begins.
    pub row: usize,
    /// How many rows of its piece lie above that row.
    pub lane: usize,
    /// The track that it lies on.
    pub track: usize,
    /// The side by which one leaves it to the right.
    pub right: Side,
}

/// Where an edge is drawn: from the point of the node where it begins in the file to that where it ends.
#[derive(Drop)]
pub struct EdgePlace {
    pub begin: Point,
    pub middle: List<Point>,
    pub end: Point,
    pub section: SectionNo,
    /// Its track; none for a turn, which goes round.
    pub track: Option<usize>,
}

/// A part of a line that is at one height, from the left to the right.
#[derive(Clone, Copy, Debug, PartialEq, Eq)]
pub struct Flat {
    pub height: u64,
    pub from: u64,
    pub to: u64,
}

/// Edges that are drawn as one track.
#[derive(Drop)]
pub struct Track {
    /// Its nodes from the left to the right, by their indices.
    pub nodes: List<usize>,
    /// Its row; none for a crossover, which is drawn as a line between two tracks.
    pub row: Option<usize>,
    /// The other track on which it begins.
    pub begins_on: Option<usize>,
    /// The other track on which it ends.
    pub ends_on: Option<usize>,
}

/// Where the track of a station is drawn.
#[derive(Drop)]
pub struct Layout {
    /// Where each node is drawn, in file order.
    pub points: List<Point>,
    /// Where each node lies, in file order.
    pub nodes: List<NodePlace>,
    /// Where each edge is drawn, in file order.
    pub edges: List<EdgePlace>,
    pub tracks: List<Track>,
    /// The place of each column, in mm.
    pub columns: List<u64>,
    /// How many connected pieces of track there are.
    pub pieces: usize,
    /// How far points lie to the right and below.
    pub size: Point,
}
