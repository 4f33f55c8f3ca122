//! The layout of a design.

ghost use Rattle.std.specs.Prelude.{◌≡◌, length, IfOk};
ghost use Rattle.track_layout.specs.Lines.{FlatsAreApart, JoinTheirNodes};

use crate::ends::{entry_at, length_at, number_at, other_side, set_at};
use crate::graph::{Graph, graph_of};
use crate::lines::lines_of;
use crate::place::{EdgePlace, Layout, NodePlace, Track};
use crate::places::{columns_of, places_of};
use crate::rows::rows_of;
use crate::sheet::{Plan, Sheet};
use crate::spread::spread_of;
use crate::tracks::{Course, tracks_of};
use crate::widths::signal_room;
use drawing::Point;
use rail_base::list::List;
use rail_base::station::{Side, Station};
use std::alloc::{AllocError, Global};

/// Where the track of a station is drawn. The line of each edge joins its two nodes, and no two flat parts of lines lie
/// over one another. The error is want of memory.
pub fn layout_of(alloc: Global, station: &Station) -> Result<Layout, AllocError>
    ensures joined { IfOk result (λ layout. JoinTheirNodes layout.points station.now.edges layout.edges) }
    ensures apart { IfOk result (λ layout. FlatsAreApart layout.edges) }
{
    let graph = graph_of(alloc, station)?;
    let mut tracks = tracks_of(alloc, &graph, station)?;
    let places = places_of(alloc, station.nodes.as_slice(), &graph, &tracks)?;
    let columns = columns_of(alloc, &graph, places.as_slice())?;
    let rows = rows_of(alloc, &graph, &mut tracks, &columns)?;
    let room = signal_room(alloc, station, &graph)?;
    let plan = Plan {
        station,
        graph: &graph,
        tracks: &tracks,
        columns: &columns,
        rows: &rows,
        room: &room,
    };
    let sheet = spread_of(alloc, &plan)?;
    let points = points_of(alloc, &plan, &sheet)?;
    let edges = station.edges.as_slice();
    let lines = lines_of(alloc, &plan, &sheet, edges, points.as_slice())?;
    let size = size_of(points.as_slice(), lines.as_slice());
    Ok(Layout {
        points: List::from_vec(points),
        nodes: List::from_vec(node_places(alloc, &plan, places.as_slice())?),
        edges: lines,
        tracks: List::from_vec(tracks_in(alloc, &plan)?),
        columns: List::from_vec(columns.places),
        pieces: graph.sides.pieces,
        size,
    })
}

/// Where each node is drawn. The error is want of memory.
fn points_of(alloc: Global, plan: &Plan<'_>, sheet: &Sheet) -> Result<Vec<Point>, AllocError> {
    let many = plan.station.nodes.len();
    let mut points = Vec::with_capacity(alloc, many)?;
    for node in 0..many {
        points.push(sheet.point(plan, node))?;
    }
    Ok(points)
}

/// Where each node lies. The error is want of memory.
fn node_places(
    alloc: Global,
    plan: &Plan<'_>,
    places: &[u64],
) -> Result<Vec<NodePlace>, AllocError> {
    let lanes = lanes_of(alloc, plan)?;
    let many = plan.station.nodes.len();
    let mut nodes = Vec::with_capacity(alloc, many)?;
    for node in 0..many {
        let track = plan.tracks.of_node(node);
        let row = row_of(plan, track);
        nodes.push(NodePlace {
            piece: plan.graph.piece_of(node),
            place_mm: length_at(places, node),
            column: plan.column(node),
            row,
            lane: number_at(lanes.as_slice(), row),
            track,
            right: right_of(plan.graph, node),
        })?;
    }
    Ok(nodes)
}

/// The row of a track, or of the one on which it begins.
fn row_of(plan: &Plan<'_>, track: usize) -> usize {
    let mut track = track;
    for _ in 0..plan.tracks.courses.len() {
        if let Some(row) = entry_at(plan.rows.rows.as_slice(), track) {
            return row;
        }
        track = match plan.tracks.course(track) {
            Some(course) => course.begins_on.unwrap_or(0),
            None => 0,
        };
    }
    0
}

/// How many rows of its piece lie above each row. The error is want of memory.
fn lanes_of(alloc: Global, plan: &Plan<'_>) -> Result<Vec<usize>, AllocError> {
    let mut pieces = vec![in alloc; 0; plan.rows.many]?;
    for (track, course) in plan.tracks.courses.as_slice().iter().enumerate() {
        if let Some(row) = entry_at(plan.rows.rows.as_slice(), track) {
            set_at(pieces.as_mut_slice(), row, plan.graph.piece_of(course.left));
        }
    }
    let mut lanes = Vec::with_capacity(alloc, pieces.len())?;
    let mut lane: usize = 0;
    let mut before = None;
    for piece in pieces.as_slice() {
        lane = if before == Some(*piece) {
            lane.saturating_add(1)
        } else {
            0
        };
        before = Some(*piece);
        lanes.push(lane)?;
    }
    Ok(lanes)
}

/// The side by which one leaves a node to the right.
fn right_of(graph: &Graph, node: usize) -> Side {
    match graph.sides.left_of(node) {
        Some(side) => other_side(side),
        None => Side::B,
    }
}

/// The tracks as they are drawn. The error is want of memory.
fn tracks_in(alloc: Global, plan: &Plan<'_>) -> Result<Vec<Track>, AllocError> {
    let mut tracks = Vec::with_capacity(alloc, plan.tracks.courses.len())?;
    for (track, course) in plan.tracks.courses.as_slice().iter().enumerate() {
        tracks.push(Track {
            nodes: List::from_vec(nodes_of(alloc, plan, *course)?),
            row: entry_at(plan.rows.rows.as_slice(), track),
            begins_on: course.begins_on,
            ends_on: course.ends_on,
        })?;
    }
    Ok(tracks)
}

/// The nodes of a track, from the left to the right. The error is want of memory.
fn nodes_of(alloc: Global, plan: &Plan<'_>, course: Course) -> Result<Vec<usize>, AllocError> {
    let mut nodes = Vec::new(alloc);
    nodes.push(course.left)?;
    for edge in plan.tracks.edges(alloc, course)?.as_slice() {
        if let Some(arc) = plan.graph.arc(*edge) {
            nodes.push(arc.right)?;
        }
    }
    Ok(nodes)
}

/// How far points and lines lie to the right and below.
fn size_of(points: &[Point], lines: &[EdgePlace]) -> Point {
    let mut size = Point { x: 0, y: 0 };
    for point in points {
        size = farther(size, *point);
    }
    for line in lines {
        for point in line.middle.as_slice() {
            size = farther(size, *point);
        }
    }
    size
}

/// The farther of two places, in each direction.
fn farther(one: Point, other: Point) -> Point {
    Point {
        x: one.x.max(other.x),
        y: one.y.max(other.y),
    }
}
