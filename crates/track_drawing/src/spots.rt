//! Where names stand: greedily, those of boundaries first, then of signals, of nodes of visits, of sections, of other nodes.

use crate::room::Room;
use crate::scene::{Scene, beside, index_of};
use drawing::{Area, Color, Point, Spot, Style, color_of_name};
use rail_base::station::{Node, Signal, Station};
use std::alloc::{AllocError, Global};
use track_layout::{name_width, points_of};

/// The height of a line of names that are listed, in px.
const LINE: u64 = 14;

/// Where lists begin, in px.
const LEFT: u64 = 14;

/// Where the names of a station stand, each list in file order.
#[derive(Drop)]
pub(crate) struct Spots {
    pub(crate) sections: Vec<Option<Point>>,
    pub(crate) nodes: Vec<Option<Point>>,
    pub(crate) signals: Vec<Option<Point>>,
}

/// Where the names that found no room are listed, line by line.
#[derive(Clone, Copy, Debug, PartialEq, Eq)]
pub(crate) struct Listing {
    next: Point,
    right: u64,
}

/// The order in which nodes get their names: boundaries, nodes of visits, others.
#[derive(Clone, Copy, Debug, PartialEq, Eq)]
enum Turn {
    Boundary,
    Visited,
    Other,
}

impl Listing {
    /// Lists begin below a picture of a size.
    pub(crate) fn below(size: Point) -> Listing {
        Listing {
            next: Point {
                x: LEFT,
                y: size.y.saturating_add(44),
            },
            right: size.x.max(400),
        }
    }

    /// The place of the next name.
    pub(crate) fn next(&self) -> Point {
        self.next
    }

    /// Goes on after a name of so many characters.
    pub(crate) fn go_on(&mut self, characters: usize) {
        self.next.x = self
            .next
            .x
            .saturating_add(name_width(characters))
            .saturating_add(6);
        if self.next.x > self.right {
            self.new_line();
        }
    }

    /// Begins a new line.
    pub(crate) fn new_line(&mut self) {
        self.next = Point {
            x: LEFT,
            y: self.next.y.saturating_add(LINE),
        };
    }
}

/// How a name is shown.
pub(crate) fn spot_of(
    beside: Option<Point>,
    listing: &Listing,
    style: Style,
    color: Color,
) -> Spot {
    Spot {
        beside,
        listed: listing.next(),
        style,
        color,
    }
}

/// How the name of a section is shown.
pub(crate) fn section_spot(beside: Option<Point>, listing: &Listing, name: &[u8]) -> Spot {
    spot_of(beside, listing, Style::Italic, color_of_name(name))
}

/// Where the names of a station stand. The error is want of memory.
pub(crate) fn spots_of(
    alloc: Global,
    scene: &Scene,
    station: &Station,
) -> Result<Spots, AllocError> {
    let mut room = room_of(alloc, scene, station)?;
    let nodes = station.nodes.as_slice();
    let mut spots = Spots {
        sections: vec![in alloc; None; station.sections.len()]?,
        nodes: vec![in alloc; None; nodes.len()]?,
        signals: vec![in alloc; None; station.signals.len()]?,
    };
    let visited = visited_nodes(alloc, station)?;
    spots.name_nodes(
        alloc,
        scene,
        &mut room,
        nodes,
        visited.as_slice(),
        Turn::Boundary,
    )?;
    spots.name_signals(alloc, scene, &mut room, station.signals.as_slice())?;
    spots.name_nodes(
        alloc,
        scene,
        &mut room,
        nodes,
        visited.as_slice(),
        Turn::Visited,
    )?;
    spots.name_sections(alloc, scene, &mut room, station)?;
    spots.name_nodes(
        alloc,
        scene,
        &mut room,
        nodes,
        visited.as_slice(),
        Turn::Other,
    )?;
    Ok(spots)
}

/// What names keep clear of: lines and marks. The error is want of memory.
fn room_of(alloc: Global, scene: &Scene, station: &Station) -> Result<Room, AllocError> {
    let mut room = Room::new(alloc, scene.layout.size.x.saturating_add(200));
    for line in scene.layout.edges.as_slice() {
        room.add_line(points_of(alloc, line)?.as_slice())?;
    }
    for (index, node) in station.nodes.as_slice().iter().enumerate() {
        let point = scene.point(index);
        let ends = scene.ends_at(index);
        if node.boundary {
            room.take_around(point, 2, 9)?;
        } else if ends.is_broken() {
            room.take_around(point, 6, 6)?;
        } else if ends.is_end() {
            room.take_around(point, 4, 7)?;
        } else {
            room.take_around(point, 3, 4)?;
        }
    }
    for signal in station.signals.as_slice() {
        let is_right = scene.is_right(signal.node, signal.toward);
        let point = scene.point(index_of(signal.node));
        let far = beside(point.x, is_right, 12);
        let y = beside(point.y, is_right, 9);
        room.take(Area {
            left: point.x.min(far),
            top: y.saturating_sub(4),
            right: point.x.max(far),
            bottom: y.saturating_add(4),
        })?;
    }
    Ok(room)
}

/// Which nodes are those of visits. The error is want of memory.
fn visited_nodes(alloc: Global, station: &Station) -> Result<Vec<bool>, AllocError> {
    let mut visited = vec![in alloc; false; station.nodes.len()]?;
    for train in station.trains.as_slice() {
        for visit in train.visits.as_slice() {
            for node in visit.as_slice() {
                if let Some(flag) = visited.get_mut(index_of(*node)) {
                    *flag = true;
                }
            }
        }
    }
    Ok(visited)
}

/// When a node gets its name.
fn turn_of(node: &Node, visited: bool) -> Turn {
    if node.boundary {
        Turn::Boundary
    } else if visited {
        Turn::Visited
    } else {
        Turn::Other
    }
}

/// Sets a place at an index, where there is one.
fn set_place(places: &mut [Option<Point>], index: usize, place: Option<Point>) {
    if let Some(old) = places.get_mut(index) {
        *old = place;
    }
}

/// Appends a place so far from a point; `left` and `up` count against the other two.
fn push_place(
    places: &mut Vec<Point>,
    point: Point,
    left: u64,
    right: u64,
    up: u64,
    down: u64,
) -> Result<(), AllocError> {
    let (Some(x), Some(y)) = (
        point.x.saturating_add(right).checked_sub(left),
        point.y.saturating_add(down).checked_sub(up),
    ) else {
        return Ok(());
    };
    places.push(Point { x, y })?;
    Ok(())
}

/// The places beside a boundary.
fn boundary_places(
    alloc: Global,
    point: Point,
    width: u64,
    at_right: bool,
) -> Result<Vec<Point>, AllocError> {
    let mut places = Vec::new(alloc);
    let (left, right) = if at_right { (width, 6) } else { (6, 0) };
    push_place(&mut places, point, left, right, 14, 0)?;
    push_place(&mut places, point, left, right, 0, 21)?;
    Ok(places)
}

/// The places beside a dead end, which the track comes to from the left or from the right.
fn end_places(
    alloc: Global,
    point: Point,
    width: u64,
    from_left: bool,
) -> Result<Vec<Point>, AllocError> {
    let mut places = Vec::new(alloc);
    if from_left {
        push_place(&mut places, point, 0, 9, 0, 4)?;
    } else {
        push_place(&mut places, point, width, 0, 0, 4)?;
    }
    push_places_around(&mut places, point, width, 11, 21)?;
    Ok(places)
}

/// Appends the places above and below a node.
fn push_places_around(
    places: &mut Vec<Point>,
    point: Point,
    width: u64,
    up: u64,
    down: u64,
) -> Result<(), AllocError> {
    push_place(places, point, width / 2, 0, up, 0)?;
    push_place(places, point, width / 2, 0, 0, down)?;
    push_place(places, point, 0, 3, up, 0)?;
    push_place(places, point, width.saturating_add(2), 0, up, 0)?;
    push_place(places, point, 0, 3, 0, down)?;
    push_place(places, point, width.saturating_add(2), 0, 0, down)
}

/// The places beside a signal.
fn signal_places(
    alloc: Global,
    point: Point,
    width: u64,
    is_right: bool,
) -> Result<Vec<Point>, AllocError> {
    let mut places = Vec::new(alloc);
    let y = beside(point.y, is_right, 9);
    let point = Point { x: point.x, y };
    if is_right {
        push_place(&mut places, point, 0, 15, 0, 4)?;
        push_place(&mut places, point, 2, 0, 0, 18)?;
        push_place(&mut places, point, width / 2, 0, 0, 18)?;
        push_place(&mut places, point, width, 4, 0, 18)?;
    } else {
        push_place(&mut places, point, width.saturating_add(15), 0, 0, 4)?;
        push_place(&mut places, point, width, 2, 11, 0)?;
        push_place(&mut places, point, width / 2, 0, 11, 0)?;
        push_place(&mut places, point, 4, 0, 11, 0)?;
    }
    Ok(places)
}

impl Spots {
    /// Names the nodes whose turn it is.
    fn name_nodes(
        &mut self,
        alloc: Global,
        scene: &Scene,
        room: &mut Room,
        nodes: &[Node],
        visited: &[bool],
        turn: Turn,
    ) -> Result<(), AllocError> {
        for (index, node) in nodes.iter().enumerate() {
            let is_visited = visited.get(index).copied().unwrap_or(false);
            if turn_of(node, is_visited) != turn {
                continue;
            }
            let point = scene.point(index);
            let ends = scene.ends_at(index);
            let characters = node.name.as_bytes().len();
            let width = name_width(characters);
            let places = if node.boundary {
                boundary_places(alloc, point, width, point.x > scene.layout.size.x / 2)?
            } else if ends.is_end() {
                end_places(alloc, point, width, ends.left > 0)?
            } else {
                let mut places = Vec::new(alloc);
                push_places_around(&mut places, point, width, 7, 15)?;
                places
            };
            let place = room.find(places.as_slice(), characters)?;
            set_place(self.nodes.as_mut_slice(), index, place);
        }
        Ok(())
    }

    /// Names the signals.
    fn name_signals(
        &mut self,
        alloc: Global,
        scene: &Scene,
        room: &mut Room,
        signals: &[Signal],
    ) -> Result<(), AllocError> {
        for (index, signal) in signals.iter().enumerate() {
            let point = scene.point(index_of(signal.node));
            let is_right = scene.is_right(signal.node, signal.toward);
            let characters = signal.name.as_bytes().len();
            let places = signal_places(alloc, point, name_width(characters), is_right)?;
            let place = room.find(places.as_slice(), characters)?;
            set_place(self.signals.as_mut_slice(), index, place);
        }
        Ok(())
    }

    /// Names the sections, below or above the middle of the longest flat part that has room.
    fn name_sections(
        &mut self,
        alloc: Global,
        scene: &Scene,
        room: &mut Room,
        station: &Station,
    ) -> Result<(), AllocError> {
        for (index, name) in station.sections.as_slice().iter().enumerate() {
            let characters = name.as_bytes().len();
            let flats = flats_of(alloc, scene, index)?;
            let mut places = Vec::new(alloc);
            for (_, x, y) in flats.as_slice() {
                let middle = Point { x: *x, y: *y };
                let half = name_width(characters) / 2;
                push_place(&mut places, middle, half, 0, 0, 13)?;
                push_place(&mut places, middle, half, 0, 6, 0)?;
                push_place(&mut places, middle, half, 0, 0, 24)?;
            }
            let place = room.find(places.as_slice(), characters)?;
            set_place(self.sections.as_mut_slice(), index, place);
        }
        Ok(())
    }
}

/// The middles of the flat parts of a section, the longest first, each behind what it lacks in length.
fn flats_of(
    alloc: Global,
    scene: &Scene,
    section: usize,
) -> Result<Vec<(u64, u64, u64)>, AllocError> {
    let mut flats = Vec::new(alloc);
    for line in scene.layout.edges.as_slice() {
        if line.section.0 as usize == section.saturating_add(1) {
            let mut before = None;
            for point in points_of(alloc, line)?.as_slice() {
                if let Some(before) = before {
                    push_flat(&mut flats, before, *point)?;
                }
                before = Some(*point);
            }
        }
    }
    flats.sort()?;
    Ok(flats)
}

/// Appends the middle of a part of a line, if it is flat.
fn push_flat(flats: &mut Vec<(u64, u64, u64)>, one: Point, other: Point) -> Result<(), AllocError> {
    if one.y == other.y {
        let length = one.x.max(other.x).saturating_sub(one.x.min(other.x));
        let middle = one.x.min(other.x).saturating_add(length / 2);
        flats.push((u64::MAX.saturating_sub(length), middle, one.y))?;
    }
    Ok(())
}
