//! Where columns are drawn: wide enough for each edge and its marks, and longer for longer ones.

use crate::bends::{Bend, bend_of};
use crate::ends::length_at;
use crate::rows::{ROW as HEIGHT, Slope, height_at, height_between};
use crate::sheet::{LEFT, Plan, SLANT, Sheet, sheet_of};
use crate::tracks::Course;
use crate::widths::names_room;
use drawing::Point;
use std::alloc::{AllocError, Global};

/// How wide a picture should be at most, in px.
const WIDE: u64 = 1200;

/// How near a sloping line may come to a node of another track, in px.
const NEAR: u64 = 6;

/// How often nodes are moved away from lines.
const ROUNDS: usize = 4;

/// A column has to lie so far behind another one.
#[derive(Clone, Copy, Debug, PartialEq, Eq, PartialOrd, Ord)]
struct Need {
    to: usize,
    from: usize,
    px: u64,
}

/// How columns are spread: how much longer edges take more, whether names have room, and how wide that may become, in
/// percent of what a picture should be.
#[derive(Clone, Copy, Debug)]
struct Trial {
    part: u64,
    has_names: bool,
    most: u64,
}

/// What is asked of the columns.
#[derive(Drop)]
struct Needs {
    all: Vec<Need>,
    /// With room for names.
    named: Vec<Need>,
}

/// The tracks over columns in px: the first trial that is narrow enough, and nodes moved away from sloping lines of other
/// tracks. The error is want of memory.
pub(crate) fn spread_of(alloc: Global, plan: &Plan<'_>) -> Result<Sheet, AllocError> {
    let mut needs = needs_of(alloc, plan)?;
    let mut trial = first_trial(0);
    for number in 0..7 {
        trial = first_trial(number);
        let columns = spread(alloc, plan, &needs, trial)?;
        if last_of(columns.as_slice()).saturating_mul(100) < trial.most.saturating_mul(WIDE) {
            break;
        }
    }
    let mut sheet = sheet_of(alloc, plan, spread(alloc, plan, &needs, trial)?)?;
    for _ in 0..ROUNDS {
        let more = needs_near_lines(alloc, plan, &sheet)?;
        if more.is_empty() {
            break;
        }
        for need in more.as_slice() {
            needs.all.push(*need)?;
            needs.named.push(*need)?;
        }
        needs.all.sort()?;
        needs.named.sort()?;
        sheet = sheet_of(alloc, plan, spread(alloc, plan, &needs, trial)?)?;
    }
    Ok(sheet)
}

/// A trial by its number; each takes less than the one before.
fn first_trial(number: usize) -> Trial {
    let (part, has_names, most) = match number {
        0 => (60, true, 96),
        1 => (40, true, 100),
        2 => (26, true, 108),
        3 => (40, false, 100),
        4 => (26, false, 116),
        5 => (20, false, 132),
        _ => (12, false, 0),
    };
    Trial {
        part,
        has_names,
        most,
    }
}

/// The last of some places.
fn last_of(places: &[u64]) -> u64 {
    match places {
        [.., last] => *last,
        [] => 0,
    }
}

/// Where each column lies in a trial. The error is want of memory.
fn spread(
    alloc: Global,
    plan: &Plan<'_>,
    needs: &Needs,
    trial: Trial,
) -> Result<Vec<u64>, AllocError> {
    let needs = if trial.has_names {
        needs.named.as_slice()
    } else {
        needs.all.as_slice()
    };
    let places = plan.columns.places.as_slice();
    let mut columns = Vec::with_capacity(alloc, places.len())?;
    let mut next: usize = 0;
    for column in 0..places.len() {
        let mut x = if column == 0 {
            LEFT
        } else {
            let before = column.saturating_sub(1);
            let gap = length_at(places, column).saturating_sub(length_at(places, before));
            let more = root(gap / 10).saturating_mul(trial.part) / 100;
            length_at(columns.as_slice(), before)
                .saturating_add(more)
                .saturating_add(9)
        };
        for need in needs.iter().skip(next) {
            if need.to > column {
                break;
            }
            let least = length_at(columns.as_slice(), need.from).saturating_add(need.px);
            x = x.max(least);
            next = next.saturating_add(1);
        }
        columns.push(x)?;
    }
    Ok(columns)
}

/// The whole root of a number.
fn root(number: u64) -> u64 {
    let mut root = number;
    for _ in 0..40 {
        let next = root / 2 + number / root.max(1) / 2;
        if root <= next {
            break;
        }
        root = next;
    }
    root
}

/// How far a slope goes to the side between two heights, in px.
fn slant(one: u64, other: u64) -> u64 {
    let rise = one.max(other).saturating_sub(one.min(other));
    rise.saturating_mul(SLANT) / HEIGHT
}

/// What is asked of the columns. The error is want of memory.
fn needs_of(alloc: Global, plan: &Plan<'_>) -> Result<Needs, AllocError> {
    let heights = plan.rows.heights(alloc, plan.tracks, plan.columns)?;
    let mut needs = Needs {
        all: Vec::new(alloc),
        named: Vec::new(alloc),
    };
    for course in plan.tracks.courses.as_slice() {
        if course.turn.is_some() {
            needs.ask(plan, course.left, course.right, 70, 70)?;
        } else if course.crosses {
            needs.ask_crossover(alloc, plan, heights.as_slice(), *course)?;
        } else {
            needs.ask_track(alloc, plan, heights.as_slice(), *course)?;
        }
    }
    needs.all.sort()?;
    needs.named.sort()?;
    Ok(needs)
}

impl Needs {
    /// Asks for room between two nodes, without and with names.
    fn ask(
        &mut self,
        plan: &Plan<'_>,
        left: usize,
        right: usize,
        px: u64,
        named: u64,
    ) -> Result<(), AllocError> {
        let one = plan.column(left);
        let other = plan.column(right);
        let from = one.min(other);
        let to = one.max(other);
        if from < to {
            self.all.push(Need { to, from, px })?;
            self.named.push(Need {
                to,
                from,
                px: named.max(px),
            })?;
        }
        Ok(())
    }

    /// Asks for room for a crossover and each of its edges.
    fn ask_crossover(
        &mut self,
        alloc: Global,
        plan: &Plan<'_>,
        heights: &[Option<Slope>],
        course: Course,
    ) -> Result<(), AllocError> {
        let px = slant(
            begin_height(plan, heights, course),
            end_height(plan, heights, course),
        )
        .max(30);
        self.ask(plan, course.left, course.right, px, px)?;
        for edge in plan.tracks.edges(alloc, course)?.as_slice() {
            if let Some(arc) = plan.graph.arc(*edge) {
                self.ask(plan, arc.left, arc.right, 14, 14)?;
            }
        }
        Ok(())
    }

    /// Asks for room for the edges of a laid track: its slants, its signals and its names.
    fn ask_track(
        &mut self,
        alloc: Global,
        plan: &Plan<'_>,
        heights: &[Option<Slope>],
        course: Course,
    ) -> Result<(), AllocError> {
        let edges = plan.tracks.edges(alloc, course)?;
        let many = edges.len();
        let own = own_height(plan, heights, course);
        for (place, edge) in edges.as_slice().iter().enumerate() {
            let mut slants = 0_u64;
            if place == 0 && course.begins_on.is_some() {
                slants = slant(begin_height(plan, heights, course), own).saturating_sub(4);
            }
            if place.saturating_add(1) == many && course.ends_on.is_some() {
                let more = slant(end_height(plan, heights, course), own).saturating_sub(4);
                slants = slants.saturating_add(more);
            }
            self.ask_edge(plan, *edge, slants)?;
        }
        Ok(())
    }

    /// Asks for room for an edge with its slants.
    fn ask_edge(&mut self, plan: &Plan<'_>, edge: usize, slants: u64) -> Result<(), AllocError> {
        let Some(arc) = plan.graph.arc(edge) else {
            return Ok(());
        };
        let mut px = slants.saturating_add(22);
        if plan.room.at(arc.left, true) > 0 {
            px = px.saturating_add(8);
        }
        if plan.room.at(arc.right, false) > 0 {
            px = px.saturating_add(8);
        }
        let named = match plan.station.edges.as_slice().get(edge) {
            Some(edge) => names_room(plan.station, plan.room, edge, arc.left, arc.right),
            None => 0,
        };
        let named = named.saturating_add(px.saturating_sub(22));
        self.ask(plan, arc.left, arc.right, px, named)
    }
}

/// The height of the row of a track, of which one node is inside it or at a free end.
fn own_height(plan: &Plan<'_>, heights: &[Option<Slope>], course: Course) -> u64 {
    let track = match course.first {
        Some(edge) => match plan.tracks.of_edges.get(edge) {
            Some(track) => *track,
            None => None,
        },
        None => None,
    };
    height_at(heights, plan.tracks, plan.columns, track, 0).unwrap_or(0)
}

/// The height at which a track begins.
fn begin_height(plan: &Plan<'_>, heights: &[Option<Slope>], course: Course) -> u64 {
    let column = plan.column(course.left);
    height_at(heights, plan.tracks, plan.columns, course.begins_on, column).unwrap_or(0)
}

/// The height at which a track ends.
fn end_height(plan: &Plan<'_>, heights: &[Option<Slope>], course: Course) -> u64 {
    let column = plan.column(course.right);
    height_at(heights, plan.tracks, plan.columns, course.ends_on, column).unwrap_or(0)
}

/// What is asked of the columns so that no sloping line comes near a node of another track. The error is want of memory.
fn needs_near_lines(
    alloc: Global,
    plan: &Plan<'_>,
    sheet: &Sheet,
) -> Result<Vec<Need>, AllocError> {
    let mut points = Vec::with_capacity(alloc, plan.station.nodes.len())?;
    for node in 0..plan.station.nodes.len() {
        points.push(sheet.point(plan, node))?;
    }
    let mut needs = Vec::new(alloc);
    for edge in 0..plan.station.edges.len() {
        if let Some(arc) = plan.graph.arc(edge) {
            let bend = bend_of(alloc, plan, sheet, edge, false)?;
            let mut from = sheet.point(plan, arc.left);
            let end = sheet.point(plan, arc.right);
            for to in bend.middle.as_slice() {
                add_near(plan, points.as_slice(), &bend, (from, *to), &mut needs)?;
                from = *to;
            }
            add_near(plan, points.as_slice(), &bend, (from, end), &mut needs)?;
        }
    }
    Ok(needs)
}

/// Adds what is asked so that a part of a line keeps away from all nodes but its own.
fn add_near(
    plan: &Plan<'_>,
    points: &[Point],
    bend: &Bend,
    part: (Point, Point),
    needs: &mut Vec<Need>,
) -> Result<(), AllocError> {
    let (one, other) = part;
    if one.y == other.y || other.x <= one.x {
        return Ok(());
    }
    let from = plan.column(bend.begin);
    for (node, point) in points.iter().enumerate() {
        let to = plan.column(node);
        if node != bend.begin && node != bend.end && from < to && is_near(one, other, *point) {
            needs.push(Need {
                to,
                from,
                px: point
                    .x
                    .saturating_sub(length_of(points, bend.begin))
                    .saturating_add(12),
            })?;
        }
    }
    Ok(())
}

/// Where a node lies, from the left.
fn length_of(points: &[Point], node: usize) -> u64 {
    match points.get(node) {
        Some(point) => point.x,
        None => 0,
    }
}

/// Whether a sloping part comes near a point.
fn is_near(one: Point, other: Point, point: Point) -> bool {
    if point.x <= one.x || other.x <= point.x {
        return false;
    }
    let slope = Slope {
        left: one.y,
        right: other.y,
    };
    let part = point.x.saturating_sub(one.x);
    let whole = other.x.saturating_sub(one.x);
    let height = height_between(slope, part, whole);
    height.max(point.y).saturating_sub(height.min(point.y)) < NEAR
}
