//! How the line of an edge runs between its nodes.

use crate::ends::{entry_at, index_of};
use crate::graph::{Around, Turn};
use crate::sheet::{Plan, ROW, SLANT, Sheet};
use crate::tracks::Course;
use drawing::Point;
use rail_base::station::Edge;
use std::alloc::{AllocError, Global};

/// How far a turn goes past a node, in px.
const PAST: u64 = 16;

/// How far a corner is cut off, in px.
const CORNER: u64 = 12;

/// The points of a line between the nodes at which it begins and ends.
#[derive(Drop)]
pub(crate) struct Bend {
    pub(crate) begin: usize,
    pub(crate) end: usize,
    pub(crate) middle: Vec<Point>,
}

/// How an edge runs: in its row, from one row to the other, or round. Where it is `steep`, a turn leaves its nodes at a
/// slant. The error is want of memory.
pub(crate) fn bend_of(
    alloc: Global,
    plan: &Plan<'_>,
    sheet: &Sheet,
    edge: usize,
    steep: bool,
) -> Result<Bend, AllocError> {
    for (track, course) in plan.tracks.courses.as_slice().iter().enumerate() {
        if let Some(turn) = course.turn
            && turn.edge == edge
        {
            return bend_of_turn(alloc, plan, sheet, track, *course, turn, steep);
        }
    }
    let Some(arc) = plan.graph.arc(edge) else {
        return Ok(Bend {
            begin: 0,
            end: 0,
            middle: Vec::new(alloc),
        });
    };
    let mut bend = Bend {
        begin: arc.left,
        end: arc.right,
        middle: Vec::new(alloc),
    };
    let track = entry_at(plan.tracks.of_edges.as_slice(), edge).unwrap_or(0);
    if let Some(course) = plan.tracks.course(track)
        && !course.crosses
    {
        let from = sheet.point(plan, arc.left);
        let to = sheet.point(plan, arc.right);
        put_slants(&mut bend, from, to, plan.row_height(track))?;
    }
    Ok(bend)
}

/// How far a slope between two heights goes to the side, in px.
fn slant(one: u64, other: u64) -> u64 {
    let rise = one.max(other).saturating_sub(one.min(other));
    rise.saturating_mul(SLANT) / ROW
}

/// Puts the points at which a line comes into its row and leaves it.
fn put_slants(bend: &mut Bend, from: Point, to: Point, y: u64) -> Result<(), AllocError> {
    let mut first = slant(from.y, y);
    let mut last = slant(to.y, y);
    let both = first.saturating_add(last);
    let room = to.x.saturating_sub(from.x).saturating_sub(4);
    if both > room {
        first = first.saturating_mul(room) / both.max(1);
        last = last.saturating_mul(room) / both.max(1);
    }
    if from.y != y {
        bend.middle.push(Point {
            x: from.x.saturating_add(first),
            y,
        })?;
    }
    if to.y != y {
        bend.middle.push(Point {
            x: to.x.saturating_sub(last),
            y,
        })?;
    }
    Ok(())
}

/// A place so far to the right, or to the left.
fn beside(x: u64, right: bool, px: u64) -> u64 {
    if right {
        x.saturating_add(px)
    } else {
        x.saturating_sub(px)
    }
}

/// A place so far from a height toward another one.
fn toward(y: u64, other: u64, px: u64) -> u64 {
    if y < other {
        y.saturating_add(px)
    } else {
        y.saturating_sub(px)
    }
}

/// How a turn goes round, by a row of its own.
fn bend_of_turn(
    alloc: Global,
    plan: &Plan<'_>,
    sheet: &Sheet,
    track: usize,
    course: Course,
    turn: Turn,
    steep: bool,
) -> Result<Bend, AllocError> {
    let y = plan.row_height(track);
    let left = sheet.x(plan, course.left);
    let right = sheet.x(plan, course.right);
    let swap = match turn.around {
        Around::Right => right > left,
        Around::Left => right < left,
        Around::Circle => right > left,
    };
    let (begin, end) = if swap {
        (course.right, course.left)
    } else {
        (course.left, course.right)
    };
    let mut bend = Bend {
        begin,
        end,
        middle: Vec::new(alloc),
    };
    let from = sheet.point(plan, begin);
    let to = sheet.point(plan, end);
    match turn.around {
        Around::Right => {
            let past = plan.room.at(begin, true).max(plan.room.at(end, true));
            put_turn(&mut bend, from, to, y, true, past, steep)?;
        }
        Around::Left => {
            let past = plan.room.at(begin, false).max(plan.room.at(end, false));
            put_turn(&mut bend, from, to, y, false, past, steep)?;
        }
        Around::Circle => put_circle(&mut bend, from, to, y)?,
    }
    Ok(bend)
}

/// A turn at one side: past its first node, round, and back in its row to the second.
fn put_turn(
    bend: &mut Bend,
    from: Point,
    to: Point,
    y: u64,
    right: bool,
    past: u64,
    steep: bool,
) -> Result<(), AllocError> {
    let near = beside(from.x, right, past.saturating_add(PAST));
    let far = beside(near, right, CORNER);
    if !steep {
        bend.middle.push(Point { x: near, y: from.y })?;
    }
    bend.middle.push(Point {
        x: far,
        y: toward(from.y, y, CORNER),
    })?;
    bend.middle.push(Point {
        x: far,
        y: toward(y, from.y, CORNER),
    })?;
    bend.middle.push(Point { x: near, y })?;
    let rise = y.max(to.y).saturating_sub(y.min(to.y));
    let slope = (rise / ROW).max(1).saturating_mul(SLANT);
    bend.middle.push(Point {
        x: beside(to.x, right, slope),
        y,
    })?;
    Ok(())
}

/// An edge that closes a circle: from its right node round to its left one.
fn put_circle(bend: &mut Bend, from: Point, to: Point, y: u64) -> Result<(), AllocError> {
    let right = from.x.saturating_add(18);
    let left = to.x.saturating_sub(18);
    bend.middle.push(Point {
        x: right,
        y: toward(from.y, y, CORNER),
    })?;
    bend.middle.push(Point { x: right, y })?;
    bend.middle.push(Point { x: left, y })?;
    bend.middle.push(Point {
        x: left,
        y: toward(to.y, y, CORNER),
    })?;
    Ok(())
}

/// Whether a bend begins at the first node of an edge.
pub(crate) fn begins_at(bend: &Bend, edge: &Edge) -> bool {
    bend.begin == index_of(edge.from.node)
}
