//! Tracks and nodes in px.

use crate::ends::{entry_at, length_at, set_at};
use crate::graph::Graph;
use crate::places::Columns;
use crate::rows::{Rows, Slope};
use crate::tracks::{Course, Tracks};
use crate::widths::SignalRoom;
use drawing::Point;
use rail_base::station::Station;
use std::alloc::{AllocError, Global};

/// Between two rows, in px.
pub(crate) const ROW: u64 = 48;

/// How far a line goes to the side while it goes from one row to the next, in px.
pub(crate) const SLANT: u64 = 30;

/// Where the first column lies, in px.
pub(crate) const LEFT: u64 = 42;

/// Where the first row lies, in px.
pub(crate) const TOP: u64 = 40;

/// How far a line inside a crossover keeps from both rows, in px.
const CLEAR: u64 = 6;

/// What is known of the track before its columns have their px.
#[derive(Drop)]
pub(crate) struct Plan<'a> {
    pub(crate) station: &'a Station,
    pub(crate) graph: &'a Graph,
    pub(crate) tracks: &'a Tracks,
    pub(crate) columns: &'a Columns,
    pub(crate) rows: &'a Rows,
    pub(crate) room: &'a SignalRoom,
}

/// Where columns and tracks lie, in px.
#[derive(Drop)]
pub(crate) struct Sheet {
    /// Where each column lies.
    pub(crate) columns: Vec<u64>,
    /// How high each track lies at its ends.
    heights: Vec<Slope>,
}

/// The height of a row, in px.
pub(crate) fn row_height(row: usize) -> u64 {
    (row as u64).saturating_mul(ROW).saturating_add(TOP)
}

impl Plan<'_> {
    /// The column of a node.
    pub(crate) fn column(&self, node: usize) -> usize {
        self.columns.of(node)
    }

    /// The height of the row of a track, in px.
    pub(crate) fn row_height(&self, track: usize) -> u64 {
        row_height(entry_at(self.rows.rows.as_slice(), track).unwrap_or(0))
    }
}

/// Tracks over columns in px. The error is want of memory.
pub(crate) fn sheet_of(
    alloc: Global,
    plan: &Plan<'_>,
    columns: Vec<u64>,
) -> Result<Sheet, AllocError> {
    let mut sheet = Sheet {
        columns,
        heights: vec![in alloc; Slope { left: 0, right: 0 }; plan.tracks.courses.len()]?,
    };
    for track in plan.tracks.grounded(alloc)?.as_slice() {
        let Some(course) = plan.tracks.course(*track) else {
            continue;
        };
        let slope = if course.crosses {
            Slope {
                left: sheet.height(plan, course.begins_on, sheet.x(plan, course.left)),
                right: sheet.height(plan, course.ends_on, sheet.x(plan, course.right)),
            }
        } else {
            let height = plan.row_height(*track);
            Slope {
                left: height,
                right: height,
            }
        };
        set_at(sheet.heights.as_mut_slice(), *track, slope);
    }
    Ok(sheet)
}

impl Sheet {
    /// Where a node lies, from the left.
    pub(crate) fn x(&self, plan: &Plan<'_>, node: usize) -> u64 {
        length_at(self.columns.as_slice(), plan.column(node))
    }

    /// Where a node lies.
    pub(crate) fn point(&self, plan: &Plan<'_>, node: usize) -> Point {
        let x = self.x(plan, node);
        let track = plan.tracks.of_node(node);
        Point {
            x,
            y: self.height(plan, Some(track), x),
        }
    }

    /// How high a track lies at a place.
    fn height(&self, plan: &Plan<'_>, track: Option<usize>, x: u64) -> u64 {
        let Some(track) = track else {
            return TOP;
        };
        let slope = self
            .heights
            .get(track)
            .copied()
            .unwrap_or(Slope { left: 0, right: 0 });
        match plan.tracks.course(track) {
            Some(course) => {
                if course.crosses {
                    self.height_inside(plan, course, slope, x)
                } else {
                    slope.left
                }
            }
            None => slope.left,
        }
    }

    /// How high a crossover lies at a place: clear of both rows inside it, if they are apart.
    fn height_inside(&self, plan: &Plan<'_>, course: Course, slope: Slope, x: u64) -> u64 {
        let from = self.x(plan, course.left);
        let to = self.x(plan, course.right);
        if x <= from {
            return slope.left;
        }
        if to <= x {
            return slope.right;
        }
        let high = slope.left.min(slope.right);
        let all = slope.left.max(slope.right).saturating_sub(high);
        let room = all.saturating_sub(2 * CLEAR);
        let whole = to.saturating_sub(from).max(1);
        let part = room.saturating_mul(x.saturating_sub(from)) / whole;
        let down = (all.saturating_sub(room) / 2).saturating_add(part);
        if slope.left <= slope.right {
            slope.left.saturating_add(down)
        } else {
            slope.left.saturating_sub(down)
        }
    }
}
