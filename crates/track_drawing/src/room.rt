//! Room for names: areas that are taken, and lines that names keep clear of.

use drawing::{Area, Point};
use std::alloc::{AllocError, Global};
use track_layout::name_width;

/// What is drawn already.
#[derive(Drop)]
pub(crate) struct Room {
    taken: Vec<Area>,
    lines: Vec<(Point, Point)>,
    /// How far names go to the right.
    right: u64,
}

/// Whether two areas have a point inside both.
fn meets(one: Area, other: Area) -> bool {
    one.left < other.right
        && other.left < one.right
        && one.top < other.bottom
        && other.top < one.bottom
}

/// The height of a part of a line at a place.
fn height_at(one: Point, other: Point, x: u64) -> u64 {
    let whole = other.x.saturating_sub(one.x).max(1);
    let part = x.max(one.x).min(other.x).saturating_sub(one.x);
    if one.y <= other.y {
        let rise = other.y.saturating_sub(one.y);
        one.y.saturating_add(rise.saturating_mul(part) / whole)
    } else {
        let rise = one.y.saturating_sub(other.y);
        one.y.saturating_sub(rise.saturating_mul(part) / whole)
    }
}

/// Whether a part of a line comes into an area or near it.
fn cuts(area: Area, one: Point, other: Point) -> bool {
    let (left, right) = if one.x <= other.x {
        (one, other)
    } else {
        (other, one)
    };
    let high = one.y.min(other.y);
    let low = one.y.max(other.y).saturating_add(2);
    if right.x < area.left || area.right < left.x || low < area.top {
        return false;
    }
    if area.bottom.saturating_add(2) < high {
        return false;
    }
    if left.y == right.y || left.x == right.x {
        return true;
    }
    let begin = height_at(left, right, area.left);
    let end = height_at(left, right, area.right);
    begin.max(end).saturating_add(3) > area.top && begin.min(end) < area.bottom.saturating_add(3)
}

impl Room {
    /// Nothing is drawn yet.
    pub(crate) fn new(alloc: Global, right: u64) -> Room {
        Room {
            taken: Vec::new(alloc),
            lines: Vec::new(alloc),
            right,
        }
    }

    /// Takes an area around a point. The error is want of memory.
    pub(crate) fn take_around(
        &mut self,
        point: Point,
        wide: u64,
        high: u64,
    ) -> Result<(), AllocError> {
        self.take(Area {
            left: point.x.saturating_sub(wide),
            top: point.y.saturating_sub(high),
            right: point.x.saturating_add(wide),
            bottom: point.y.saturating_add(high),
        })
    }

    /// Takes an area. The error is want of memory.
    pub(crate) fn take(&mut self, area: Area) -> Result<(), AllocError> {
        self.taken.push(area)?;
        Ok(())
    }

    /// Keeps names clear of a line. The error is want of memory.
    pub(crate) fn add_line(&mut self, points: &[Point]) -> Result<(), AllocError> {
        let mut before = None;
        for point in points {
            if let Some(before) = before {
                self.lines.push((before, *point))?;
            }
            before = Some(*point);
        }
        Ok(())
    }

    /// The first of some places at which a name of so many characters meets nothing, which is taken then. The error is want
    /// of memory.
    pub(crate) fn find(
        &mut self,
        places: &[Point],
        characters: usize,
    ) -> Result<Option<Point>, AllocError> {
        for place in places {
            let area = Area {
                left: place.x,
                top: place.y.saturating_sub(9),
                right: place.x.saturating_add(name_width(characters)),
                bottom: place.y.saturating_add(2),
            };
            if self.is_free(area) {
                self.take(area)?;
                return Ok(Some(*place));
            }
        }
        Ok(None)
    }

    /// Whether an area is inside the picture and meets nothing.
    fn is_free(&self, area: Area) -> bool {
        if area.left < 2 || area.top < 2 || self.right < area.right {
            return false;
        }
        for taken in self.taken.as_slice() {
            if meets(area, *taken) {
                return false;
            }
        }
        for (one, other) in self.lines.as_slice() {
            if cuts(area, *one, *other) {
                return false;
            }
        }
        true
    }
}
