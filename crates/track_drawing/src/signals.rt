//! Marks of signals: foot, mast and lamp, on the right of who drives; below the track for trains to the right.

ghost use Rattle.std.specs.Prelude.{◌≡◌, ◌≤◌, ◌+◌, ◌*◌, length, OnOk};
ghost use Rattle.drawing.specs.Drawing.{areas_in, words_in};

use crate::scene::{Scene, beside, index_of};
use crate::titles::signal_title;
use drawing::{Color, Picture, Point, put_dot, put_dotted, put_line, put_title, put_title_end};
use rail_base::station::{Overlap, Station};
use std::alloc::{AllocError, Global};

/// Appends the mark of each signal with a title, and of its overlap, where it has one.
pub(crate) fn put_signals(
    alloc: Global,
    picture: &mut Picture,
    scene: &Scene,
    station: &Station,
) -> Result<(), AllocError>
    ensures words { OnOk result (words_in picture.new ≡ words_in picture.old) }
    ensures areas { OnOk result (areas_in picture.new ≡ areas_in picture.old) }
    ensures size { OnOk result (length picture.new ≤ length picture.old + 5 * length station.now.signals) }
{
    let signals = station.signals.as_slice();
    for (index, signal) in signals.iter().enumerate() {
        let is_right = scene.is_right(signal.node, signal.toward);
        let overlap = overlap_of(station.overlaps.as_slice(), index);
        let sections = station.sections.as_slice();
        let title = signal_title(alloc, signal, is_right, overlap, sections)?;
        let point = scene.point(index_of(signal.node));
        put_title(picture, title)?;
        put_mark(alloc, picture, point, is_right, overlap.is_some())?;
        put_title_end(picture)?;
    }
    Ok(())
}

/// The overlap of a signal, by its index, if it has one.
fn overlap_of(overlaps: &[Overlap], signal: usize) -> Option<&Overlap> {
    for overlap in overlaps {
        if overlap.signal.0 as usize == signal.saturating_add(1) {
            return Some(overlap);
        }
    }
    None
}

/// Appends the mark of a signal, and a dotted line along the track behind it where it has an overlap.
fn put_mark(
    alloc: Global,
    picture: &mut Picture,
    point: Point,
    is_right: bool,
    has_overlap: bool,
) -> Result<(), AllocError>
    ensures words { OnOk result (words_in picture.new ≡ words_in picture.old) }
    ensures areas { OnOk result (areas_in picture.new ≡ areas_in picture.old) }
    ensures size { OnOk result (length picture.new ≤ length picture.old + 3) }
{
    let mast = mast_of(alloc, point, is_right)?;
    let lamp = Point {
        x: beside(point.x, is_right, 9),
        y: beside(point.y, is_right, 9),
    };
    put_line(picture, mast, Color::Red, 2)?;
    put_dot(picture, lamp, 3, Color::Red)?;
    if has_overlap {
        let points = overlap_line(alloc, point, is_right)?;
        put_dotted(picture, points, Color::Red, 2)?;
    }
    Ok(())
}

/// The foot and the mast of a signal.
fn mast_of(alloc: Global, point: Point, is_right: bool) -> Result<Vec<Point>, AllocError> {
    let y = beside(point.y, is_right, 9);
    let mut points = Vec::new(alloc);
    points.push(Point {
        x: point.x,
        y: y.saturating_sub(4),
    })?;
    points.push(Point {
        x: point.x,
        y: y.saturating_add(4),
    })?;
    points.push(Point { x: point.x, y })?;
    points.push(Point {
        x: beside(point.x, is_right, 6),
        y,
    })?;
    Ok(points)
}

/// The line of an overlap, along the track behind its signal.
fn overlap_line(alloc: Global, point: Point, is_right: bool) -> Result<Vec<Point>, AllocError> {
    let y = beside(point.y, is_right, 4);
    let mut points = Vec::new(alloc);
    points.push(Point {
        x: beside(point.x, is_right, 2),
        y,
    })?;
    points.push(Point {
        x: beside(point.x, is_right, 26),
        y,
    })?;
    Ok(points)
}
