//! How large a drawing has to be.

use crate::shape::{Anchor, Point, Shape};

/// What is left free at the right and below, in px.
const MARGIN: u64 = 20;

/// The width of a character, in px.
const CHARACTER: u64 = 7;

/// The size that takes in all shapes, in px to the right and below.
pub(crate) fn size_of(shapes: &[Shape]) -> Point {
    let mut size = Point { x: 0, y: 0 };
    for shape in shapes {
        size = farther(size, shape_end(shape));
    }
    Point {
        x: size.x.saturating_add(MARGIN),
        y: size.y.saturating_add(MARGIN),
    }
}

/// The farther of two places, in each direction.
fn farther(one: Point, other: Point) -> Point {
    Point {
        x: one.x.max(other.x),
        y: one.y.max(other.y),
    }
}

/// The farthest of some points, in each direction.
fn farthest_point(points: &[Point]) -> Point {
    let mut farthest = Point { x: 0, y: 0 };
    for point in points {
        farthest = farther(farthest, *point);
    }
    farthest
}

/// Where a text ends.
fn text_end(place: Point, anchor: Anchor, text: &[u8]) -> Point {
    let width = (text.len() as u64).saturating_mul(CHARACTER);
    let right = match anchor {
        Anchor::Start => width,
        Anchor::Middle => width / 2,
        Anchor::End => 0,
    };
    Point {
        x: place.x.saturating_add(right),
        y: place.y,
    }
}

/// The right lower corner of a bar.
fn bar_end(corner: Point, width: u64, height: u64) -> Point {
    Point {
        x: corner.x.saturating_add(width),
        y: corner.y.saturating_add(height),
    }
}

/// How far a shape comes to the right and below.
fn shape_end(shape: &Shape) -> Point {
    match shape {
        Shape::Line { points, .. } => farthest_point(points.as_slice()),
        Shape::Bar {
            corner,
            width,
            height,
            ..
        } => bar_end(*corner, *width, *height),
        Shape::Frame {
            corner,
            width,
            height,
            ..
        } => bar_end(*corner, *width, *height),
        Shape::Dot { center, radius, .. } => Point {
            x: center.x.saturating_add(*radius),
            y: center.y.saturating_add(*radius),
        },
        Shape::Ring { center, radius, .. } => Point {
            x: center.x.saturating_add(*radius),
            y: center.y.saturating_add(*radius),
        },
        Shape::Dotted { points, .. } => farthest_point(points.as_slice()),
        Shape::Label { place, text, .. } => text_end(*place, Anchor::Start, text.as_bytes()),
        Shape::Titled { .. } => Point { x: 0, y: 0 },
        Shape::TitledEnd => Point { x: 0, y: 0 },
        Shape::Words {
            place,
            anchor,
            text,
            ..
        } => text_end(*place, *anchor, text.as_bytes()),
        Shape::Note {
            place,
            anchor,
            text,
            ..
        } => text_end(*place, *anchor, text.as_bytes()),
    }
}
