//! Marks of nodes.

ghost use Rattle.std.specs.Prelude.{◌≡◌, ◌≤◌, ◌+◌, ◌*◌, length, OnOk};
ghost use Rattle.drawing.specs.Drawing.{areas_in, words_in};

use crate::scene::{NodeEnds, Scene, beside};
use crate::titles::node_title;
use drawing::{
    Color, Picture, Point, put_bar, put_dot, put_line, put_ring, put_title, put_title_end,
};
use rail_base::station::Node;
use std::alloc::{AllocError, Global};

/// Appends the mark of each node, with a title.
pub(crate) fn put_nodes(
    alloc: Global,
    picture: &mut Picture,
    scene: &Scene,
    nodes: &[Node],
) -> Result<(), AllocError>
    ensures words { OnOk result (words_in picture.new ≡ words_in picture.old) }
    ensures areas { OnOk result (areas_in picture.new ≡ areas_in picture.old) }
    ensures size { OnOk result (length picture.new ≤ length picture.old + 5 * length nodes.now) }
{
    for (index, node) in nodes.iter().enumerate() {
        let ends = scene.ends_at(index);
        let title = node_title(alloc, node, ends)?;
        put_title(picture, title)?;
        put_mark(alloc, picture, scene.point(index), node.boundary, ends)?;
        put_title_end(picture)?;
    }
    Ok(())
}

/// Appends the mark of a node: a bar for a boundary, a ring with a cross where no train can pass, a buffer at a dead end,
/// a dot for points, and else a stroke, which is longer where a section ends.
fn put_mark(
    alloc: Global,
    picture: &mut Picture,
    point: Point,
    boundary: bool,
    ends: NodeEnds,
) -> Result<(), AllocError>
    ensures words { OnOk result (words_in picture.new ≡ words_in picture.old) }
    ensures areas { OnOk result (areas_in picture.new ≡ areas_in picture.old) }
    ensures size { OnOk result (length picture.new ≤ length picture.old + 3) }
{
    if boundary {
        put_stroke(picture, point, 4, 18)
    } else if ends.is_broken() {
        put_broken(alloc, picture, point)
    } else if ends.is_end() {
        put_buffer(alloc, picture, point, ends.left > 0)
    } else if ends.is_points() {
        put_dot(picture, point, 3, Color::Black)
    } else if ends.ends_section {
        put_stroke(picture, point, 2, 10)
    } else {
        put_stroke(picture, point, 1, 6)
    }
}

/// Appends a stroke across the track.
fn put_stroke(
    picture: &mut Picture,
    point: Point,
    width: u64,
    height: u64,
) -> Result<(), AllocError>
    ensures words { OnOk result (words_in picture.new ≡ words_in picture.old) }
    ensures areas { OnOk result (areas_in picture.new ≡ areas_in picture.old) }
    ensures size { OnOk result (length picture.new ≤ length picture.old + 3) }
{
    let corner = Point {
        x: point.x.saturating_sub(width / 2),
        y: point.y.saturating_sub(height / 2),
    };
    put_bar(picture, corner, width, height, Color::Black)
}

/// Appends a ring with a cross.
fn put_broken(alloc: Global, picture: &mut Picture, point: Point) -> Result<(), AllocError>
    ensures words { OnOk result (words_in picture.new ≡ words_in picture.old) }
    ensures areas { OnOk result (areas_in picture.new ≡ areas_in picture.old) }
    ensures size { OnOk result (length picture.new ≤ length picture.old + 3) }
{
    let down = slash(alloc, point, false)?;
    let up = slash(alloc, point, true)?;
    put_ring(picture, point, 6, Color::Red)?;
    put_line(picture, down, Color::Red, 2)?;
    put_line(picture, up, Color::Red, 2)
}

/// One of the two lines of a cross.
fn slash(alloc: Global, point: Point, up: bool) -> Result<Vec<Point>, AllocError> {
    let mut points = Vec::new(alloc);
    points.push(Point {
        x: point.x.saturating_sub(3),
        y: beside(point.y, up, 3),
    })?;
    points.push(Point {
        x: point.x.saturating_add(3),
        y: beside(point.y, !up, 3),
    })?;
    Ok(points)
}

/// Appends a buffer, open toward the track.
fn put_buffer(
    alloc: Global,
    picture: &mut Picture,
    point: Point,
    from_left: bool,
) -> Result<(), AllocError>
    ensures words { OnOk result (words_in picture.new ≡ words_in picture.old) }
    ensures areas { OnOk result (areas_in picture.new ≡ areas_in picture.old) }
    ensures size { OnOk result (length picture.new ≤ length picture.old + 3) }
{
    let open = beside(point.x, !from_left, 5);
    let top = point.y.saturating_sub(7);
    let bottom = point.y.saturating_add(7);
    let mut points = Vec::new(alloc);
    points.push(Point { x: open, y: top })?;
    points.push(Point { x: point.x, y: top })?;
    points.push(Point {
        x: point.x,
        y: bottom,
    })?;
    points.push(Point { x: open, y: bottom })?;
    put_line(picture, points, Color::Black, 2)
}
