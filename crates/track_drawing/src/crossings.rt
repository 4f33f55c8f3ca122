//! Crossings: two pieces of track that share a section are joined by a dotted line.

ghost use Rattle.std.specs.Prelude.{◌≡◌, ◌≤◌, ◌+◌, ◌*◌, length, OnOk};
ghost use Rattle.drawing.specs.Drawing.{areas_in, words_in};

use crate::scene::{Scene, index_of};
use crate::titles::crossing_title;
use drawing::{Picture, Point, color_of_name, put_dotted, put_title, put_title_end};
use rail_base::list::Name;
use rail_base::station::Edge;
use std::alloc::{AllocError, Global};
use track_layout::{EdgePlace, points_of};

/// Appends a dotted line, with a title, for each section that two pieces of track share.
pub(crate) fn put_crossings(
    alloc: Global,
    picture: &mut Picture,
    scene: &Scene,
    edges: &[Edge],
    sections: &[Name],
) -> Result<(), AllocError>
    ensures words { OnOk result (words_in picture.new ≡ words_in picture.old) }
    ensures areas { OnOk result (areas_in picture.new ≡ areas_in picture.old) }
    ensures size { OnOk result (length picture.new ≤ length picture.old + 3 * length sections.now) }
{
    for (index, name) in sections.iter().enumerate() {
        let points = crossing_of(alloc, scene, edges, index)?;
        put_crossing(alloc, picture, points, name.as_bytes())?;
    }
    Ok(())
}

/// Appends a dotted line with a title, where there is one.
fn put_crossing(
    alloc: Global,
    picture: &mut Picture,
    points: Option<Vec<Point>>,
    section: &[u8],
) -> Result<(), AllocError>
    ensures words { OnOk result (words_in picture.new ≡ words_in picture.old) }
    ensures areas { OnOk result (areas_in picture.new ≡ areas_in picture.old) }
    ensures size { OnOk result (length picture.new ≤ length picture.old + 3) }
{
    match points {
        Some(points) => {
            let title = crossing_title(alloc, section)?;
            put_title(picture, title)?;
            put_dotted(picture, points, color_of_name(section), 2)?;
            put_title_end(picture)
        }
        None => Ok(()),
    }
}

/// The line between the first two edges of a section that are in two pieces, if there are any. The error is want of
/// memory.
fn crossing_of(
    alloc: Global,
    scene: &Scene,
    edges: &[Edge],
    section: usize,
) -> Result<Option<Vec<Point>>, AllocError> {
    let mut first = None;
    for (index, edge) in edges.iter().enumerate() {
        if edge.section.0 as usize != section.saturating_add(1) {
            continue;
        }
        let Some(line) = scene.layout.edges.as_slice().get(index) else {
            continue;
        };
        let piece = match scene.layout.nodes.as_slice().get(index_of(edge.from.node)) {
            Some(place) => place.piece,
            None => 0,
        };
        let middle = middle_of(alloc, line)?;
        match first {
            None => first = Some((piece, middle)),
            Some((other, from)) => {
                if other != piece {
                    let mut points = Vec::new(alloc);
                    points.push(from)?;
                    points.push(middle)?;
                    return Ok(Some(points));
                }
            }
        }
    }
    Ok(None)
}

/// The middle of the longest part of a line.
fn middle_of(alloc: Global, line: &EdgePlace) -> Result<Point, AllocError> {
    let mut longest = 0;
    let mut middle = line.begin;
    let mut before = line.begin;
    for point in points_of(alloc, line)?.as_slice() {
        let length = before.x.max(point.x).saturating_sub(before.x.min(point.x));
        if longest < length {
            longest = length;
            middle = Point {
                x: (before.x / 2).saturating_add(point.x / 2),
                y: (before.y / 2).saturating_add(point.y / 2),
            };
        }
        before = *point;
    }
    Ok(middle)
}
