//! The axes: times across, and the levels of nodes down.

ghost use Rattle.std.specs.Prelude.{◌≡◌, ◌+◌, ◌*◌, ◌≤◌, length, OnOk};
ghost use Rattle.drawing.specs.Drawing.{words_in};

use crate::scale::{LINE, Scale};
use drawing::{Anchor, Color, Picture, Point, put_line, put_note};
use rail_base::station::Node;
use rail_text::put_number;
use std::alloc::{AllocError, Global};

/// The steps of times that are written at the axis, in s.
const STEPS: [u64; 17] = [
    1, 2, 5, 10, 15, 30, 60, 120, 300, 600, 900, 1800, 3600, 7200, 10800, 21600, 43200,
];

/// Appends a straight gray line. `Err` is want of memory.
pub(crate) fn put_rule(
    alloc: Global,
    picture: &mut Picture,
    from: Point,
    to: Point,
) -> Result<(), AllocError>
    ensures words { OnOk result (words_in picture.new ≡ words_in picture.old) }
    ensures size { OnOk result (length picture.new ≡ length picture.old + 1) }
{
    let mut points = Vec::new(alloc);
    points.push(from)?;
    points.push(to)?;
    put_line(picture, points, Color::Gray, 1)
}

/// Appends the times, with lines down to a height.
pub(crate) fn put_times(
    alloc: Global,
    picture: &mut Picture,
    scale: &Scale,
    bottom: u64,
) -> Result<(), AllocError>
    ensures words { OnOk result (words_in picture.new ≡ words_in picture.old) }
    ensures size { OnOk result (length picture.new ≤ length picture.old + 26) }
{
    let all = scale.ticks.saturating_mul(scale.tick_ms);
    let step = step_of(all);
    for index in 0..13 {
        let ms = step.saturating_mul(index);
        if ms <= all {
            put_time(alloc, picture, scale, ms, bottom)?;
        }
    }
    Ok(())
}

/// Appends each level once.
pub(crate) fn put_levels(
    alloc: Global,
    picture: &mut Picture,
    scale: &Scale,
    nodes: &[Node],
) -> Result<(), AllocError>
    ensures words { OnOk result (words_in picture.new ≡ words_in picture.old) }
    ensures size { OnOk result (length picture.new ≤ length picture.old + 2 * length nodes.now) }
{
    for index in 0..nodes.len() {
        if scale.is_first_there(index) {
            put_level(alloc, picture, scale, nodes, index)?;
        }
    }
    Ok(())
}

/// The step of times of which there are 12 at most, in ms.
fn step_of(all: u64) -> u64 {
    for step in STEPS {
        let step = step.saturating_mul(1000);
        if all <= step.saturating_mul(12) {
            return step;
        }
    }
    86_400_000
}

/// Appends a time: a line down to a height, and the time in s above it.
fn put_time(
    alloc: Global,
    picture: &mut Picture,
    scale: &Scale,
    ms: u64,
    bottom: u64,
) -> Result<(), AllocError>
    ensures words { OnOk result (words_in picture.new ≡ words_in picture.old) }
    ensures size { OnOk result (length picture.new ≡ length picture.old + 2) }
{
    let x = scale.time(ms);
    let above = scale.height_of_times();
    put_rule(
        alloc,
        picture,
        Point { x, y: above },
        Point { x, y: bottom },
    )?;
    let mut text = Vec::new(alloc);
    put_number(&mut text, ms / 1000)?;
    text.extend_from_slice(b" s")?;
    let place = Point {
        x,
        y: above.saturating_sub(4),
    };
    put_note(picture, place, Anchor::Middle, Color::Black, text)
}

/// Appends the level of a node of an index: a line across, and the names of the nodes there.
fn put_level(
    alloc: Global,
    picture: &mut Picture,
    scale: &Scale,
    nodes: &[Node],
    index: usize,
) -> Result<(), AllocError>
    ensures words { OnOk result (words_in picture.new ≡ words_in picture.old) }
    ensures size { OnOk result (length picture.new ≡ length picture.old + 2) }
{
    let y = scale.height(index);
    put_rule(
        alloc,
        picture,
        Point { x: scale.left, y },
        Point {
            x: scale.right(),
            y,
        },
    )?;
    let text = scale.label(alloc, nodes, index)?;
    let place = Point {
        x: scale.left.saturating_sub(LINE / 2),
        y: y.saturating_add(4),
    };
    put_note(picture, place, Anchor::End, Color::Black, text)
}
