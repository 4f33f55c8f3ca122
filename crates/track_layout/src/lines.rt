//! The lines of edges, no two of which have flat parts over one another.

ghost use Rattle.std.specs.Prelude.{◌≡◌, true, false, None, ◌∷◌, [], ◌++◌, Some, IfOk, OnOk};
ghost use Rattle.std.specs.List.{list_all, flat_map};
ghost use Rattle.rail_base.specs.Members.{all_pairs};
ghost use Rattle.track_layout.specs.Lines.{FlatsAreApart, JoinTheirNodes, are_apart, flat_between, flats_after, flats_of, line_of, point_of};

use crate::bends::{Bend, begins_at, bend_of};
use crate::ends::entry_at;
use crate::place::{EdgePlace, Flat};
use crate::sheet::{Plan, Sheet};
use drawing::Point;
use rail_base::list::List;
use rail_base::station::{Edge, NodeNo, SectionNo};
use std::alloc::{AllocError, Global};

/// How far a line that finds no room goes below its nodes, in px.
const BELOW: u64 = 24;

/// The lines of all edges, in file order. The error is want of memory.
pub(crate) fn lines_of(
    alloc: Global,
    plan: &Plan<'_>,
    sheet: &Sheet,
    edges: &[Edge],
    points: &[Point],
) -> Result<List<EdgePlace>, AllocError>
    ensures joined { IfOk result (λ lines. JoinTheirNodes points.now edges.now lines) }
    ensures apart { IfOk result (λ lines. FlatsAreApart lines) }
{
    let mut lines: List<EdgePlace> = List::new(alloc);
    let mut taken: Vec<Flat> = Vec::new(alloc);
    for (index, edge) in edges.iter().enumerate() {
        let ends = (
            point_at(points, edge.from.node),
            point_at(points, edge.to.node),
        );
        let line = line_beside(alloc, plan, sheet, (index, edge), ends, taken.as_slice())?;
        let flats = flats_in(alloc, &line)?;
        taken.extend_from_slice(flats.as_slice())?;
        lines.push(line)?;
    }
    Ok(lines)
}

/// Where a node is drawn.
fn point_at(points: &[Point], node: NodeNo) -> Point
    ensures { result ≡ point_of points.now node }
{
    if node.0 == 0 {
        return Point { x: 0, y: 0 };
    }
    match points.get(node.0 as usize - 1) {
        Some(point) => *point,
        None => Point { x: 0, y: 0 },
    }
}

/// The points of a line. The error is want of memory.
pub fn points_of(alloc: Global, line: &EdgePlace) -> Result<Vec<Point>, AllocError>
    ensures { IfOk result (λ points. points.items ≡ line_of line.now) }
{
    let mut points = Vec::new(alloc);
    points.push(line.begin)?;
    points.extend_from_slice(line.middle.as_slice())?;
    points.push(line.end)?;
    Ok(points)
}

/// The flat parts of a line. The error is want of memory.
fn flats_in(alloc: Global, line: &EdgePlace) -> Result<Vec<Flat>, AllocError>
    ensures { IfOk result (λ flats. flats.items ≡ flats_of line.now) }
{
    let points = points_of(alloc, line)?;
    flats_along(alloc, points.as_slice())
}

/// The flat parts of a line of points. The error is want of memory.
fn flats_along(alloc: Global, points: &[Point]) -> Result<Vec<Flat>, AllocError>
    ensures { IfOk result (λ flats. flats.items ≡ flats_after None points.now) }
{
    let mut flats = Vec::new(alloc);
    let mut before = None;
    for point in points {
        push_flat(&mut flats, before, *point)?;
        before = Some(*point);
    }
    Ok(flats)
}

/// Appends the flat part from one point to the next, if they are at one height.
fn push_flat(flats: &mut Vec<Flat>, before: Option<Point>, point: Point) -> Result<(), AllocError>
    ensures { OnOk result (flats.new.items ≡ flats.old.items ++ flat_between before point) }
{
    match before {
        Some(before) => {
            if before.y == point.y {
                flats.push(Flat {
                    height: point.y,
                    from: before.x.min(point.x),
                    to: before.x.max(point.x),
                })?;
            }
            Ok(())
        }
        None => Ok(()),
    }
}

/// Whether two flat parts lie beside each other or at two heights.
fn are_beside(one: Flat, other: Flat) -> bool
    ensures { result ≡ are_apart one other }
{
    one.height != other.height || one.to <= other.from || other.to <= one.from
}

/// Whether a flat part is apart from all of some.
fn is_clear(flat: Flat, flats: &[Flat]) -> bool
    ensures { result ≡ list_all (are_apart flat) flats.now }
{
    for other in flats {
        if !are_beside(flat, *other) {
            return false;
        }
    }
    true
}

/// Whether each of some flat parts is apart from all of some others.
fn are_clear(taken: &[Flat], flats: &[Flat]) -> bool
    ensures { result ≡ list_all (λ flat. list_all (are_apart flat) flats.now) taken.now }
{
    for flat in taken {
        if !is_clear(*flat, flats) {
            return false;
        }
    }
    true
}

/// Whether each two of some flat parts are apart.
fn are_pairwise_apart(flats: &[Flat]) -> bool
    ensures { result ≡ all_pairs are_apart flats.now }
{
    for (index, flat) in flats.iter().enumerate() {
        if !is_clear(*flat, &flats[index + 1..]) {
            return false;
        }
    }
    true
}

#[tactic(auto, using(crate::proofs::Pairs::pairs_both))]
/// Whether a line has room beside flat parts that are apart. The error is want of memory.
fn has_room(alloc: Global, line: &EdgePlace, taken: &[Flat]) -> Result<bool, AllocError>
    ensures { IfOk result (λ room. room ≡ true → all_pairs are_apart taken.now ≡ true
        → all_pairs are_apart (taken.now ++ flats_of line.now) ≡ true) }
{
    let flats = flats_in(alloc, line)?;
    if !are_clear(taken, flats.as_slice()) {
        return Ok(false);
    }
    Ok(are_pairwise_apart(flats.as_slice()))
}

/// The line of an edge between two points, with room beside flat parts that are apart: as its track has it, or else
/// steeper, or else past a point below. The error is want of memory.
fn line_beside(
    alloc: Global,
    plan: &Plan<'_>,
    sheet: &Sheet,
    at: (usize, &Edge),
    ends: (Point, Point),
    taken: &[Flat],
) -> Result<EdgePlace, AllocError>
    ensures begin { IfOk result (λ line. line.begin ≡ ends.0) }
    ensures end { IfOk result (λ line. line.end ≡ ends.1) }
    ensures section { IfOk result (λ line. line.section ≡ at.entry.1.now.section) }
    ensures apart { IfOk result (λ line. all_pairs are_apart taken.now ≡ true
        → all_pairs are_apart (taken.now ++ flats_of line) ≡ true) }
{
    let (index, edge) = at;
    let (begin, end) = ends;
    for steep in [false, true] {
        let bend = bend_of(alloc, plan, sheet, index, steep)?;
        let line = EdgePlace {
            begin,
            middle: List::from_vec(in_order(alloc, &bend, edge)?),
            end,
            section: edge.section,
            track: entry_at(plan.tracks.of_edges.as_slice(), index),
        };
        if has_room(alloc, &line, taken)? {
            return Ok(line);
        }
    }
    line_below(alloc, begin, end, edge.section)
}

/// A line with no flat part.
fn line_below(
    alloc: Global,
    begin: Point,
    end: Point,
    section: SectionNo,
) -> Result<EdgePlace, AllocError>
    ensures begin { IfOk result (λ line. line.begin ≡ begin) }
    ensures end { IfOk result (λ line. line.end ≡ end) }
    ensures section { IfOk result (λ line. line.section ≡ section) }
    ensures apart { IfOk result (λ line. flats_of line ≡ []) }
{
    let mut middle: List<Point> = List::new(alloc);
    middle.push(Point {
        x: begin.x / 2 + end.x / 2,
        y: height_below(begin.y, end.y),
    })?;
    Ok(EdgePlace {
        begin,
        middle,
        end,
        section,
        track: None,
    })
}

/// A height that is neither of two, below them where there is one.
fn height_below(one: u64, other: u64) -> u64
    ensures one { (result ≡ one) → ⊥ }
    ensures other { (result ≡ other) → ⊥ }
{
    let low = one.max(other);
    if low <= u64::MAX - BELOW {
        low + BELOW
    } else if one.min(other) == 0 {
        1
    } else {
        0
    }
}

/// The points of a bend in the direction of an edge. The error is want of memory.
fn in_order(alloc: Global, bend: &Bend, edge: &Edge) -> Result<Vec<Point>, AllocError> {
    if begins_at(bend, edge) {
        return Vec::from_slice(alloc, bend.middle.as_slice());
    }
    let mut points = Vec::with_capacity(alloc, bend.middle.len())?;
    for point in bend.middle.as_slice().iter().rev() {
        points.push(*point)?;
    }
    Ok(points)
}
