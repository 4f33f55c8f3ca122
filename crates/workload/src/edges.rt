//! The edges of the station. They run to the east, from side b to side a.

ghost use Rattle.std.specs.Prelude.{◌≡◌, ◌≤◌, ◌<◌, ◌-◌, ◌∷◌, [], ◌++◌, map, flat_map, IfOk, OnOk};
ghost use Rattle.rail_base.specs.Numbering.{one_to};
ghost use Rattle.workload.specs.Draws.{drawn, track_length};
ghost use Rattle.workload.specs.Track.{edge, west_legs, west, track, east_legs, east, edges};

use crate::draws::Draws;
use crate::names::numbered_name;
use crate::nodes::{EAST, WEST, fork, join, left_node, right};
use rail_base::list::List;
use rail_base::station::{Edge, End, NodeNo, SectionNo, Side};
use std::alloc::{AllocError, Global};

/// The section before all tracks.
const FIRST: SectionNo = SectionNo(1);

/// How long an edge at a boundary is, in mm.
const LINE_MM: u32 = 200_000;

/// How long an edge between switches and tracks is, in mm.
const LEG_MM: u32 = 50_000;

/// All edges in the order of their numbers. The lengths of the tracks are drawn.
pub fn edges(alloc: Global, size: u32, draws: &mut Draws) -> Result<List<Edge>, AllocError>
    requires at_least_one { 1 ≤ size }
    requires at_most_six { size ≤ 6 }
    ensures edges { IfOk result (λ all. all ≡ edges size (track_length draws.old.state)) }
    ensures draws { OnOk result (draws.new.state ≡ drawn draws.old.state size) }
{
    let mut edges = west(alloc, size)?;
    push_tracks(alloc, size, draws, &mut edges)?;
    push_east(alloc, size, &mut edges)?;
    Ok(List::from_vec(edges))
}

/// Adds an edge from side b of one node to side a of another.
fn push_edge(
    alloc: Global,
    edges: &mut Vec<Edge>,
    number: u32,
    ends: (NodeNo, NodeNo),
    length_mm: u32,
    section: SectionNo,
) -> Result<(), AllocError>
    ensures { OnOk result (edges.new.items
        ≡ edges.old.items ++ edge number ends.0.0 ends.1.0 length_mm section.0 ∷ []) }
{
    let (from, to) = ends;
    edges.push(Edge {
        name: numbered_name(alloc, b"x", number)?,
        from: End {
            node: from,
            side: Side::B,
        },
        to: End {
            node: to,
            side: Side::A,
        },
        length_mm,
        speed_mm_s: 20_000,
        section,
    })?;
    Ok(())
}

/// Adds the edges from the switch of a track to it, and on to the next.
fn push_west_legs(
    alloc: Global,
    size: u32,
    track: u32,
    edges: &mut Vec<Edge>,
) -> Result<(), AllocError>
    requires size { size ≤ 6 }
    requires track { track < size }
    ensures { OnOk result (edges.new.items ≡ edges.old.items ++ west_legs size track) }
{
    let switch = fork(size, track);
    let next = fork(size, track + 1);
    push_edge(
        alloc,
        edges,
        2 * track,
        (switch, left_node(track)),
        LEG_MM,
        FIRST,
    )?;
    push_edge(alloc, edges, 2 * track + 1, (switch, next), LEG_MM, FIRST)
}

/// The edges from the boundary in the west to all tracks.
fn west(alloc: Global, size: u32) -> Result<Vec<Edge>, AllocError>
    requires at_least_one { 1 ≤ size }
    requires at_most_six { size ≤ 6 }
    ensures { IfOk result (λ all. all.items ≡ west size) }
{
    let mut edges = Vec::new(alloc);
    push_edge(alloc, &mut edges, 1, (WEST, fork(size, 1)), LINE_MM, FIRST)?;
    for track in 1..size {
        push_west_legs(alloc, size, track, &mut edges)?;
    }
    Ok(edges)
}

/// Adds the tracks, and draws their lengths.
fn push_tracks(
    alloc: Global,
    size: u32,
    draws: &mut Draws,
    edges: &mut Vec<Edge>,
) -> Result<(), AllocError>
    requires at_least_one { 1 ≤ size }
    requires at_most_six { size ≤ 6 }
    ensures edges { OnOk result (edges.new.items
        ≡ edges.old.items ++ map (track size (track_length draws.old.state)) (one_to size)) }
    ensures draws { OnOk result (draws.new.state ≡ drawn draws.old.state size) }
{
    for track in 1..size + 1 {
        let number = 2 * size + track - 1;
        let length_mm = 150_000 + draws.below(100_000);
        let section = SectionNo(track + 1);
        push_edge(
            alloc,
            edges,
            number,
            (left_node(track), right(track)),
            length_mm,
            section,
        )?;
    }
    Ok(())
}

/// Adds the edges from a track to its switch, and from the next.
fn push_east_legs(
    alloc: Global,
    size: u32,
    track: u32,
    edges: &mut Vec<Edge>,
) -> Result<(), AllocError>
    requires size { size ≤ 6 }
    requires at_least_one { 1 ≤ track }
    requires track { track < size }
    ensures { OnOk result (edges.new.items ≡ edges.old.items ++ east_legs size track) }
{
    let section = SectionNo(size + 2);
    let switch = join(size, track);
    let next = join(size, track + 1);
    let number = 3 * size + 2 * track;
    push_edge(
        alloc,
        edges,
        number - 1,
        (right(track), switch),
        LEG_MM,
        section,
    )?;
    push_edge(alloc, edges, number, (next, switch), LEG_MM, section)
}

/// Adds the edges from all tracks to the boundary in the east.
fn push_east(alloc: Global, size: u32, edges: &mut Vec<Edge>) -> Result<(), AllocError>
    requires at_least_one { 1 ≤ size }
    requires at_most_six { size ≤ 6 }
    ensures { OnOk result (edges.new.items ≡ edges.old.items ++ east size) }
{
    let section = SectionNo(size + 2);
    push_edge(
        alloc,
        edges,
        3 * size,
        (join(size, 1), EAST),
        LINE_MM,
        section,
    )?;
    for track in 1..size {
        push_east_legs(alloc, size, track, edges)?;
    }
    Ok(())
}
