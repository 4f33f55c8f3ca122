//! The route with the edges of a path: its length, its nodes and its sections.

ghost use Rattle.std.specs.Prelude.{◌≡◌, ℕ, ◌+◌, ◌≤◌, ◌<◌, ◌∷◌, IfOk, length, map, pos, sum_by, slice_index};
ghost use Rattle.rail_base.specs.declared.station.SectionNo.{SectionNo};
ghost use Rattle.rail_base.specs.Members.{In};
ghost use Rattle.rail_base.specs.Stations.{length_of, section_of, IsEdge};
ghost use Rattle.rail_spec.specs.Track.{route_of};
ghost use Rattle.rail_laws.specs.Elementary.{IsStart};
ghost use Rattle.rail_routes.specs.Walks.{nodes_of, sections_along, sections_of, AreEdges, AreLastEnds};

use crate::overlap::overlaps;
use crate::starts::start_end;
use crate::track::{Track, far_end, through};
use rail_base::design::Design;
use rail_base::list::List;
use rail_base::route::{Finish, Route, Start};
use rail_base::station::{EdgeNo, End, NodeNo, SectionNo};
use std::alloc::{AllocError, Global};

/// The route from a start with the edges of a path.
pub(crate) fn route_of(
    alloc: Global,
    track: &Track<'_>,
    path: &[EdgeNo],
    start: Start,
    finish: Finish,
) -> Result<Route, AllocError>
    requires edges { AreEdges track.now.design.now.station path.now }
    requires start { IsStart track.now.design.now.station start }
    ensures { IfOk result (λ route. route ≡ route_of track.now.design.now.station start path.now finish) }
{
    let design = track.design;
    let from = start_end(track, start);
    Ok(Route {
        start,
        finish,
        length: length(design, path) as i64,
        edges: List::from_vec(Vec::from_slice(alloc, path)?),
        nodes: nodes(alloc, design, path, from)?,
        sections: sections(alloc, design, path)?,
        overlaps: overlaps(alloc, design, path, finish)?,
    })
}

/// How long an edge is, in mm.
fn length_of(design: &Design, edge: EdgeNo) -> u64
    requires { IsEdge design.now.station edge }
    ensures value { result ≡ length_of design.now.station edge }
    ensures bound { result ≤ 10000000 }
{
    u64::from(design.edge(edge).length_mm)
}

/// The section of an edge.
fn section_of(design: &Design, edge: EdgeNo) -> SectionNo
    requires { IsEdge design.now.station edge }
    ensures value { result ≡ section_of design.now.station edge }
    ensures bound { result.0 ≤ length design.now.station.sections }
{
    design.edge(edge).section
}

/// How long a path is, in mm.
fn length(design: &Design, path: &[EdgeNo]) -> u64
    requires { AreEdges design.now.station path.now }
    ensures value { result ≡ sum_by (length_of design.now.station) path.now }
    ensures bound { result ≤ 40000000000 }
{
    let mut length = 0;
    for edge in path {
        length += length_of(design, *edge);
    }
    length
}

/// The nodes of a path that leaves by an end, each with its offset in mm.
fn nodes(
    alloc: Global,
    design: &Design,
    path: &[EdgeNo],
    start: End,
) -> Result<List<(NodeNo, i64)>, AllocError>
    requires { AreEdges design.now.station path.now }
    ensures { IfOk result (λ nodes. nodes ≡ nodes_of design.now.station start path.now) }
{
    let mut nodes = List::new(alloc);
    nodes.push((start.node, 0))?;
    let mut offset = 0;
    let mut from = start;
    for edge in path {
        offset += length_of(design, *edge);
        let there = far_end(design.edge(*edge), from);
        nodes.push((there.node, offset as i64))?;
        from = through(there);
    }
    Ok(nodes)
}

/// For each section of the design, by its number, where its last edge on a path ends, in mm, or 0.
fn last_ends(alloc: Global, design: &Design, path: &[EdgeNo]) -> Result<Vec<u64>, AllocError>
    requires { AreEdges design.now.station path.now }
    ensures every_section { IfOk result (λ ends. length ends.items ≡ length design.now.station.sections + 1) }
    ensures value { IfOk result (λ ends. AreLastEnds design.now.station path.now ends.items) }
    ensures bound { IfOk result (λ ends. (k : ℕ) → slice_index ends.items k ≤ 40000000000) }
{
    let mut ends = vec![in alloc; 0; design.station.sections.len() + 1]?;
    let mut offset = 0;
    for edge in path {
        offset += length_of(design, *edge);
        let section = section_of(design, *edge);
        ends[section.0 as usize] = offset;
    }
    Ok(ends)
}

/// The sections of a path, each once, by its first occurrence.
pub(crate) fn first_sections(
    alloc: Global,
    design: &Design,
    path: &[EdgeNo],
) -> Result<Vec<SectionNo>, AllocError>
    requires { AreEdges design.now.station path.now }
    ensures { IfOk result (λ sections. sections.items ≡ sections_along design.now.station path.now) }
{
    let mut sections = Vec::new(alloc);
    let mut seen = vec![in alloc; false; design.station.sections.len() + 1]?;
    for edge in path {
        let section = section_of(design, *edge);
        if !seen[section.0 as usize] {
            seen[section.0 as usize] = true;
            sections.push(section)?;
        }
    }
    Ok(sections)
}

/// Sections with their release offsets, in mm.
fn with_ends(
    alloc: Global,
    sections: &[SectionNo],
    ends: &[u64],
) -> Result<List<(SectionNo, i64)>, AllocError>
    requires sections { (z : SectionNo) → In z sections.now → z.0 < length ends.now }
    requires bound { (k : ℕ) → slice_index ends.now k ≤ 40000000000 }
    ensures { IfOk result (λ released.
        released ≡ map (λ (z : SectionNo). (z, pos (slice_index ends.now z.0))) sections.now) }
{
    let mut released = List::new(alloc);
    for section in sections {
        released.push((*section, ends[section.0 as usize] as i64))?;
    }
    Ok(released)
}

/// The sections of a path with their release offsets: each once, by its first occurrence, with the end of its last
/// edge.
fn sections(
    alloc: Global,
    design: &Design,
    path: &[EdgeNo],
) -> Result<List<(SectionNo, i64)>, AllocError>
    requires { AreEdges design.now.station path.now }
    ensures { IfOk result (λ sections. sections ≡ sections_of design.now.station path.now) }
{
    let order = first_sections(alloc, design, path)?;
    let ends = last_ends(alloc, design, path)?;
    with_ends(alloc, order.as_slice(), ends.as_slice())
}
