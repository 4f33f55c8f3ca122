//! Phrases that sentences are made of. An error is want of memory; then a part of what is appended may stand there.

ghost use Rattle.std.specs.Prelude.{◌≡◌, ◌++◌, IfOk, OnOk};
ghost use Rattle.rail_base.specs.Routes.{own_shared, route_at};
ghost use Rattle.rail_spec.specs.Requirements.{most_ticks};
ghost use Rattle.rail_base.specs.Names.{node_name, section_name};
ghost use Rattle.cone_words.specs.Names.{makes_text, nodes_text};
ghost use Rattle.cone_words.specs.Phrases.{each_node, joined_nodes, each_section};
ghost use Rattle.cone_words.specs.Cones.{cleared_of, cleared_text, held_shared, left_text, own_text, released_text};
ghost use Rattle.cone_words.specs.Cones.{sections_text};
ghost use Rattle.rail_text.specs.Added.{AddsText};

use crate::entries::{has_section, nodes_of_visit, overlaps_of, sections_of};
use rail_base::design::Design;
use rail_base::names::{node_name, section_name, train_name};
use rail_base::route::{RouteNo, RouteTable};
use rail_base::station::{NodeNo, SectionNo, TrainNo, Within};
use rail_text::put_number;
use std::alloc::{AllocError, Global};

/// The most ticks that a within allows.
pub fn most_ticks(design: &Design, within: &Within) -> u64
    ensures { result ≡ most_ticks design.now.station within.now }
{
    u64::from(within.max_ms / design.station.tick_ms)
}

/// Appends `<train> makes visit <k>`.
pub fn put_makes(
    text: &mut Vec<u8>,
    design: &Design,
    train: TrainNo,
    visit: u32,
) -> Result<(), AllocError>
    ensures { OnOk result (text.new.items ≡ text.old.items ++ makes_text design.now.station train visit) }
{
    text.extend_from_slice(train_name(design, train))?;
    text.extend_from_slice(b" makes visit ")?;
    put_number(text, u64::from(visit))?;
    Ok(())
}

/// Appends the nodes of a visit.
pub fn put_nodes(
    text: &mut Vec<u8>,
    design: &Design,
    train: TrainNo,
    visit: u32,
) -> Result<(), AllocError>
    ensures { OnOk result (text.new.items ≡ text.old.items ++ nodes_text design.now.station train visit) }
{
    text.extend_from_slice(b", at ")?;
    put_joined_nodes(text, design, nodes_of_visit(design, train, visit))
}

/// Appends those sections that a route goes over and another has.
pub fn put_own_shared(
    alloc: Global,
    text: &mut Vec<u8>,
    design: &Design,
    routes: &RouteTable,
    route: RouteNo,
    other: RouteNo,
) -> Result<(), AllocError>
    ensures { OnOk result (AddsText text.old text.new (own_text design.now.station routes.now route other)) }
{
    let own = own_shared(alloc, routes, route, other)?;
    put_sections(text, design, &own)
}

/// Appends that a train has left or released each section of its route that another route has too.
pub(crate) fn put_cleared(
    alloc: Global,
    text: &mut Vec<u8>,
    design: &Design,
    routes: &RouteTable,
    route: RouteNo,
    other: RouteNo,
) -> Result<(), AllocError>
    ensures { OnOk result (AddsText text.old text.new (cleared_of design.now.station routes.now route other)) }
{
    let own = own_shared(alloc, routes, route, other)?;
    let held = held_shared(alloc, routes, route, other)?;
    put_left_or_released(text, design, &own, &held)
}

/// Appends ` or ` and a node, for each of these.
fn put_each_node(text: &mut Vec<u8>, design: &Design, nodes: &[NodeNo]) -> Result<(), AllocError>
    ensures { OnOk result (AddsText text.old text.new (each_node design.now.station nodes.now)) }
{
    for node in nodes {
        text.extend_from_slice(b" or ")?;
        text.extend_from_slice(node_name(design, *node))?;
    }
    Ok(())
}

/// Appends nodes, with ` or ` between each and the next.
pub(crate) fn put_joined_nodes(
    text: &mut Vec<u8>,
    design: &Design,
    nodes: &[NodeNo],
) -> Result<(), AllocError>
    ensures { OnOk result (AddsText text.old text.new (joined_nodes design.now.station nodes.now)) }
{
    match nodes {
        [] => Ok(()),
        [first, rest @ ..] => {
            text.extend_from_slice(node_name(design, *first))?;
            put_each_node(text, design, rest)
        }
    }
}

/// Appends `, ` and a section, for each of these.
fn put_each_section(
    text: &mut Vec<u8>,
    design: &Design,
    sections: &[SectionNo],
) -> Result<(), AllocError>
    ensures { OnOk result (AddsText text.old text.new (each_section design.now.station sections.now)) }
{
    for section in sections {
        text.extend_from_slice(b", ")?;
        text.extend_from_slice(section_name(design, *section))?;
    }
    Ok(())
}

/// Appends sections.
fn put_sections(
    text: &mut Vec<u8>,
    design: &Design,
    sections: &[SectionNo],
) -> Result<(), AllocError>
    ensures { OnOk result (text.new.items ≡ text.old.items ++ sections_text design.now.station sections.now) }
{
    match sections {
        [] => Ok(()),
        [first, rest @ ..] => {
            text.extend_from_slice(section_name(design, *first))?;
            put_each_section(text, design, rest)
        }
    }
}

/// Appends that sections are left.
fn put_left(text: &mut Vec<u8>, design: &Design, sections: &[SectionNo]) -> Result<(), AllocError>
    ensures { OnOk result (AddsText text.old text.new (left_text design.now.station sections.now)) }
{
    text.extend_from_slice(b"has left ")?;
    put_sections(text, design, sections)?;
    Ok(())
}

/// Appends that sections are released.
fn put_released(
    text: &mut Vec<u8>,
    design: &Design,
    sections: &[SectionNo],
) -> Result<(), AllocError>
    ensures { OnOk result (AddsText text.old text.new (released_text design.now.station sections.now)) }
{
    text.extend_from_slice(b"has released ")?;
    put_sections(text, design, sections)?;
    Ok(())
}

/// Appends that sections which a train goes over are left, and that sections of an overlap are released.
fn put_left_or_released(
    text: &mut Vec<u8>,
    design: &Design,
    own: &[SectionNo],
    held: &[SectionNo],
) -> Result<(), AllocError>
    ensures { OnOk result (AddsText text.old text.new (cleared_text design.now.station own.now held.now)) }
{
    if held.is_empty() {
        return put_left(text, design, own);
    }
    if own.is_empty() {
        return put_released(text, design, held);
    }
    put_left(text, design, own)?;
    text.extend_from_slice(b" and ")?;
    put_released(text, design, held)?;
    Ok(())
}

/// The sections that a route goes over and another has.
fn own_shared(
    alloc: Global,
    routes: &RouteTable,
    route: RouteNo,
    other: RouteNo,
) -> Result<Vec<SectionNo>, AllocError>
    ensures { IfOk result (λ found. found.items
        ≡ own_shared (route_at routes.now route) (route_at routes.now other)) }
{
    let mut found = Vec::new(alloc);
    for part in sections_of(routes, route) {
        if has_section(routes, other, part.0) {
            found.push(part.0)?;
        }
    }
    Ok(found)
}

/// Those of the overlap at its end.
fn held_shared(
    alloc: Global,
    routes: &RouteTable,
    route: RouteNo,
    other: RouteNo,
) -> Result<Vec<SectionNo>, AllocError>
    ensures { IfOk result (λ found. found.items
        ≡ held_shared (route_at routes.now route) (route_at routes.now other)) }
{
    let mut found = Vec::new(alloc);
    for part in overlaps_of(routes, route) {
        if has_section(routes, other, part.section) {
            found.push(part.section)?;
        }
    }
    Ok(found)
}
