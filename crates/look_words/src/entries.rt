//! Boundaries behind which the tracks part before a signal.

ghost use Rattle.std.specs.Prelude.{◌≡◌, [], filter, length, IfOk, OnOk};
ghost use Rattle.rail_text.specs.Added.{AddsLines};
ghost use Rattle.look_words.specs.Entries.{is_entry_at, is_open, open_entries, open_entry, open_entry_line};

use interlocking::Interlocking;
use rail_base::design::Design;
use rail_base::names::node_name;
use rail_base::route::{Route, RouteTable, Start};
use rail_base::station::NodeNo;
use std::alloc::{AllocError, Global};

/// Whether this start is the boundary at a node.
fn is_entry_at(start: Start, node: u32) -> bool
    ensures { result ≡ is_entry_at node start }
{
    match start {
        Start::Boundary(boundary) => boundary.0 == node,
        _ => false,
    }
}

/// How many routes start there.
fn count_entering(routes: &[Route], node: u32) -> usize
    ensures { result ≡ length (filter (λ r. is_entry_at node r.start) routes.now) }
{
    let mut count = 0;
    for route in routes {
        if is_entry_at(route.start, node) {
            count += 1;
        }
    }
    count
}

/// Whether several do.
fn is_open(routes: &RouteTable, node: u32) -> bool
    ensures { result ≡ is_open routes.now node }
{
    count_entering(routes.as_slice(), node) > 1
}

/// That the tracks part behind a boundary before a signal.
fn open_entry_line(alloc: Global, design: &Design, node: u32) -> Result<Vec<u8>, AllocError>
    ensures { IfOk result (λ line. line.items ≡ open_entry_line design.now.station [] node) }
{
    let mut line = Vec::new(alloc);
    line.extend_from_slice(b"behind boundary ")?;
    line.extend_from_slice(node_name(design, NodeNo(node)))?;
    line.extend_from_slice(b" the tracks part before a signal\n")?;
    Ok(line)
}

/// Appends that, where it is so.
fn push_open_entry(
    alloc: Global,
    interlocking: &Interlocking,
    node: u32,
    lines: &mut Vec<Vec<u8>>,
) -> Result<(), AllocError>
    ensures { let i = interlocking.now in
        OnOk result (AddsLines lines.old lines.new (open_entry i.design.station i.routes node)) }
{
    if !is_open(&interlocking.routes, node) {
        return Ok(());
    }
    let line = open_entry_line(alloc, &interlocking.design, node)?;
    lines.push(line)?;
    Ok(())
}

/// Appends the boundaries behind which the tracks part before a signal, so that nothing can hold a train outside. An
/// error leaves a part of the lines.
pub fn push_open_entries(
    alloc: Global,
    interlocking: &Interlocking,
    lines: &mut Vec<Vec<u8>>,
) -> Result<(), AllocError>
    ensures { let i = interlocking.now in
        OnOk result (AddsLines lines.old lines.new (open_entries i.design.station i.routes)) }
{
    let nodes = interlocking.design.station.nodes.len() as u32;
    for number in 1..nodes + 1 {
        push_open_entry(alloc, interlocking, number, lines)?;
    }
    Ok(())
}
