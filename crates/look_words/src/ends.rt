//! Ends of the track where routes end and no train leaves.

ghost use Rattle.std.specs.Prelude.{◌≡◌, [], length, IfOk, OnOk};
ghost use Rattle.std.specs.List.{flat_map};
ghost use Rattle.rail_base.specs.Numbering.{one_to};
ghost use Rattle.rail_text.specs.Added.{AddsLines};
ghost use Rattle.look_words.specs.Ends.{dead_end, dead_end_line, dead_ends, is_dead_at, is_reached};

use interlocking::Interlocking;
use rail_base::design::Design;
use rail_base::names::node_name;
use rail_base::route::{Finish, RouteTable};
use rail_base::station::NodeNo;
use std::alloc::{AllocError, Global};

/// Whether this end is that of the track at a node.
fn is_dead_at(finish: Finish, node: u32) -> bool
    ensures { result ≡ is_dead_at node finish }
{
    match finish {
        Finish::DeadEnd(end) => end.0 == node,
        _ => false,
    }
}

/// Whether a route ends there.
fn is_reached(routes: &RouteTable, node: u32) -> bool
    ensures { result ≡ is_reached routes.now node }
{
    for route in routes.as_slice() {
        if is_dead_at(route.finish, node) {
            return true;
        }
    }
    false
}

/// That routes end where the track does.
fn dead_end_line(alloc: Global, design: &Design, node: u32) -> Result<Vec<u8>, AllocError>
    ensures { IfOk result (λ line. line.items ≡ dead_end_line design.now.station [] node) }
{
    let mut line = Vec::new(alloc);
    line.extend_from_slice(b"routes end where the track ends, at node ")?;
    line.extend_from_slice(node_name(design, NodeNo(node)))?;
    line.push(b'\n')?;
    Ok(line)
}

/// Appends that routes end at a node where the track does.
fn push_dead_end(
    alloc: Global,
    interlocking: &Interlocking,
    node: u32,
    lines: &mut Vec<Vec<u8>>,
) -> Result<(), AllocError>
    ensures { let i = interlocking.now in
        OnOk result (AddsLines lines.old lines.new (dead_end i.design.station i.routes node)) }
{
    if !is_reached(&interlocking.routes, node) {
        return Ok(());
    }
    let line = dead_end_line(alloc, &interlocking.design, node)?;
    lines.push(line)?;
    Ok(())
}

/// Appends the nodes at which routes end where the track does: no train leaves there. An error leaves a part of the
/// lines.
pub fn push_dead_ends(
    alloc: Global,
    interlocking: &Interlocking,
    lines: &mut Vec<Vec<u8>>,
) -> Result<(), AllocError>
    ensures { let i = interlocking.now in
        OnOk result (AddsLines lines.old lines.new (dead_ends i.design.station i.routes)) }
{
    let nodes = interlocking.design.station.nodes.len() as u32;
    for number in 1..nodes + 1 {
        push_dead_end(alloc, interlocking, number, lines)?;
    }
    Ok(())
}
