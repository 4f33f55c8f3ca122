//! The lines that say what is seldom meant.

ghost use Rattle.std.specs.Prelude.{◌≡◌, map, length, IfOk, OnOk};
ghost use Rattle.std.specs.List.{flat_map, list_any};
ghost use Rattle.rail_base.specs.Numbering.{one_to};
ghost use Rattle.rail_base.specs.Stations.{node_of};
ghost use Rattle.rail_spec.specs.Plans.{has_node};
ghost use Rattle.rail_text.specs.Added.{AddsLines, AddsText};
ghost use Rattle.look_words.specs.Looks.{edge_looks, has_edge, is_unused, is_used, lone_node, lone_node_line, looks, looks_of_node, node_looks};
ghost use Rattle.look_words.specs.Looks.{short_edge, short_vehicle, slow_edge, slow_vehicle, unused_boundary, unused_boundary_line};
ghost use Rattle.look_words.specs.Looks.{vehicle_looks, within_looks};

use asked_words::{put_duration, put_metres, put_speed};
use cone_words::within_of;
use rail_base::design::Design;
use rail_base::list::List;
use rail_base::names::{entry, node_name};
use rail_base::station::{Edge, NodeNo, Train, Vehicle};
use rail_text::put_number;
use std::alloc::{AllocError, Global};

/// Appends that an edge has a limit below 1 m/s.
fn push_slow_edge(alloc: Global, edge: &Edge, lines: &mut Vec<Vec<u8>>) -> Result<(), AllocError>
    ensures { OnOk result (AddsLines lines.old lines.new (slow_edge edge.now)) }
{
    if edge.speed_mm_s < 1000 {
        let mut line = Vec::new(alloc);
        line.extend_from_slice(b"edge ")?;
        line.extend_from_slice(edge.name.as_bytes())?;
        line.extend_from_slice(b" has a limit of ")?;
        put_speed(&mut line, edge.speed_mm_s)?;
        line.push(b'\n')?;
        lines.push(line)?;
    }
    Ok(())
}

/// Appends that an edge is shorter than 1 m.
fn push_short_edge(alloc: Global, edge: &Edge, lines: &mut Vec<Vec<u8>>) -> Result<(), AllocError>
    ensures { OnOk result (AddsLines lines.old lines.new (short_edge edge.now)) }
{
    if edge.length_mm < 1000 {
        let mut line = Vec::new(alloc);
        line.extend_from_slice(b"edge ")?;
        line.extend_from_slice(edge.name.as_bytes())?;
        line.extend_from_slice(b" is ")?;
        put_metres(&mut line, edge.length_mm)?;
        line.extend_from_slice(b" long\n")?;
        lines.push(line)?;
    }
    Ok(())
}

/// Appends that a vehicle goes slower than 1 m/s.
fn push_slow_vehicle(
    alloc: Global,
    vehicle: &Vehicle,
    lines: &mut Vec<Vec<u8>>,
) -> Result<(), AllocError>
    ensures { OnOk result (AddsLines lines.old lines.new (slow_vehicle vehicle.now)) }
{
    if vehicle.speed_mm_s < 1000 {
        let mut line = Vec::new(alloc);
        line.extend_from_slice(b"vehicle ")?;
        line.extend_from_slice(vehicle.name.as_bytes())?;
        line.extend_from_slice(b" goes at most ")?;
        put_speed(&mut line, vehicle.speed_mm_s)?;
        line.push(b'\n')?;
        lines.push(line)?;
    }
    Ok(())
}

/// Appends that a vehicle is shorter than 1 m.
fn push_short_vehicle(
    alloc: Global,
    vehicle: &Vehicle,
    lines: &mut Vec<Vec<u8>>,
) -> Result<(), AllocError>
    ensures { OnOk result (AddsLines lines.old lines.new (short_vehicle vehicle.now)) }
{
    if vehicle.length_mm < 1000 {
        let mut line = Vec::new(alloc);
        line.extend_from_slice(b"vehicle ")?;
        line.extend_from_slice(vehicle.name.as_bytes())?;
        line.extend_from_slice(b" is ")?;
        put_metres(&mut line, vehicle.length_mm)?;
        line.extend_from_slice(b" long\n")?;
        lines.push(line)?;
    }
    Ok(())
}

/// Appends what is to be looked at of all edges.
fn push_edges(alloc: Global, edges: &[Edge], lines: &mut Vec<Vec<u8>>) -> Result<(), AllocError>
    ensures { OnOk result (AddsLines lines.old lines.new (flat_map edge_looks edges.now)) }
{
    for edge in edges {
        push_slow_edge(alloc, edge, lines)?;
        push_short_edge(alloc, edge, lines)?;
    }
    Ok(())
}

/// Appends what is to be looked at of all vehicles.
fn push_vehicles(
    alloc: Global,
    vehicles: &[Vehicle],
    lines: &mut Vec<Vec<u8>>,
) -> Result<(), AllocError>
    ensures { OnOk result (AddsLines lines.old lines.new (flat_map vehicle_looks vehicles.now)) }
{
    for vehicle in vehicles {
        push_slow_vehicle(alloc, vehicle, lines)?;
        push_short_vehicle(alloc, vehicle, lines)?;
    }
    Ok(())
}

/// Whether an edge ends at the node.
fn has_edge(design: &Design, node: NodeNo) -> bool
    ensures { result ≡ has_edge design.now.station node }
{
    for edge in design.station.edges.as_slice() {
        if edge.from.node.0 == node.0 || edge.to.node.0 == node.0 {
            return true;
        }
    }
    false
}

/// Whether a node is one of these.
fn has_node(nodes: &[NodeNo], node: NodeNo) -> bool
    ensures { result ≡ has_node nodes.now node }
{
    nodes.iter().any(|other| other.0 == node.0)
}

/// Whether one of these visits lists the node.
fn is_visited(visits: &[List<NodeNo>], node: NodeNo) -> bool
    ensures { result ≡ list_any (λ set. has_node set node) visits.now }
{
    for set in visits {
        if has_node(set.as_slice(), node) {
            return true;
        }
    }
    false
}

/// Whether a visit of a train lists the node.
fn is_used(trains: &[Train], node: NodeNo) -> bool
    ensures { result ≡ list_any (λ t. list_any (λ set. has_node set node) t.visits) trains.now }
{
    for train in trains {
        if is_visited(train.visits.as_slice(), node) {
            return true;
        }
    }
    false
}

/// That no edge ends at a node.
fn lone_node_line(alloc: Global, design: &Design, node: NodeNo) -> Result<Vec<u8>, AllocError>
    ensures { IfOk result (λ line. line.items ≡ lone_node_line design.now.station node) }
{
    let mut line = Vec::new(alloc);
    line.extend_from_slice(b"no edge ends at node ")?;
    line.extend_from_slice(node_name(design, node))?;
    line.push(b'\n')?;
    Ok(line)
}

/// Appends that no edge ends at a node.
fn push_lone_node(
    alloc: Global,
    design: &Design,
    node: NodeNo,
    lines: &mut Vec<Vec<u8>>,
) -> Result<(), AllocError>
    ensures { OnOk result (AddsLines lines.old lines.new (lone_node design.now.station node)) }
{
    if has_edge(design, node) {
        return Ok(());
    }
    let line = lone_node_line(alloc, design, node)?;
    lines.push(line)?;
    Ok(())
}

/// Whether a node is a boundary.
fn is_boundary(design: &Design, node: NodeNo) -> bool
    ensures { result ≡ (node_of design.now.station node).boundary }
{
    match entry(design.station.nodes.as_slice(), node.0 as usize) {
        Some(node) => node.boundary,
        None => false,
    }
}

/// Whether a node is a boundary that no train uses.
fn is_unused(design: &Design, node: NodeNo) -> bool
    ensures { result ≡ is_unused design.now.station node }
{
    is_boundary(design, node) && !is_used(design.station.trains.as_slice(), node)
}

/// That no train uses a boundary.
fn unused_boundary_line(alloc: Global, design: &Design, node: NodeNo) -> Result<Vec<u8>, AllocError>
    ensures { IfOk result (λ line. line.items ≡ unused_boundary_line design.now.station node) }
{
    let mut line = Vec::new(alloc);
    line.extend_from_slice(b"no train uses boundary ")?;
    line.extend_from_slice(node_name(design, node))?;
    line.push(b'\n')?;
    Ok(line)
}

/// Appends that no train uses a boundary.
fn push_unused_boundary(
    alloc: Global,
    design: &Design,
    node: NodeNo,
    lines: &mut Vec<Vec<u8>>,
) -> Result<(), AllocError>
    ensures { OnOk result (AddsLines lines.old lines.new (unused_boundary design.now.station node)) }
{
    if !is_unused(design, node) {
        return Ok(());
    }
    let line = unused_boundary_line(alloc, design, node)?;
    lines.push(line)?;
    Ok(())
}

/// Appends that a within allows less than 10 s.
fn push_short_within(
    alloc: Global,
    design: &Design,
    number: u32,
    lines: &mut Vec<Vec<u8>>,
) -> Result<(), AllocError>
    ensures { OnOk result (AddsLines lines.old lines.new (within_looks design.now.station number)) }
{
    let within = within_of(design, number);
    if within.max_ms < 10000 {
        let mut line = Vec::new(alloc);
        line.extend_from_slice(b"within ")?;
        put_number(&mut line, u64::from(number))?;
        line.extend_from_slice(b" allows ")?;
        put_duration(&mut line, u64::from(within.max_ms))?;
        line.push(b'\n')?;
        lines.push(line)?;
    }
    Ok(())
}

/// Appends what is to be looked at of all nodes.
fn push_nodes(alloc: Global, design: &Design, lines: &mut Vec<Vec<u8>>) -> Result<(), AllocError>
    ensures { let d = design.now.station in
        OnOk result (AddsLines lines.old lines.new (flat_map (looks_of_node d) (one_to (length d.nodes)))) }
{
    let nodes = design.station.nodes.len() as u32;
    for number in 1..nodes + 1 {
        push_node(alloc, design, NodeNo(number), lines)?;
    }
    Ok(())
}

/// Appends what is to be looked at of a node.
fn push_node(
    alloc: Global,
    design: &Design,
    node: NodeNo,
    lines: &mut Vec<Vec<u8>>,
) -> Result<(), AllocError>
    ensures { OnOk result (AddsLines lines.old lines.new (node_looks design.now.station node)) }
{
    push_lone_node(alloc, design, node, lines)?;
    push_unused_boundary(alloc, design, node, lines)?;
    Ok(())
}

/// Appends what is to be looked at of all withins.
fn push_withins(alloc: Global, design: &Design, lines: &mut Vec<Vec<u8>>) -> Result<(), AllocError>
    ensures { let d = design.now.station in
        OnOk result (AddsLines lines.old lines.new (flat_map (within_looks d) (one_to (length d.withins)))) }
{
    let withins = design.station.withins.len() as u32;
    for number in 1..withins + 1 {
        push_short_within(alloc, design, number, lines)?;
    }
    Ok(())
}

/// Appends what a designer should look at: nodes without an edge, boundaries that no train uses, edges and vehicles that
/// are slower than 1 m/s or shorter than 1 m, and greatest times below 10 s. An error leaves a part of the lines.
pub fn push_looks(
    alloc: Global,
    design: &Design,
    lines: &mut Vec<Vec<u8>>,
) -> Result<(), AllocError>
    ensures { OnOk result (AddsLines lines.old lines.new (looks design.now.station)) }
{
    push_nodes(alloc, design, lines)?;
    push_edges(alloc, design.station.edges.as_slice(), lines)?;
    push_vehicles(alloc, design.station.vehicles.as_slice(), lines)?;
    push_withins(alloc, design, lines)?;
    Ok(())
}
