//! The nodes of a path, and those at which visits are made.

ghost use Rattle.std.specs.Prelude.{◌≡◌, ◌<◌, ◌+◌, ◌^◌, ◌++◌, ◌∷◌, List, All, IfOk, OnOk, map, nat_abs};
ghost use Rattle.rail_base.specs.Numbering.{after_first, first_of_list, from_first};
ghost use Rattle.rail_base.specs.Routes.{IsRoute, route_at};
ghost use Rattle.rail_spec.specs.Plans.{has_node};
ghost use Rattle.rail_spec.specs.Places.{path_nodes, visits_on};
ghost use Rattle.rail_course.specs.Tracks.{routes_at, path_length};
ghost use Rattle.rail_course.specs.PathNodes.{path_node_at, AddsNodes, LieBelow};
ghost use Rattle.rail_course.specs.Milestones.{ComeInTurn};

use interlocking::{Interlocking, has_node};
use rail_base::list::List;
use rail_base::route::{RouteNo, route_at};
use rail_base::state::{Event, PathNode};
use rail_base::station::NodeNo;
use std::alloc::{AllocError, Global};

/// The nodes of a path.
pub fn path_nodes_of(
    alloc: Global,
    interlocking: &Interlocking,
    path: &[RouteNo],
) -> Result<Vec<PathNode>, AllocError>
    requires named { All (IsRoute interlocking.now.routes) path.now }
    requires below_2_47 { path_length interlocking.now.routes path.now < 2 ^ 47 }
    ensures nodes { IfOk result (λ s. s.items ≡ path_nodes (routes_at interlocking.now.routes path.now)) }
    ensures in_turn { IfOk result (λ s. ComeInTurn (λ n. n.event.place) (λ n. n.event.granted) s.items) }
    ensures on_path { IfOk result (λ s. LieBelow (2 ^ 47) s.items) }
{
    let [first, later @ ..] = path else {
        return Ok(Vec::new(alloc));
    };
    path_nodes_from(alloc, interlocking, *first, later)
}

/// Where the visits of a train are made on its path: the first at the path's start, and each other at the first of
/// its nodes behind the visit before.
pub fn visits_of(
    alloc: Global,
    visits: &[List<NodeNo>],
    path_nodes: &[PathNode],
) -> Result<Vec<Option<PathNode>>, AllocError>
    ensures { IfOk result (λ made. made.items ≡ visits_on visits.now path_nodes.now) }
{
    let mut made = Vec::new(alloc);
    let [_, later @ ..] = visits else {
        return Ok(made);
    };
    made.push(first_of(path_nodes))?;
    let mut left = after_first(path_nodes);
    for nodes in later {
        let here = from_first(left, nodes);
        made.push(first_of(here))?;
        left = after_first(here);
    }
    Ok(made)
}

/// The values behind the first.
fn after_first<T>(values: &[T]) -> &[T]
    ensures { result.now ≡ after_first values.now }
{
    match values {
        [] => values,
        [_, rest @ ..] => rest,
    }
}

/// Adds the nodes of a route that begins at an offset in mm and has that number in the path.
fn push_path_nodes(
    path_nodes: &mut Vec<PathNode>,
    nodes: &[(NodeNo, i64)],
    begin: u64,
    command: usize,
) -> Result<(), AllocError>
    requires { All (λ p. begin + nat_abs p.1 < 2 ^ 48) nodes.now }
    ensures { OnOk result (path_nodes.new.items ≡ path_nodes.old.items ++ map (path_node_at begin command) nodes.now) }
{
    for (node, offset) in nodes {
        let event = Event {
            granted: command,
            place: begin + offset.unsigned_abs(),
        };
        path_nodes.push(PathNode { node: *node, event })?;
    }
    Ok(())
}

/// Adds the nodes at the ends of the edges of the routes behind the first, which begin at an offset in mm.
fn push_path_nodes_after(
    path_nodes: &mut Vec<PathNode>,
    interlocking: &Interlocking,
    path: &[RouteNo],
    begin: u64,
) -> Result<(), AllocError>
    requires named { All (IsRoute interlocking.now.routes) path.now }
    requires below_2_47 { begin + path_length interlocking.now.routes path.now < 2 ^ 47 }
    ensures { OnOk result (AddsNodes path_nodes.old path_nodes.new begin (routes_at interlocking.now.routes path.now)) }
{
    let mut offset = begin;
    let mut command: usize = 2;
    for number in path {
        let route = route_at(&interlocking.routes, *number);
        push_path_nodes(
            path_nodes,
            after_first(route.nodes.as_slice()),
            offset,
            command,
        )?;
        offset += route.length_mm();
        command += 1;
    }
    Ok(())
}

/// The nodes of a path of one route or more: that of its start, and that at the end of each edge.
fn path_nodes_from(
    alloc: Global,
    interlocking: &Interlocking,
    first: RouteNo,
    later: &[RouteNo],
) -> Result<Vec<PathNode>, AllocError>
    requires first { IsRoute interlocking.now.routes first }
    requires later { All (IsRoute interlocking.now.routes) later.now }
    requires below_2_47 { path_length interlocking.now.routes (first ∷ later.now) < 2 ^ 47 }
    ensures nodes { IfOk result (λ s. s.items ≡ path_nodes (routes_at interlocking.now.routes (first ∷ later.now))) }
    ensures in_turn { IfOk result (λ s. ComeInTurn (λ n. n.event.place) (λ n. n.event.granted) s.items) }
    ensures on_path { IfOk result (λ s. LieBelow (2 ^ 47) s.items) }
{
    let mut path_nodes = Vec::new(alloc);
    let route = route_at(&interlocking.routes, first);
    push_path_nodes(&mut path_nodes, route.nodes.as_slice(), 0, 1)?;
    push_path_nodes_after(&mut path_nodes, interlocking, later, route.length_mm())?;
    Ok(path_nodes)
}

/// The path nodes from the first one at one of these nodes.
fn from_first<'a>(path_nodes: &'a [PathNode], nodes: &List<NodeNo>) -> &'a [PathNode]
    ensures { result.now ≡ from_first (λ p. has_node nodes.now p.node) path_nodes.now }
{
    for i in 0..path_nodes.len() {
        if has_node(nodes.as_slice(), path_nodes[i].node) {
            return &path_nodes[i..];
        }
    }
    &path_nodes[path_nodes.len()..]
}

/// The first of some path nodes.
fn first_of(path_nodes: &[PathNode]) -> Option<PathNode>
    ensures { result ≡ first_of_list path_nodes.now }
{
    match path_nodes {
        [] => None,
        [path_node, ..] => Some(*path_node),
    }
}
