//! The names by which routes are shown.

ghost use Rattle.std.specs.Prelude.{◌≡◌, ◌≤◌, ◌++◌, IfOk, bytes_eq, length, map};
ghost use Rattle.rail_base.specs.Stations.{IsEdge};
ghost use Rattle.plan_names.specs.Edges.{AreEdges};
ghost use Rattle.plan_names.specs.Shown.{directed, direction, directed_names, edge_name, edge_names};
ghost use Rattle.plan_names.specs.Shown.{is_shared, same_names, shown};

use interlocking::Interlocking;
use rail_base::design::Design;
use rail_base::list::{List, Name};
use rail_base::route::Route;
use rail_base::station::{EdgeNo, NodeNo};
use std::alloc::{AllocError, Global};

/// The names by which the routes of a design are shown, by the numbers of the routes: those of the edges of a route in
/// order, each with `>` or `<` after it where several routes run over these edges in this order: `>` where the edge is
/// run from its `from` to its `to`, and `<` where it is run back. `Err` is want of memory.
pub fn shown_routes(
    alloc: Global,
    interlocking: &Interlocking,
) -> Result<List<List<Name>>, AllocError>
    ensures { IfOk result (λ all. all
        ≡ map (shown interlocking.now.design.station interlocking.now.routes) interlocking.now.routes) }
{
    let mut all = List::new(alloc);
    for route in interlocking.routes.as_slice() {
        let names = shown_names(alloc, interlocking, route)?;
        all.push(names)?;
    }
    Ok(all)
}

/// The names by which a route is shown.
fn shown_names(
    alloc: Global,
    interlocking: &Interlocking,
    route: &Route,
) -> Result<List<Name>, AllocError>
    requires edges { AreEdges interlocking.now.design.station route.now.edges }
    requires nodes { length route.now.edges ≤ length route.now.nodes }
    ensures { IfOk result (λ names. names
        ≡ shown interlocking.now.design.station interlocking.now.routes route.now) }
{
    if is_shared(interlocking, route) {
        directed_names(alloc, &interlocking.design, route)
    } else {
        edge_names(alloc, &interlocking.design, route)
    }
}

/// Whether several routes run over the edges of a route in their order.
fn is_shared(interlocking: &Interlocking, route: &Route) -> bool
    requires { AreEdges interlocking.now.design.station route.now.edges }
    ensures { result ≡ is_shared interlocking.now.design.station interlocking.now.routes
        (edge_names interlocking.now.design.station route.now) }
{
    let mut many = 0usize;
    for other in interlocking.routes.as_slice() {
        if same_names(&interlocking.design, other, route) {
            many += 1;
        }
    }
    many >= 2
}

/// Whether the edges of two routes have the same names in the same order.
fn same_names(design: &Design, one: &Route, other: &Route) -> bool
    requires one { AreEdges design.now.station one.now.edges }
    requires other { AreEdges design.now.station other.now.edges }
    ensures { result ≡ same_names (edge_names design.now.station one.now) (edge_names design.now.station other.now) }
{
    let (edges, others) = (one.edges.as_slice(), other.edges.as_slice());
    if edges.len() != others.len() {
        return false;
    }
    for index in 0..edges.len() {
        if !have_one_name(design, edges[index], others[index]) {
            return false;
        }
    }
    true
}

/// Whether two edges have one name.
fn have_one_name(design: &Design, one: EdgeNo, other: EdgeNo) -> bool
    requires one { IsEdge design.now.station one }
    requires other { IsEdge design.now.station other }
    ensures { result ≡ bytes_eq (edge_name design.now.station one) (edge_name design.now.station other) }
{
    name_of(design, one) == name_of(design, other)
}

/// The name of an edge.
fn name_of(design: &Design, edge: EdgeNo) -> &[u8]
    requires { IsEdge design.now.station edge }
    ensures { result.now ≡ edge_name design.now.station edge }
{
    design.edge(edge).name.as_bytes()
}

/// The names of the edges of a route.
fn edge_names(alloc: Global, design: &Design, route: &Route) -> Result<List<Name>, AllocError>
    requires { AreEdges design.now.station route.now.edges }
    ensures { IfOk result (λ names. names ≡ edge_names design.now.station route.now) }
{
    let mut names = List::new(alloc);
    for edge in route.edges.as_slice() {
        let name = name_of(design, *edge).to_vec(alloc)?;
        names.push(Name::from_vec(name))?;
    }
    Ok(names)
}

/// The name of an edge with its direction from a node.
fn directed_name(
    alloc: Global,
    design: &Design,
    edge: EdgeNo,
    node: NodeNo,
) -> Result<Name, AllocError>
    requires { IsEdge design.now.station edge }
    ensures { IfOk result (λ name. name
        ≡ edge_name design.now.station edge ++ direction design.now.station edge node) }
{
    let mut name = name_of(design, edge).to_vec(alloc)?;
    let runs_to = design.edge(edge).from.node == node;
    name.push(if runs_to { b'>' } else { b'<' })?;
    Ok(Name::from_vec(name))
}

/// The names of the edges of a route, each with its direction.
fn directed_names(alloc: Global, design: &Design, route: &Route) -> Result<List<Name>, AllocError>
    requires edges { AreEdges design.now.station route.now.edges }
    requires nodes { length route.now.edges ≤ length route.now.nodes }
    ensures { IfOk result (λ names. names ≡ directed_names design.now.station route.now) }
{
    let mut names = List::new(alloc);
    let nodes = route.nodes.as_slice();
    for (index, edge) in route.edges.as_slice().iter().enumerate() {
        let name = directed_name(alloc, design, *edge, nodes[index].0)?;
        names.push(name)?;
    }
    Ok(names)
}
