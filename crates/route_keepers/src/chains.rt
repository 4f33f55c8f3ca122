//! To which routes chains lead. The routes are nodes of a graph, numbered from 0.

ghost use Rattle.std.specs.Prelude.{◌≡◌, All, IfOk, is_some, map};
ghost use Rattle.std.specs.List.{list_any};
ghost use Rattle.rail_base.specs.Routes.{IsRoute};
ghost use Rattle.rail_spec.specs.Plans.{is_start};
ghost use Rattle.normal_clause_spec.specs.Clauses.{leads_to};
ghost use Rattle.route_keepers.specs.Chains.{all_going_on, chain_row, chain_rows, graph_from, nodes_apart};

use crate::onward::all_going_on;
use graph_steps::least_steps;
use interlocking::Interlocking;
use rail_base::list::List;
use rail_base::route::{RouteNo, Start};
use std::alloc::{AllocError, Global};

/// An interlocking with, for each two of its routes, whether a chain leads from the first to the second.
#[derive(Drop)]
pub(crate) struct Chains<'a> {
    pub(crate) interlocking: &'a Interlocking,
    rows: Vec<List<bool>>,
    pub ghost rows_of_routes: { rows.items ≡ chain_rows interlocking.now.routes },
}

impl<'a> Chains<'a> {
    /// Those of an interlocking.
    pub(crate) fn of(
        alloc: Global,
        interlocking: &'a Interlocking,
    ) -> Result<Chains<'a>, AllocError>
        ensures { IfOk result (λ chains. chains.interlocking.now ≡ interlocking.now) }
    {
        let rows = chain_rows(alloc, interlocking)?;
        Ok(Chains { interlocking, rows })
    }

    /// Whether a chain leads from one route to another.
    fn lead(&self, first: RouteNo, last: RouteNo) -> bool
        requires first { IsRoute self.now.interlocking.now.routes first }
        requires last { IsRoute self.now.interlocking.now.routes last }
        ensures { result ≡ leads_to self.now.interlocking.now.routes first last }
    {
        let row = self.rows[first.0 as usize - 1].as_slice();
        row[last.0 as usize - 1]
    }

    /// Whether a chain leads from one of some routes to another.
    pub(crate) fn lead_from_one(&self, firsts: &[RouteNo], last: RouteNo) -> bool
        requires firsts { All (IsRoute self.now.interlocking.now.routes) firsts.now }
        requires last { IsRoute self.now.interlocking.now.routes last }
        ensures { result ≡ list_any (λ first. leads_to self.now.interlocking.now.routes first last) firsts.now }
    {
        for first in firsts {
            if self.lead(*first, last) {
                return true;
            }
        }
        false
    }
}

/// For each route its row: of each route whether a chain leads to it from that one.
fn chain_rows(alloc: Global, interlocking: &Interlocking) -> Result<Vec<List<bool>>, AllocError>
    ensures { IfOk result (λ rows. rows.items ≡ chain_rows interlocking.now.routes) }
{
    let onward = all_going_on(alloc, interlocking)?;
    let mut rows = Vec::new(alloc);
    for number in 1..interlocking.routes.len() as u32 + 1 {
        rows.push(chain_row(alloc, interlocking, &onward, RouteNo(number))?)?;
    }
    Ok(rows)
}

/// Of each route whether a chain leads to it from the first.
fn chain_row(
    alloc: Global,
    interlocking: &Interlocking,
    onward: &[List<RouteNo>],
    first: RouteNo,
) -> Result<List<bool>, AllocError>
    requires onward { onward.now ≡ all_going_on interlocking.now.routes }
    requires first { IsRoute interlocking.now.routes first }
    ensures { IfOk result (λ row. row ≡ chain_row interlocking.now.routes first) }
{
    let graph = graph_from(alloc, interlocking, onward, first)?;
    let found = least_steps(alloc, &graph, &[first.0 as usize - 1])?;
    are_found(alloc, &found)
}

/// The graph of the steps that come to no route with the start of the first.
fn graph_from(
    alloc: Global,
    interlocking: &Interlocking,
    onward: &[List<RouteNo>],
    first: RouteNo,
) -> Result<Vec<List<usize>>, AllocError>
    requires onward { onward.now ≡ all_going_on interlocking.now.routes }
    requires first { IsRoute interlocking.now.routes first }
    ensures { IfOk result (λ graph. graph.items ≡ graph_from interlocking.now.routes first) }
{
    let mut graph = Vec::new(alloc);
    for routes in onward {
        graph.push(nodes_apart(alloc, interlocking, first, routes.as_slice())?)?;
    }
    Ok(graph)
}

/// The nodes of those of some routes that do not start where the first does.
fn nodes_apart(
    alloc: Global,
    interlocking: &Interlocking,
    first: RouteNo,
    routes: &[RouteNo],
) -> Result<List<usize>, AllocError>
    requires first { IsRoute interlocking.now.routes first }
    requires routes { All (IsRoute interlocking.now.routes) routes.now }
    ensures { IfOk result (λ nodes. nodes ≡ nodes_apart interlocking.now.routes first routes.now) }
{
    let start = interlocking.route(first).start;
    let mut nodes = List::new(alloc);
    for route in routes {
        if !is_start(start, interlocking.route(*route).start) {
            nodes.push(route.0 as usize - 1)?;
        }
    }
    Ok(nodes)
}

/// Whether both are one place.
fn is_start(one: Start, other: Start) -> bool
    ensures { result ≡ is_start one other }
{
    one == other
}

/// Of each node whether some number of steps leads to it.
fn are_found(alloc: Global, found: &[Option<usize>]) -> Result<List<bool>, AllocError>
    ensures { IfOk result (λ row. row ≡ map is_some found.now) }
{
    let mut row = List::new(alloc);
    for steps in found {
        row.push(steps.is_some())?;
    }
    Ok(row)
}
