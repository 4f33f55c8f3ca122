//! A graph, turned back.

ghost use Rattle.std.specs.Prelude.{◌≡◌, ◌<◌, All, IfOk, OnOk, [], length, replicate};
ghost use Rattle.graph_steps.specs.Graphs.{IsGraph, IsTurned};
ghost use Rattle.graph_steps.specs.Marks.{with_items};

use rail_base::list::List;
use std::alloc::{AllocError, Global};

/// The graph with the same nodes in which each step leads the other way.
pub fn turned_back(alloc: Global, graph: &[List<usize>]) -> Result<Vec<List<usize>>, AllocError>
    requires { IsGraph graph.now }
    ensures { IfOk result (λ back. IsTurned graph.now back.items) }
{
    let mut back = empty_lists(alloc, graph.len())?;
    for (node, nodes) in graph.iter().enumerate() {
        put_all(&mut back, nodes.as_slice(), node)?;
    }
    Ok(back)
}

/// So many empty lists.
fn empty_lists(alloc: Global, count: usize) -> Result<Vec<List<usize>>, AllocError>
    ensures { IfOk result (λ lists. lists.items ≡ replicate count []) }
{
    let mut lists = Vec::new(alloc);
    for _node in 0..count {
        lists.push(List::new(alloc))?;
    }
    Ok(lists)
}

/// Puts a node at the end of the lists of others.
fn put_all(lists: &mut Vec<List<usize>>, nodes: &[usize], node: usize) -> Result<(), AllocError>
    requires { All (λ q. q < length lists.old.items) nodes.now }
    ensures { OnOk result (lists.new.items ≡ with_items node lists.old.items nodes.now) }
{
    for other in nodes {
        lists[*other].push(node)?;
    }
    Ok(())
}
