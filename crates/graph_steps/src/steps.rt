//! The least number of steps to each node.

ghost use Rattle.std.specs.Prelude.{◌≡◌, ◌<◌, All, IfOk, OnOk, None, [], length, replicate};
ghost use Rattle.graph_steps.specs.Graphs.{AreLeast, AreWithin, IsGraph};
ghost use Rattle.graph_steps.specs.Marks.{mark, mark_all, mark_next};

use rail_base::list::List;
use std::alloc::{AllocError, Global};

/// In how many steps at the least one comes from one of the starts to each node, if at all.
pub fn least_steps(
    alloc: Global,
    graph: &[List<usize>],
    starts: &[usize],
) -> Result<Vec<Option<usize>>, AllocError>
    requires graph { IsGraph graph.now }
    requires starts { All (λ p. p < length graph.now) starts.now }
    ensures least { IfOk result (λ found. AreLeast graph.now starts.now found.items) }
    ensures few { IfOk result (λ found. AreWithin (length graph.now) found.items) }
{
    let mut found = none_found(alloc, graph.len())?;
    let mut front = Vec::new(alloc);
    mark_all(&mut found, &mut front, starts, 0)?;
    let mut steps = 0;
    while !front.as_slice().is_empty() {
        steps += 1;
        front = further(alloc, graph, &mut found, &front, steps)?;
    }
    Ok(found)
}

/// No steps to so many nodes.
fn none_found(alloc: Global, count: usize) -> Result<Vec<Option<usize>>, AllocError>
    ensures { IfOk result (λ found. found.items ≡ replicate count None) }
{
    let mut found = Vec::new(alloc);
    for _node in 0..count {
        found.push(None)?;
    }
    Ok(found)
}

/// Comes to the nodes that are next after some, and gives those to which it had not come before.
fn further(
    alloc: Global,
    graph: &[List<usize>],
    found: &mut Vec<Option<usize>>,
    front: &[usize],
    steps: usize,
) -> Result<Vec<usize>, AllocError>
    requires graph { IsGraph graph.now }
    requires front { All (λ p. p < length graph.now) front.now }
    requires one_a_node { length found.old.items ≡ length graph.now }
    ensures { IfOk result (λ further. record { found = found.new.items; front = further.items }
        ≡ mark_next graph.now steps (record { found = found.old.items; front = [] }) front.now) }
{
    let mut further = Vec::new(alloc);
    for node in front {
        mark_all(found, &mut further, graph[*node].as_slice(), steps)?;
    }
    Ok(further)
}

/// Comes to nodes.
fn mark_all(
    found: &mut Vec<Option<usize>>,
    front: &mut Vec<usize>,
    nodes: &[usize],
    steps: usize,
) -> Result<(), AllocError>
    requires { All (λ q. q < length found.old.items) nodes.now }
    ensures { OnOk result (record { found = found.new.items; front = front.new.items }
        ≡ mark_all steps (record { found = found.old.items; front = front.old.items }) nodes.now) }
{
    for node in nodes {
        mark(found, front, *node, steps)?;
    }
    Ok(())
}

/// Comes to a node, unless it came there before.
fn mark(
    found: &mut Vec<Option<usize>>,
    front: &mut Vec<usize>,
    node: usize,
    steps: usize,
) -> Result<(), AllocError>
    requires { node < length found.old.items }
    ensures { OnOk result (record { found = found.new.items; front = front.new.items }
        ≡ mark steps (record { found = found.old.items; front = front.old.items }) node) }
{
    if found[node].is_none() {
        found[node] = Some(steps);
        front.push(node)?;
    }
    Ok(())
}
