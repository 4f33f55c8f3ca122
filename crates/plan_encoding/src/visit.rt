//! Visits that a train has to make.

ghost use Rattle.std.specs.Prelude.{◌≤◌, IfOk};
ghost use Rattle.plan_encoding.specs.Nodes.{IsNodeSet};

use number_sets::NumberSet;
use rail_base::list::List;
use rail_base::station::NodeNo;
use std::alloc::{AllocError, Global};

/// A visit by its number, counted from 1, and its nodes as a list and as a set.
#[derive(Drop)]
pub struct Visit<'a> {
    pub number: u32,
    pub list: &'a List<NodeNo>,
    pub set: NumberSet,
    pub ghost counted: { 1 ≤ number },
    pub ghost same: { IsNodeSet set list.now },
}

/// The set of nodes.
pub fn nodes_of(alloc: Global, nodes: &List<NodeNo>) -> Result<NumberSet, AllocError>
    ensures { IfOk result (λ set. IsNodeSet set nodes.now) }
{
    let mut set = NumberSet::new(alloc);
    for node in nodes.as_slice() {
        set.add(node.0)?;
    }
    Ok(set)
}
