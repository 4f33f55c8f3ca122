//! Visits that a train has to make.

ghost use Rattle.std.specs.Prelude.{◌≡◌, ◌≤◌, ℕ, IfOk};
ghost use Rattle.std.specs.List.{list_any};
ghost use Rattle.number_sets.specs.Sets.{contains};
ghost use Rattle.rail_base.specs.Numbering.{after_first};
ghost use Rattle.rail_base.specs.Stations.{train_of};
ghost use Rattle.rail_spec.specs.Plans.{starts_in};
ghost use Rattle.rail_spec.specs.Places.{leads_to, may_visit};
ghost use Rattle.bound_spec.specs.Certificates.{first_in, nodes_of_visit};
ghost use Rattle.bound_design.specs.Covering.{IsNodeSet};

use number_sets::NumberSet;
use rail_base::list::List;
use rail_base::route::{Route, Start};
use rail_base::station::{NodeNo, Station, TrainNo};
use std::alloc::{AllocError, Global};

/// A visit by its place among the visits of a train, counted from 1, and its nodes as a list and as a set.
#[derive(Drop)]
pub struct Visit<'a> {
    pub number: usize,
    pub list: &'a [NodeNo],
    pub set: NumberSet,
    pub ghost same: { IsNodeSet set list.now },
}

/// A visit of a train, counted from 1. It has no nodes where the train is not of the station or has not so many visits.
/// `Err` where memory ran out.
pub fn visit_of(
    alloc: Global,
    station: &Station,
    train: TrainNo,
    number: usize,
) -> Result<Visit, AllocError>
    ensures number { IfOk result (λ v. v.number ≡ number) }
    ensures list { IfOk result (λ v. v.list.now ≡ nodes_of_visit station.now train number) }
{
    let list = nodes_of_visit(station, train, number);
    Ok(Visit {
        number,
        list,
        set: node_set(alloc, list)?,
    })
}

impl Visit<'_> {
    /// Whether the visit may be made on a route: the first at its start, a later one at the end of one of its edges.
    pub fn may_visit(&self, route: &Route) -> bool
        ensures { result ≡ may_visit self.now.number self.now.list.now route.now }
    {
        match self.number {
            0 => false,
            1 => self.has_start(route.start),
            _ => self.has_end(route),
        }
    }

    /// Whether a train that starts here makes the visit.
    fn has_start(&self, start: Start) -> bool
        ensures { result ≡ starts_in self.now.list.now start }
    {
        match start {
            Start::Boundary(node) => self.set.contains(node.0),
            Start::Signal(_) => false,
        }
    }

    /// Whether a node of the set is at the end of an edge of a route.
    fn has_later_node(&self, route: &Route) -> bool
        ensures { result ≡ list_any (λ p. contains self.now.set p.0.0) (after_first route.now.nodes) }
    {
        match route.nodes.as_slice().split_first() {
            Some((_, later)) => later.iter().any(|place| self.set.contains(place.0.0)),
            None => false,
        }
    }

    /// Whether a node of the visit is at the end of an edge of a route.
    fn has_end(&self, route: &Route) -> bool
        ensures { result ≡ leads_to self.now.list.now route.now }
    {
        self.has_later_node(route)
    }
}

/// The nodes of each visit of a train.
pub(crate) fn visits_of(station: &Station, train: TrainNo) -> &[List<NodeNo>]
    ensures { result.now ≡ (train_of station.now train).visits }
{
    if train.0 == 0 || station.trains.len() < train.0 as usize {
        return &[];
    }
    station.trains.as_slice()[train.0 as usize - 1]
        .visits
        .as_slice()
}

/// The nodes of a visit.
fn nodes_of_visit(station: &Station, train: TrainNo, number: usize) -> &[NodeNo]
    ensures { result.now ≡ nodes_of_visit station.now train number }
{
    let visits = visits_of(station, train);
    if number == 0 || visits.len() < number {
        return &[];
    }
    visits[number - 1].as_slice()
}

/// The set of nodes.
fn node_set(alloc: Global, nodes: &[NodeNo]) -> Result<NumberSet, AllocError>
    ensures { IfOk result (λ set. IsNodeSet set nodes.now) }
{
    let mut set = NumberSet::new(alloc);
    for node in nodes {
        set.add(node.0)?;
    }
    Ok(set)
}
