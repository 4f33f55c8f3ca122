//! What stands at each end of a station: the edges there, and the signals for trains that leave by it.

ghost use Rattle.std.specs.Prelude.{◌≡◌, IfOk};
ghost use Rattle.rail_base.specs.Stations.{far_end, is_end, is_side, leave, node_of, opposite, edge_of, signal_of};
ghost use Rattle.rail_base.specs.Stations.{through, IsEdge, IsNode, IsSignal};
ghost use Rattle.rail_spec.specs.Track.{signals_at};
ghost use Rattle.rail_base.specs.declared.station.Side.TheVariants.{A, B};
ghost use Rattle.rail_routes.specs.Ends.{edges_at_end, at_side, leave_by, meets};

use rail_base::design::Design;
use rail_base::list::List;
use rail_base::station::{Edge, EdgeNo, End, NodeNo, Side, SignalNo};
use std::alloc::{AllocError, Global};

/// What stands at one end.
#[derive(Drop)]
pub(crate) struct AtEnd {
    /// The edges there, in file order.
    pub(crate) edges: List<EdgeNo>,
    /// The signals for trains that leave by it, in file order.
    pub(crate) signals: List<SignalNo>,
}

/// What stands at each end of a design's station, by node.
#[derive(Drop)]
pub(crate) struct Track<'a> {
    pub(crate) design: &'a Design,
    pub(crate) side_a: List<AtEnd>,
    pub(crate) side_b: List<AtEnd>,
    ghost on_a: { side_a ≡ at_side design.now.station A },
    ghost on_b: { side_b ≡ at_side design.now.station B },
}

/// The end by which one leaves a node that was entered by this end.
pub(crate) fn through(end: End) -> End
    ensures { result ≡ through end }
{
    let side = match end.side {
        Side::A => Side::B,
        Side::B => Side::A,
    };
    End {
        node: end.node,
        side,
    }
}

/// Where an edge leads from an end of it.
pub(crate) fn far_end(edge: &Edge, end: End) -> End
    ensures { result ≡ far_end edge.now end }
{
    if is_end(edge.from, end) {
        edge.to
    } else {
        edge.from
    }
}

/// The end by which the trains leave for whom a signal stands.
pub(crate) fn signal_end(design: &Design, signal: SignalNo) -> End
    requires { IsSignal design.now.station signal }
    ensures { result ≡ leave_by design.now.station signal }
{
    let signal = &design.station.signals.as_slice()[signal.0 as usize - 1];
    End {
        node: signal.node,
        side: signal.toward,
    }
}

/// Whether a node is a boundary.
pub(crate) fn is_boundary(design: &Design, node: NodeNo) -> bool
    requires { IsNode design.now.station node }
    ensures { result ≡ (node_of design.now.station node).boundary }
{
    design.station.nodes.as_slice()[node.0 as usize - 1].boundary
}

impl<'a> Track<'a> {
    /// What stands at each end of a design's station.
    pub(crate) fn new(alloc: Global, design: &'a Design) -> Result<Track<'a>, AllocError>
        ensures { IfOk result (λ track. track.design.now ≡ design.now) }
    {
        Ok(Track {
            design,
            side_a: at_side(alloc, design, Side::A)?,
            side_b: at_side(alloc, design, Side::B)?,
        })
    }
}

impl Track<'_> {
    ghost use Rattle.std.specs.Prelude.{ℕ};

    /// What stands at an end.
    pub(crate) fn at(&self, end: End) -> &AtEnd
        requires { IsNode self.now.design.now.station end.node }
        ensures { result.now ≡ edges_at_end self.now.design.now.station end }
    {
        let index = end.node.0 as usize - 1;
        match end.side {
            Side::A => &self.side_a.as_slice()[index],
            Side::B => &self.side_b.as_slice()[index],
        }
    }
}

fn is_side(one: Side, other: Side) -> bool
    ensures { result ≡ is_side one other }
{
    match (one, other) {
        (Side::A, Side::A) | (Side::B, Side::B) => true,
        (Side::A, Side::B) | (Side::B, Side::A) => false,
    }
}

fn is_end(one: End, other: End) -> bool
    ensures { result ≡ is_end one other }
{
    one.node.0 == other.node.0 && is_side(one.side, other.side)
}

/// Whether an edge has one of its ends there.
fn ends_at(design: &Design, edge: EdgeNo, end: End) -> bool
    requires { IsEdge design.now.station edge }
    ensures { result ≡ meets design.now.station edge end }
{
    let edge = design.edge(edge);
    is_end(edge.from, end) || is_end(edge.to, end)
}

/// Whether a signal is for trains that leave by the end.
fn stands_at(design: &Design, signal: SignalNo, end: End) -> bool
    requires { IsSignal design.now.station signal }
    ensures { result ≡ is_end (leave_by design.now.station signal) end }
{
    is_end(signal_end(design, signal), end)
}

/// The edges at an end, in file order.
fn leave(alloc: Global, design: &Design, end: End) -> Result<List<EdgeNo>, AllocError>
    ensures { IfOk result (λ edges. edges ≡ leave design.now.station end) }
{
    let mut edges = List::new(alloc);
    for index in 0..design.station.edges.len() {
        let edge = EdgeNo(index as u32 + 1);
        if ends_at(design, edge, end) {
            edges.push(edge)?;
        }
    }
    Ok(edges)
}

/// The signals for trains that leave by an end, in file order.
fn signals_at(alloc: Global, design: &Design, end: End) -> Result<List<SignalNo>, AllocError>
    ensures { IfOk result (λ signals. signals ≡ signals_at design.now.station end) }
{
    let mut signals = List::new(alloc);
    for index in 0..design.station.signals.len() {
        let signal = SignalNo(index as u32 + 1);
        if stands_at(design, signal, end) {
            signals.push(signal)?;
        }
    }
    Ok(signals)
}

/// What stands at an end.
fn edges_at_end(alloc: Global, design: &Design, end: End) -> Result<AtEnd, AllocError>
    ensures { IfOk result (λ at. at ≡ edges_at_end design.now.station end) }
{
    Ok(AtEnd {
        edges: leave(alloc, design, end)?,
        signals: signals_at(alloc, design, end)?,
    })
}

/// What stands at one side of each node.
fn at_side(alloc: Global, design: &Design, side: Side) -> Result<List<AtEnd>, AllocError>
    ensures { IfOk result (λ all. all ≡ at_side design.now.station side) }
{
    let mut all = List::new(alloc);
    for index in 0..design.station.nodes.len() {
        let end = End {
            node: NodeNo(index as u32 + 1),
            side,
        };
        all.push(edges_at_end(alloc, design, end)?)?;
    }
    Ok(all)
}
