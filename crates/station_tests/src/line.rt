//! A station of two sections in a row between boundaries, with a signal between them, and one train.

ghost use Rattle.std.specs.Prelude.{◌≡◌, [], ◌∷◌, false, true, IfOk, length};
ghost use Rattle.station_tests.specs.Line.{line_station, line_routes};

use crate::stations::{edge, name, node, one, train, two, vehicle};
use interlocking::Interlocking;
use rail_base::design::Design;
use rail_base::list::List;
use rail_base::route::{Finish, Route, RouteTable, Start};
use rail_base::station::{EdgeNo, Node, NodeNo, SectionNo, Side, Signal, SignalNo, Station};
use std::alloc::{AllocError, Global};

/// Its interlocking.
#[tactic(auto, using(crate::proofs::Lined::line_admitted, crate::proofs::Lined::routes_of_line, crate::proofs::Lined::one_train, crate::proofs::Lined::three_routes))]
pub(crate) fn line(alloc: Global) -> Result<Interlocking, AllocError>
    ensures trains { IfOk result (λ i. length i.design.station.trains ≡ 1) }
    ensures routes { IfOk result (λ i. length i.routes ≡ 3) }
{
    let station = station(alloc)?;
    let routes = table(alloc)?;
    Interlocking::new(alloc, Design { station }, routes)
}

/// The nodes: a boundary, the signal's node, and a boundary.
fn nodes(alloc: Global) -> Result<List<Node>, AllocError>
    ensures { IfOk result (λ ns. ns ≡ record { name = 119 ∷ []; boundary = true }
        ∷ record { name = 109 ∷ []; boundary = false } ∷ record { name = 101 ∷ []; boundary = true } ∷ []) }
{
    let west = node(alloc, b'w', true)?;
    let middle = node(alloc, b'm', false)?;
    let mut nodes = two(alloc, west, middle)?;
    let east = node(alloc, b'e', true)?;
    nodes.push(east)?;
    Ok(nodes)
}

fn signal(alloc: Global) -> Result<Signal, AllocError>
    ensures { IfOk result (λ s. s ≡ record { name = 115 ∷ []; node = record { 0 = 2 }; toward = Side.B }) }
{
    Ok(Signal {
        name: name(alloc, b's')?,
        node: NodeNo(2),
        toward: Side::B,
    })
}

/// Sections of 10 m and 6 m.
#[tactic(auto, unfolding(crate::specs::Line::line_station))]
fn station(alloc: Global) -> Result<Station, AllocError>
    ensures { IfOk result (λ d. d ≡ line_station) }
{
    let nodes = nodes(alloc)?;
    let first_edge = edge(alloc, b'f', 1, 2, 10_000)?;
    let second_edge = edge(alloc, b'g', 2, 3, 6000)?;
    let edges = two(alloc, first_edge, second_edge)?;
    let first_section = name(alloc, b'y')?;
    let second_section = name(alloc, b'z')?;
    let sections = two(alloc, first_section, second_section)?;
    let signal = signal(alloc)?;
    let signals = one(alloc, signal)?;
    let vehicle = vehicle(alloc, b'v')?;
    let vehicles = one(alloc, vehicle)?;
    let train = train(alloc, b'A', 1, 3, 0)?;
    let trains = one(alloc, train)?;
    Ok(Station {
        version: 1,
        tick_ms: 1000,
        horizon_ms: 12_000,
        nodes,
        edges,
        sections,
        signals,
        vehicles,
        trains,
        orders: List::new(alloc),
        withins: List::new(alloc),
        overlaps: List::new(alloc),
    })
}

/// Its routes: to the signal, from there to the exit, and back.
#[tactic(auto, unfolding(crate::specs::Line::line_routes))]
fn table(alloc: Global) -> Result<RouteTable, AllocError>
    ensures { IfOk result (λ rs. rs ≡ line_routes) }
{
    let to_signal = Route {
        start: Start::Boundary(NodeNo(1)),
        finish: Finish::Signal(SignalNo(1)),
        length: 10_000,
        edges: one(alloc, EdgeNo(1))?,
        nodes: two(alloc, (NodeNo(1), 0), (NodeNo(2), 10_000))?,
        sections: one(alloc, (SectionNo(1), 10_000))?,
        overlaps: List::new(alloc),
    };
    let to_exit = Route {
        start: Start::Signal(SignalNo(1)),
        finish: Finish::Exit(NodeNo(3)),
        length: 6000,
        edges: one(alloc, EdgeNo(2))?,
        nodes: two(alloc, (NodeNo(2), 0), (NodeNo(3), 6000))?,
        sections: one(alloc, (SectionNo(2), 6000))?,
        overlaps: List::new(alloc),
    };
    let mut routes = two(alloc, to_signal, to_exit)?;
    let mut nodes = two(alloc, (NodeNo(3), 0), (NodeNo(2), 6000))?;
    nodes.push((NodeNo(1), 16_000))?;
    routes.push(Route {
        start: Start::Boundary(NodeNo(3)),
        finish: Finish::Exit(NodeNo(1)),
        length: 16_000,
        edges: two(alloc, EdgeNo(2), EdgeNo(1))?,
        nodes,
        sections: two(alloc, (SectionNo(2), 6000), (SectionNo(1), 16_000))?,
        overlaps: List::new(alloc),
    })?;
    Ok(routes)
}
