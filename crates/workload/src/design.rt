//! Stations from numbers.

ghost use Rattle.std.specs.Prelude.{◌≡◌, ◌≤◌, IfOk, OnOk};
ghost use Rattle.workload.specs.Draws.{drawn, track_length};
ghost use Rattle.workload.specs.Made.{made};
ghost use Rattle.workload.specs.Track.{nodes, edges, sections, signals};

use crate::draws::Draws;
use crate::edges::edges;
use crate::names::sections;
use crate::nodes::{nodes, signals};
use crate::traffic::{make_traffic, vehicles};
use rail_base::design::Design;
use rail_base::list::{List, Name};
use rail_base::station::{Edge, Node, Signal, Station};
use std::alloc::{AllocError, Global};

/// The track of a station.
#[derive(Drop)]
struct Track {
    nodes: List<Node>,
    edges: List<Edge>,
    sections: List<Name>,
    signals: List<Signal>,
}

/// The station of so many tracks and trains that is made from a seed: tracks side by side between two boundaries, and
/// a train for each track. What is drawn from the seed are the lengths of the tracks, then the way of each train and
/// the time that it has.
///
/// # Errors
///
/// Want of memory.
pub fn make(alloc: Global, seed: u64, size: u32) -> Result<Design, AllocError>
    requires at_least_one { 1 ≤ size }
    requires at_most_six { size ≤ 6 }
    ensures { IfOk result (λ design. design.station ≡ made seed size) }
{
    let mut draws = Draws { state: seed };
    let track = make_track(alloc, size, &mut draws)?;
    let traffic = make_traffic(alloc, size, &mut draws)?;
    let vehicles = vehicles(alloc)?;
    let station = Station {
        version: 1,
        tick_ms: 1000,
        horizon_ms: 3_600_000,
        nodes: track.nodes,
        edges: track.edges,
        sections: track.sections,
        signals: track.signals,
        vehicles,
        trains: List::from_vec(traffic.trains),
        orders: List::new(alloc),
        withins: List::from_vec(traffic.withins),
        overlaps: List::new(alloc),
    };
    Ok(Design { station })
}

/// The track. The lengths of its tracks are drawn.
fn make_track(alloc: Global, size: u32, draws: &mut Draws) -> Result<Track, AllocError>
    requires at_least_one { 1 ≤ size }
    requires at_most_six { size ≤ 6 }
    ensures nodes { IfOk result (λ track. track.nodes ≡ nodes size) }
    ensures edges { IfOk result (λ track. track.edges ≡ edges size (track_length draws.old.state)) }
    ensures sections { IfOk result (λ track. track.sections ≡ sections size) }
    ensures signals { IfOk result (λ track. track.signals ≡ signals size) }
    ensures draws { OnOk result (draws.new.state ≡ drawn draws.old.state size) }
{
    let edges = edges(alloc, size, draws)?;
    let nodes = nodes(alloc, size)?;
    let sections = sections(alloc, size)?;
    let signals = signals(alloc, size)?;
    Ok(Track {
        nodes,
        edges,
        sections,
        signals,
    })
}
