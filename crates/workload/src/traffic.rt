//! The traffic of the station.

ghost use Rattle.std.specs.Prelude.{◌≡◌, ◌≤◌, ◌+◌, ◌*◌, ◌==◌, ◌∷◌, [], ◌++◌, IfOk, OnOk};
ghost use Rattle.workload.specs.Draws.{next, below, runs_east, time_of};
ghost use Rattle.workload.specs.Traffic.{vehicle, entrance, exit_node, train, within, trains, withins};

use crate::draws::Draws;
use crate::names::{numbered_name, plain};
use crate::nodes::{EAST, WEST};
use rail_base::list::List;
use rail_base::station::{NodeNo, Train, TrainNo, Vehicle, VehicleNo, Within};
use std::alloc::{AllocError, Global};

/// The trains, and the times that they have.
#[derive(Drop)]
pub struct Traffic {
    pub trains: Vec<Train>,
    pub withins: Vec<Within>,
}

/// The one vehicle.
pub fn vehicles(alloc: Global) -> Result<List<Vehicle>, AllocError>
    ensures { IfOk result (λ vehicles. vehicles ≡ vehicle ∷ []) }
{
    let vehicle = Vehicle {
        name: plain(alloc, b"v")?,
        length_mm: 100_000,
        accel_mm_s2: 500,
        brake_mm_s2: 700,
        speed_mm_s: 20_000,
    };
    Ok(List::from_vec(vec![in alloc; vehicle]?))
}

/// A train for each track. Their ways and times are drawn.
pub fn make_traffic(alloc: Global, size: u32, draws: &mut Draws) -> Result<Traffic, AllocError>
    requires { size ≤ 6 }
    ensures trains { IfOk result (λ traffic. traffic.trains.items ≡ trains size (runs_east draws.old.state 0)) }
    ensures withins { IfOk result (λ traffic. traffic.withins.items ≡ withins size (time_of draws.old.state 0)) }
{
    let mut traffic = Traffic {
        trains: Vec::new(alloc),
        withins: Vec::new(alloc),
    };
    for number in 1..size + 1 {
        traffic.add(alloc, number, draws)?;
    }
    Ok(traffic)
}

/// A visit of one node.
fn visit(alloc: Global, node: NodeNo) -> Result<List<NodeNo>, AllocError>
    ensures { IfOk result (λ nodes. nodes ≡ node ∷ []) }
{
    Ok(List::from_vec(vec![in alloc; node]?))
}

/// The visits of a train: where it enters, and where it exits.
fn visits(alloc: Global, runs_east: bool) -> Result<List<List<NodeNo>>, AllocError>
    ensures { IfOk result (λ visits. visits ≡ (entrance runs_east ∷ []) ∷ (exit_node runs_east ∷ []) ∷ []) }
{
    let (first, last) = if runs_east {
        (WEST, EAST)
    } else {
        (EAST, WEST)
    };
    let first = visit(alloc, first)?;
    let last = visit(alloc, last)?;
    Ok(List::from_vec(vec![in alloc; first, last]?))
}

/// A train from the one boundary to the other, which stands nowhere.
fn train(alloc: Global, number: u32, runs_east: bool) -> Result<Train, AllocError>
    ensures { IfOk result (λ t. t ≡ train number runs_east) }
{
    let name = numbered_name(alloc, b"t", number)?;
    let visits = visits(alloc, runs_east)?;
    Ok(Train {
        name,
        vehicle: VehicleNo(1),
        visits,
        dwell_ms: List::from_vec(vec![in alloc; 0, 0]?),
    })
}

/// The time that a train has, in ms, from its first visit to its second.
fn within(number: u32, max_ms: u32) -> Within
    ensures { result ≡ within number max_ms }
{
    Within {
        from_train: TrainNo(number),
        from_visit: 1,
        to_train: TrainNo(number),
        to_visit: 2,
        max_ms,
    }
}

impl Traffic {
    /// Adds a train. Its way and then its time are drawn.
    fn add(&mut self, alloc: Global, number: u32, draws: &mut Draws) -> Result<(), AllocError>
        ensures trains { OnOk result (self.new.trains.items
            ≡ self.old.trains.items ++ train number (below 2 (next draws.old.state) == 0) ∷ []) }
        ensures withins { OnOk result (self.new.withins.items
            ≡ self.old.withins.items
            ++ within number (120000 + 1000 * below 240 (next (next draws.old.state))) ∷ []) }
        ensures draws { draws.new.state ≡ next (next draws.old.state) }
    {
        let runs_east = draws.below(2) == 0;
        let max_ms = 120_000 + 1000 * draws.below(240);
        self.trains.push(train(alloc, number, runs_east)?)?;
        self.withins.push(within(number, max_ms))?;
        Ok(())
    }
}
