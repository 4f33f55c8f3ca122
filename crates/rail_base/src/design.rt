//! Designs: stations that the reader admits.

ghost use Rattle.std.specs.Prelude.{◌≡◌, true};
ghost use Rattle.rail_base.specs.Admission.{is_admitted};

use crate::station::{Edge, EdgeNo, Station, Train, TrainNo, Vehicle, VehicleNo};

/// A station in which the reader has nothing to refuse. Its numbers are in range, its names and numbers name
/// something, and its track holds together, so no one above tests that again.
#[derive(Drop)]
pub struct Design {
    pub station: Station,
    pub ghost admitted: { is_admitted station ≡ true },
}

impl Design {
    ghost use Rattle.std.specs.Prelude.{◌≤◌};
    ghost use Rattle.rail_base.specs.Stations.{IsEdge, IsTrain, IsVehicle, edge_of, train_of, vehicle_at, vehicle_of};
    ghost use Rattle.rail_base.specs.Stations.{horizon};

    /// The edge of a number.
    pub fn edge(&self, edge: EdgeNo) -> &Edge
        requires { IsEdge self.now.station edge }
        ensures { result.now ≡ edge_of self.now.station edge }
    {
        &self.station.edges.as_slice()[edge.0 as usize - 1]
    }

    /// The train of a number.
    pub fn train(&self, train: TrainNo) -> &Train
        requires { IsTrain self.now.station train }
        ensures { result.now ≡ train_of self.now.station train }
    {
        &self.station.trains.as_slice()[train.0 as usize - 1]
    }

    /// The vehicle of a number.
    pub fn vehicle(&self, vehicle: VehicleNo) -> &Vehicle
        requires { IsVehicle self.now.station vehicle }
        ensures { result.now ≡ vehicle_at self.now.station vehicle }
    {
        &self.station.vehicles.as_slice()[vehicle.0 as usize - 1]
    }

    /// The vehicle of a train.
    pub fn vehicle_of(&self, train: TrainNo) -> &Vehicle
        requires { IsTrain self.now.station train }
        ensures { result.now ≡ vehicle_of self.now.station train }
    {
        self.vehicle(self.train(train).vehicle)
    }

    /// The last tick that counts, from 1 to 86,400.
    pub fn horizon(&self) -> u64
        ensures value { result ≡ horizon self.now.station }
        ensures at_least_one { 1 ≤ result }
        ensures at_most_86400 { result ≤ 86400 }
    {
        u64::from(self.station.horizon_ms / self.station.tick_ms)
    }
}
