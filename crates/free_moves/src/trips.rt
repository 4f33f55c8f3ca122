//! Trips of trains.

ghost use Rattle.std.specs.Prelude.{◌<◌, ◌≤◌, ◌^◌};
ghost use Rattle.rail_base.specs.Stations.{IsTrain};

use interlocking::Interlocking;
use rail_base::station::TrainNo;

/// A train, and from where to where it goes on a walk.
#[derive(Clone, Copy)]
pub(crate) struct Trip<'a> {
    pub interlocking: &'a Interlocking,
    pub train: TrainNo,
    pub from: u64,
    pub to: u64,
    /// No more ticks than these are counted.
    pub most: u64,
    /// Whether it could stop at the first place, since it waits for more track.
    pub waits: bool,
    pub ghost named: { IsTrain interlocking.now.design.station train },
    pub ghost below_2_47: { to < 2 ^ 47 },
    pub ghost at_most_86400: { most ≤ 86400 },
}
