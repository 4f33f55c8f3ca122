//! The least ticks of a walk.

ghost use Rattle.std.specs.Prelude.{◌≡◌, ◌<◌, ◌≤◌, ◌^◌, All, IfOk, length};
ghost use Rattle.rail_base.specs.Routes.{IsRoute};
ghost use Rattle.rail_base.specs.Stations.{IsTrain};
ghost use Rattle.bound_spec.specs.Rides.{on_ticks, run_ticks};
ghost use Rattle.free_moves.specs.Trips.{walk_run_ticks, walk_on_ticks};

use crate::trips::Trip;
use interlocking::Interlocking;
use rail_base::route::RouteNo;
use rail_base::station::TrainNo;
use std::alloc::{AllocError, Global};

/// The least ticks from the grant of a walk's first route to a place on it (mm from the walk's start), whatever follows
/// the walk, or `most` where so many don't reach the place. `Err` where memory ran out.
pub fn run_ticks(
    alloc: Global,
    interlocking: &Interlocking,
    train: TrainNo,
    walk: &[RouteNo],
    place: u64,
    most: u64,
) -> Result<u64, AllocError>
    requires train { IsTrain interlocking.now.design.station train }
    requires routes { All (IsRoute interlocking.now.routes) walk.now }
    requires at_most_64 { length walk.now ≤ 64 }
    requires place { place < 2 ^ 47 }
    requires at_most_86400 { most ≤ 86400 }
    ensures { IfOk result (λ n. n ≡ walk_run_ticks interlocking.now most train walk.now place) }
{
    let trip = Trip {
        interlocking,
        train,
        from: 0,
        to: place,
        most,
        waits: true,
    };
    Ok(trip.least_ticks(alloc, walk)?.saturating_sub(1))
}

/// The least ticks from one place on a walk to another (both in mm from the walk's start), whatever follows the walk,
/// or
/// `most` where so many don't reach the second place. `Err` where memory ran out.
pub fn on_ticks(
    alloc: Global,
    interlocking: &Interlocking,
    train: TrainNo,
    walk: &[RouteNo],
    from: u64,
    place: u64,
    most: u64,
) -> Result<u64, AllocError>
    requires train { IsTrain interlocking.now.design.station train }
    requires routes { All (IsRoute interlocking.now.routes) walk.now }
    requires at_most_64 { length walk.now ≤ 64 }
    requires place { place < 2 ^ 47 }
    requires at_most_86400 { most ≤ 86400 }
    ensures { IfOk result (λ n. n ≡ walk_on_ticks interlocking.now most train walk.now from place) }
{
    let trip = Trip {
        interlocking,
        train,
        from: from.saturating_sub(1),
        to: place,
        most,
        waits: false,
    };
    Ok(trip.least_ticks(alloc, walk)?.saturating_sub(1))
}
