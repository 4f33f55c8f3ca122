//! The least time of a train on its ways.

ghost use Rattle.std.specs.Prelude.{◌≡◌, All, map, IfOk};
ghost use Rattle.rail_base.specs.Stations.{IsTrain};
ghost use Rattle.interlocking.specs.Plans.{on};
ghost use Rattle.plan_ways.specs.Paths.{IsPlanWay};
ghost use Rattle.way_times.specs.Times.{LeastAlone, least_of, lesser, ticks_alone};

use crate::alone::ticks_alone;
use interlocking::Interlocking;
use plan_ways::plan_ways;
use rail_base::list::List;
use rail_base::route::RouteNo;
use rail_base::station::TrainNo;
use std::alloc::{AllocError, Global};
use train_ways::OnwardRoutes;

/// The less of two numbers, as far as they are there.
fn lesser(one: Option<u64>, other: Option<u64>) -> Option<u64>
    ensures { result ≡ lesser one other }
{
    match (one, other) {
        (Some(one), Some(other)) => Some(one.min(other)),
        (None, other) => other,
        (one, None) => one,
    }
}

/// The fewest ticks that a train takes from one visit to another where it runs alone on one of these ways.
fn least_on(
    alloc: Global,
    interlocking: &Interlocking,
    train: TrainNo,
    ways: &[List<RouteNo>],
    from: u32,
    to: u32,
) -> Result<Option<u64>, AllocError>
    requires train { IsTrain interlocking.now.design.station train }
    requires ways { All (on interlocking.now IsPlanWay train) ways.now }
    ensures { IfOk result (λ least.
        least ≡ least_of (map (λ way. on interlocking.now ticks_alone train way from to) ways.now)) }
{
    let mut least = None;
    for way in ways {
        let ticks = ticks_alone(alloc, interlocking, train, way.as_slice(), from, to)?;
        least = lesser(least, ticks);
    }
    Ok(least)
}

/// How many ticks a train takes from one visit to another on its quickest way, where nothing is in its way. None where
/// its ways are many, or where on none of them both visits are made up to the horizon.
///
/// # Errors
///
/// Want of memory alone.
pub fn least_alone(
    alloc: Global,
    onward: &OnwardRoutes<'_>,
    train: TrainNo,
    from: u32,
    to: u32,
) -> Result<Option<u64>, AllocError>
    requires { IsTrain onward.now.interlocking.now.design.station train }
    ensures { IfOk result (λ least. on onward.now.interlocking.now LeastAlone train from to least) }
{
    let Some(ways) = plan_ways(alloc, onward, train)? else {
        return Ok(None);
    };
    let least = least_on(alloc, onward.interlocking, train, &ways, from, to)?;
    Ok(least)
}
