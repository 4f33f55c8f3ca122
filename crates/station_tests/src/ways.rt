//! The ways of the train on the line: to the signal, and from there to the exit. The route back is in no way of it, and
//! one live route starts at a signal.

use crate::line::line;
use rail_base::route::RouteNo;
use rail_base::station::TrainNo;
use std::alloc::{AllocError, Global};
use std::test::Fail;
use train_ways::OnwardRoutes;

/// Whether it has a way.
fn has_way(alloc: Global) -> Result<bool, AllocError> {
    let line = line(alloc)?;
    let onward = OnwardRoutes::of(alloc, &line)?;
    Ok(onward.first_unmade(alloc, TrainNo(1))?.is_none())
}

/// How many routes its shortest way has.
fn fewest_routes(alloc: Global) -> Result<Option<u32>, AllocError> {
    let line = line(alloc)?;
    let onward = OnwardRoutes::of(alloc, &line)?;
    onward.fewest_routes(alloc, TrainNo(1))
}

/// How many steps every plan has.
fn fewest_steps(alloc: Global) -> Result<Option<u32>, AllocError> {
    let line = line(alloc)?;
    let onward = OnwardRoutes::of(alloc, &line)?;
    onward.fewest_steps(alloc)
}

/// How many steps are enough.
fn most_steps(alloc: Global) -> Result<u64, AllocError> {
    let line = line(alloc)?;
    let onward = OnwardRoutes::of(alloc, &line)?;
    onward.most_steps(alloc)
}

/// The routes that stand in ways of it.
fn live_routes(alloc: Global) -> Result<Vec<RouteNo>, AllocError> {
    let line = line(alloc)?;
    let onward = OnwardRoutes::of(alloc, &line)?;
    onward.live_routes(alloc, TrainNo(1))
}

#[test]
fn a_way_on_the_line(rt: HostRuntime) -> Result<(), Fail> {
    let alloc = rt.alloc();
    assert!(rt; has_way(alloc)?);
    assert_eq!(rt; fewest_routes(alloc)?, Some(2));
    Ok(())
}

#[test]
fn steps_on_the_line(rt: HostRuntime) -> Result<(), Fail> {
    let alloc = rt.alloc();
    assert_eq!(rt; fewest_steps(alloc)?, Some(2));
    assert_eq!(rt; most_steps(alloc)?, 2);
    Ok(())
}

#[test]
fn live_routes_on_the_line(rt: HostRuntime) -> Result<(), Fail> {
    let alloc = rt.alloc();
    let live = live_routes(alloc)?;
    assert_eq!(rt; live.as_slice(), [RouteNo(1), RouteNo(2)].as_slice());
    Ok(())
}
