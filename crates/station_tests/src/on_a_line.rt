//! Ticks that were worked out by hand.

use crate::line::line;
use free_moves::{on_ticks, run_ticks};
use rail_base::route::RouteNo;
use rail_base::station::TrainNo;
use std::test::Fail;

/// Heads 500, 1500, 3000, 5000 and so on, by 2,000 a tick: to the exit, and to where a train of 2,000 mm has left the
/// first section.
#[test]
fn ticks_from_the_grant(rt: HostRuntime) -> Result<(), Fail> {
    let alloc = rt.alloc();
    let line = line(alloc)?;
    let walk = [RouteNo(1), RouteNo(2)];
    for (place, ticks) in [
        (0u16, 0),
        (500, 0),
        (501, 1),
        (12_000, 7),
        (16_000, 9),
        (30_000, 12),
    ] {
        let taken = run_ticks(alloc, &line, TrainNo(1), &walk, u64::from(place), 12)?;
        assert_eq!(rt; taken, ticks, "{place}");
    }
    Ok(())
}

/// No more ticks are counted than the most. Who stops at the signal comes no farther in any tick, so the second route
/// may follow the first or not.
#[test]
fn ticks_up_to_a_most(rt: HostRuntime) -> Result<(), Fail> {
    let alloc = rt.alloc();
    let line = line(alloc)?;
    let walk = [RouteNo(1)];
    for (place, ticks) in [(501u16, 1), (12_000, 7), (16_000, 8), (30_000, 8)] {
        let taken = run_ticks(alloc, &line, TrainNo(1), &walk, u64::from(place), 8)?;
        assert_eq!(rt; taken, ticks, "{place}");
    }
    Ok(())
}

/// Who waits at the signal comes 1,200 mm in the first tick: heads 1200, 3200, 5200, 7200.
#[test]
fn ticks_after_a_wait(rt: HostRuntime) -> Result<(), Fail> {
    let alloc = rt.alloc();
    let line = line(alloc)?;
    for (place, ticks) in [(1200u16, 0), (1201, 1), (6000, 3)] {
        let taken = run_ticks(
            alloc,
            &line,
            TrainNo(1),
            &[RouteNo(2)],
            u64::from(place),
            12,
        )?;
        assert_eq!(rt; taken, ticks, "{place}");
    }
    Ok(())
}

/// Who is at 4,000 mm was at 3,999 at most a tick before, and may have its top speed.
#[test]
fn ticks_from_a_place(rt: HostRuntime) -> Result<(), Fail> {
    let alloc = rt.alloc();
    let line = line(alloc)?;
    let walk = [RouteNo(1), RouteNo(2)];
    for (place, ticks) in [
        (4000u16, 0),
        (5999, 0),
        (6000, 1),
        (16_000, 6),
        (30_000, 12),
    ] {
        let taken = on_ticks(alloc, &line, TrainNo(1), &walk, 4000, u64::from(place), 12)?;
        assert_eq!(rt; taken, ticks, "{place}");
    }
    Ok(())
}
