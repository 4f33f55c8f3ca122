//! The routes of each train's commands.

ghost use Rattle.std.specs.Prelude.{◌≡◌, ◌-◌, IfOk, length, map};
ghost use Rattle.rail_base.specs.Numbering.{one_to};
ghost use Rattle.rail_base.specs.Stations.{IsTrain};
ghost use Rattle.rail_spec.specs.Plans.{route_numbers};
ghost use Rattle.interlocking.specs.Plans.{on};
ghost use Rattle.command_set.specs.Rows.{all_rows, live_row, live_rows, train_no};

use crate::likeness::earlier_alike;
use interlocking::Interlocking;
use rail_base::list::List;
use rail_base::route::RouteNo;
use rail_base::station::TrainNo;
use std::alloc::{AllocError, Global};
use train_ways::OnwardRoutes;

/// For each train all routes.
pub(crate) fn all_rows(
    alloc: Global,
    interlocking: &Interlocking,
) -> Result<Vec<List<RouteNo>>, AllocError>
    ensures { IfOk result (λ rows. rows.items ≡ on interlocking.now all_rows) }
{
    let mut rows = Vec::new(alloc);
    for _train in 1..interlocking.design.station.trains.len() as u32 + 1 {
        rows.push(all_routes(alloc, interlocking)?)?;
    }
    Ok(rows)
}

/// All routes.
fn all_routes(alloc: Global, interlocking: &Interlocking) -> Result<List<RouteNo>, AllocError>
    ensures { IfOk result (λ row. row ≡ route_numbers interlocking.now.routes) }
{
    let mut row = List::new(alloc);
    for number in 1..interlocking.routes.len() as u32 + 1 {
        row.push(RouteNo(number))?;
    }
    Ok(row)
}

/// For each train its live routes.
pub(crate) fn live_rows(
    alloc: Global,
    onward: &OnwardRoutes,
) -> Result<Vec<List<RouteNo>>, AllocError>
    ensures { IfOk result (λ rows. rows.items ≡ on onward.now.interlocking.now live_rows) }
{
    let mut rows = Vec::new(alloc);
    for number in 1..onward.interlocking.design.station.trains.len() as u32 + 1 {
        let row = live_row(alloc, onward, &rows, TrainNo(number))?;
        rows.push(row)?;
    }
    Ok(rows)
}

/// The live routes of a train, where those of the trains before it were found: trains with the same visits have the
/// same.
fn live_row(
    alloc: Global,
    onward: &OnwardRoutes,
    rows: &[List<RouteNo>],
    train: TrainNo,
) -> Result<List<RouteNo>, AllocError>
    requires train { IsTrain onward.now.interlocking.now.design.station train }
    requires before { rows.now
        ≡ map (λ n. on onward.now.interlocking.now live_row (train_no n)) (one_to (train.0 - 1)) }
    ensures { IfOk result (λ row. row ≡ on onward.now.interlocking.now live_row train) }
{
    match earlier_alike(&onward.interlocking.design, train) {
        Some(earlier) => copy_of(alloc, &rows[earlier.0 as usize - 1]),
        None => Ok(List::from_vec(onward.live_routes(alloc, train)?)),
    }
}

/// A copy of a row.
fn copy_of(alloc: Global, row: &List<RouteNo>) -> Result<List<RouteNo>, AllocError>
    ensures { IfOk result (λ copy. copy ≡ row.now) }
{
    Ok(List::from_vec(row.as_slice().to_vec(alloc)?))
}
