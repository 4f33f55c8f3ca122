//! How the rows of trains are found.

ghost use Rattle.std.specs.Prelude.{◌≡◌, ◌≤◌, ◌<◌, ◌-◌, All, IfOk, IfSome, OnOk, filter, length};
ghost use Rattle.std.specs.List.{list_all, zip};
ghost use Rattle.rail_base.specs.Routes.{IsRoute};
ghost use Rattle.rail_alike.specs.Tests.{are_same};
ghost use Rattle.rail_spec.specs.Plans.{is_route, routes_given};
ghost use Rattle.live_contending.specs.Rows.{AreRowsTo, shares, sharing_rows};

use crate::rows::TrainRows;
use command_set::CommandSet;
use interlocking::Interlocking;
use rail_base::list::List;
use rail_base::route::RouteNo;
use rail_base::station::TrainNo;
use std::alloc::{AllocError, Global};

/// For each train and each route, the train's routes among the commands that share a section with it.
pub(crate) fn rows_of_trains(
    alloc: Global,
    interlocking: &Interlocking,
    commands: &CommandSet,
) -> Result<TrainRows, AllocError>
    requires { (t : TrainNo) → All (IsRoute interlocking.now.routes) (routes_given t commands.now) }
    ensures { IfOk result (λ rows. AreRowsTo interlocking.now.routes commands.now
        (length interlocking.now.design.station.trains) rows) }
{
    let mut rows = TrainRows {
        kinds: Vec::new(alloc),
        tables: Vec::new(alloc),
    };
    for number in 1..interlocking.design.station.trains.len() as u32 + 1 {
        add_train(alloc, &mut rows, interlocking, commands, TrainNo(number))?;
    }
    Ok(rows)
}

/// Adds the table of the next train, or takes that of a train before it with the same routes.
fn add_train(
    alloc: Global,
    rows: &mut TrainRows,
    interlocking: &Interlocking,
    commands: &CommandSet,
    train: TrainNo,
) -> Result<(), AllocError>
    requires known { 1 ≤ train.0 }
    requires routes { All (IsRoute interlocking.now.routes) (routes_given train commands.now) }
    requires before { AreRowsTo interlocking.now.routes commands.now (train.0 - 1) rows.old }
    ensures { OnOk result (AreRowsTo interlocking.now.routes commands.now train.0 rows.new) }
{
    match earlier_alike(commands, train) {
        Some(earlier) => {
            let kind = rows.kinds[earlier.0 as usize - 1];
            rows.kinds.push(kind)?;
        }
        None => {
            let table = sharing_rows(alloc, interlocking, commands.routes_of(train))?;
            rows.tables.push(table)?;
            rows.kinds.push(rows.tables.len())?;
        }
    }
    Ok(())
}

/// The first train before this one that has the same routes.
fn earlier_alike(commands: &CommandSet, train: TrainNo) -> Option<TrainNo>
    ensures known { IfSome result (λ t. 1 ≤ t.0) }
    ensures before { IfSome result (λ t. t.0 < train.0) }
    ensures alike { IfSome result (λ t. routes_given t commands.now ≡ routes_given train commands.now) }
{
    let routes = commands.routes_of(train);
    for number in 1..train.0 {
        let earlier = TrainNo(number);
        if are_same(commands.routes_of(earlier), routes) {
            return Some(earlier);
        }
    }
    None
}

/// Whether the routes that stand beside each other are the same.
fn are_beside(one: &[RouteNo], other: &[RouteNo]) -> bool
    ensures { result ≡ list_all (λ p. is_route p.0 p.1) (zip one.now other.now) }
{
    one.iter()
        .zip(other.iter())
        .all(|(route, beside)| route.0 == beside.0)
}

/// Whether the two lists have the same routes in the same order.
fn are_same(one: &[RouteNo], other: &[RouteNo]) -> bool
    ensures { result ≡ are_same is_route one.now other.now }
{
    one.len() == other.len() && are_beside(one, other)
}

/// For each route, those of these that share a section with it.
fn sharing_rows(
    alloc: Global,
    interlocking: &Interlocking,
    among: &[RouteNo],
) -> Result<List<List<RouteNo>>, AllocError>
    requires { All (IsRoute interlocking.now.routes) among.now }
    ensures { IfOk result (λ rows. rows ≡ sharing_rows interlocking.now.routes among.now) }
{
    let mut rows = Vec::new(alloc);
    for number in 1..interlocking.routes.len() as u32 + 1 {
        rows.push(routes_sharing(alloc, interlocking, RouteNo(number), among)?)?;
    }
    Ok(List::from_vec(rows))
}

/// Those of these routes that share a section with a route.
fn routes_sharing(
    alloc: Global,
    interlocking: &Interlocking,
    route: RouteNo,
    among: &[RouteNo],
) -> Result<List<RouteNo>, AllocError>
    requires route { IsRoute interlocking.now.routes route }
    requires among { All (IsRoute interlocking.now.routes) among.now }
    ensures { IfOk result (λ row. row ≡ filter (shares interlocking.now.routes route) among.now) }
{
    let mut found = Vec::new(alloc);
    for other in among {
        if interlocking.share(route, *other) {
            found.push(*other)?;
        }
    }
    Ok(List::from_vec(found))
}
