//! The commands of rows, and their places.

ghost use Rattle.std.specs.Prelude.{◌≡◌, ◌≤◌, ◌<◌, ◌+◌, ◌++◌, [], IfOk, IfSome, OnOk, length, map, option_map};
ghost use Rattle.rail_base.specs.Numbering.{one_to};
ghost use Rattle.rail_spec.specs.Plans.{is_route};
ghost use Rattle.command_set.specs.Commands.{AreRising, commands_in, first_place};
ghost use Rattle.command_set.specs.Rows.{AreRows, commands_by_rows, places_by_rows, places_in};

use rail_base::list::List;
use rail_base::plan::Command;
use rail_base::route::RouteNo;
use rail_base::station::TrainNo;
use std::alloc::{AllocError, Global};

/// The commands of each train with the routes of its row.
pub(crate) fn commands_of(alloc: Global, rows: &[List<RouteNo>]) -> Result<Vec<Command>, AllocError>
    requires { length rows.now ≤ 128 }
    ensures { IfOk result (λ cs. cs.items ≡ commands_by_rows rows.now) }
{
    let mut commands = Vec::new(alloc);
    let mut train = 0;
    for row in rows {
        train += 1;
        add_commands(&mut commands, TrainNo(train), row.as_slice())?;
    }
    Ok(commands)
}

/// Adds a train's commands with the routes of its row.
fn add_commands(
    commands: &mut Vec<Command>,
    train: TrainNo,
    row: &[RouteNo],
) -> Result<(), AllocError>
    ensures { OnOk result (commands.new.items ≡ commands.old.items ++ commands_in train.0 row.now) }
{
    for route in row {
        commands.push(Command {
            train,
            route: *route,
        })?;
    }
    Ok(())
}

/// For each train and each route the place of their command.
pub(crate) fn places_of(
    alloc: Global,
    routes: u32,
    rows: &[List<RouteNo>],
) -> Result<Vec<List<Option<u32>>>, AllocError>
    requires { AreRows routes rows.now }
    ensures { IfOk result (λ places. places.items ≡ places_by_rows routes rows.now) }
{
    let mut places = Vec::new(alloc);
    let mut before = 0;
    for row in rows {
        places.push(places_in(alloc, routes, row.as_slice(), before)?)?;
        before += row.len() as u32;
    }
    Ok(places)
}

/// For each route the place of a train's command, where so many commands stand before its own.
fn places_in(
    alloc: Global,
    routes: u32,
    row: &[RouteNo],
    before: u32,
) -> Result<List<Option<u32>>, AllocError>
    requires routes { routes ≤ 2000 }
    requires rising { AreRising row.now }
    requires short { length row.now ≤ 2000 }
    requires before { before ≤ 256000 }
    ensures { IfOk result (λ places. places ≡ places_in routes row.now before) }
{
    let mut places = Vec::new(alloc);
    for number in 1..routes + 1 {
        places.push(place_in(row, RouteNo(number), before))?;
    }
    Ok(List::from_vec(places))
}

/// The place of a train's command with a route, where so many commands stand before the train's own.
fn place_in(row: &[RouteNo], route: RouteNo, before: u32) -> Option<u32>
    requires rising { AreRising row.now }
    requires short { length row.now ≤ 2000 }
    requires before { before ≤ 256000 }
    ensures { result ≡ option_map (λ within. before + within) (first_place (is_route route) row.now) }
{
    match place_in_row(row, route) {
        Some(within) => Some(before + within as u32),
        None => None,
    }
}

/// Where a route stands in a row of rising numbers.
pub fn place_in_row(row: &[RouteNo], route: RouteNo) -> Option<usize>
    requires { AreRising row.now }
    ensures place { result ≡ first_place (is_route route) row.now }
    ensures bound { IfSome result (λ place. place < length row.now) }
{
    let place = row.partition_point(|other| other.0 < route.0);
    if place < row.len() && row[place].0 == route.0 {
        return Some(place);
    }
    None
}
