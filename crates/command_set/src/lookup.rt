//! Rows of trains, and the places of commands.

ghost use Rattle.std.specs.Prelude.{◌≡◌, [], None};
ghost use Rattle.rail_base.specs.Numbering.{entry};

use rail_base::list::List;
use rail_base::plan::Command;
use rail_base::route::RouteNo;
use rail_base::station::TrainNo;

/// The row of a train, or no route.
pub(crate) fn row_at(rows: &[List<RouteNo>], train: TrainNo) -> &[RouteNo]
    ensures { result.now ≡ entry [] rows.now train.0 }
{
    if train.0 == 0 {
        return &[];
    }
    match rows.get(train.0 as usize - 1) {
        Some(row) => row.as_slice(),
        None => &[],
    }
}

/// The places of a train's commands, or none.
fn places_at(places: &[List<Option<u32>>], train: TrainNo) -> &[Option<u32>]
    ensures { result.now ≡ entry [] places.now train.0 }
{
    if train.0 == 0 {
        return &[];
    }
    match places.get(train.0 as usize - 1) {
        Some(row) => row.as_slice(),
        None => &[],
    }
}

/// The place of a command, if it has one.
pub(crate) fn place_at(places: &[List<Option<u32>>], command: Command) -> Option<u32>
    ensures { result ≡ entry None (entry [] places.now command.train.0) command.route.0 }
{
    if command.route.0 == 0 {
        return None;
    }
    match places_at(places, command.train).get(command.route.0 as usize - 1) {
        Some(place) => *place,
        None => None,
    }
}
