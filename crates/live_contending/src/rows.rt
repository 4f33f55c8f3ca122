//! Rows of routes.

ghost use Rattle.std.specs.Prelude.{◌≡◌, ◌≤◌, [], length};
ghost use Rattle.rail_base.specs.Numbering.{entry};
ghost use Rattle.live_contending.specs.Rows.{row_at, table_at, train_count};

use rail_base::list::List;
use rail_base::route::RouteNo;
use rail_base::station::TrainNo;

/// For each train and each route, the train's routes that share a section with it.
#[derive(Drop)]
pub(crate) struct TrainRows {
    /// For each train which table is its own, counted from 1. Trains with the same routes have one table.
    pub(crate) kinds: Vec<usize>,
    /// For each kind of trains, for each route its row.
    pub(crate) tables: Vec<List<List<RouteNo>>>,
}

impl TrainRows {
    /// How many trains there are.
    pub(crate) fn trains(&self) -> usize
        ensures { result ≡ train_count self.now }
    {
        self.kinds.len()
    }

    /// The table of a train.
    fn table(&self, train: TrainNo) -> &[List<RouteNo>]
        ensures { result.now ≡ table_at self.now train.0 }
    {
        list_at(&self.tables, number_at(&self.kinds, train.0 as usize))
    }

    /// The row of a train and a route, or no route.
    pub(crate) fn row(&self, train: TrainNo, route: RouteNo) -> &[RouteNo]
        ensures { result.now ≡ row_at self.now train.0 route }
    {
        list_at(self.table(train), route.0 as usize)
    }
}

/// The number of this place, counted from 1, or 0.
fn number_at(numbers: &[usize], place: usize) -> usize
    ensures { result ≡ entry 0 numbers.now place }
{
    if place == 0 {
        return 0;
    }
    match numbers.get(place - 1) {
        Some(number) => *number,
        None => 0,
    }
}

/// The list of this place, counted from 1, or an empty one.
fn list_at<T>(lists: &[List<T>], place: usize) -> &[T]
    ensures { result.now ≡ entry [] lists.now place }
{
    if place == 0 {
        return &[];
    }
    match lists.get(place - 1) {
        Some(list) => list.as_slice(),
        None => &[],
    }
}

/// The row of a route.
pub fn row_of(rows: &[List<RouteNo>], route: RouteNo) -> &[RouteNo]
    requires at_least_one { 1 ≤ route.0 }
    requires within { route.0 ≤ length rows.now }
    ensures { result.now ≡ entry [] rows.now route.0 }
{
    rows[route.0 as usize - 1].as_slice()
}
