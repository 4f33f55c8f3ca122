//! Paths that can be run.

ghost use Rattle.std.specs.Prelude.{◌≡◌, All, length};
ghost use Rattle.rail_course.specs.Tracks.{IsPathInRange};

use interlocking::Interlocking;
use rail_base::list::List;
use rail_base::route::RouteNo;

/// The paths of all trains over an interlocking, in file order. Their routes are there, and they are short enough.
#[derive(Drop)]
pub struct Itineraries<'a> {
    pub interlocking: &'a Interlocking,
    pub paths: Vec<List<RouteNo>>,
    pub ghost path_a_train: { length paths.items ≡ length interlocking.now.design.station.trains },
    pub ghost range: { All (IsPathInRange interlocking.now.routes) paths.items },
}
