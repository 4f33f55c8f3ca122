//! Interlockings.

ghost use Rattle.std.specs.Prelude.{◌≡◌, ◌≤◌, length};
ghost use Rattle.rail_spec.specs.Track.{routes_of};
ghost use Rattle.interlocking.specs.Sections.{AreSectionSets};

use number_sets::NumberSet;
use rail_base::design::Design;
use rail_base::route::RouteTable;

/// An admitted design with its elementary routes, 2,000 at most. Routes are compared by the sets of their sections.
#[derive(Drop)]
pub struct Interlocking {
    pub design: Design,
    pub routes: RouteTable,
    pub(crate) sets: Vec<NumberSet>,
    pub ghost table: { routes ≡ routes_of design.station },
    pub ghost at_most_2000: { length routes ≤ 2000 },
    pub ghost sections: { AreSectionSets routes sets.items },
}
