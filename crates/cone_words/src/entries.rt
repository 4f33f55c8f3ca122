//! Entries by number, which are empty where a number names nothing.

ghost use Rattle.std.specs.Prelude.{◌≡◌};
ghost use Rattle.rail_base.specs.Routes.{route_at, has_section};
ghost use Rattle.rail_base.specs.Stations.{within_of, order_of};
ghost use Rattle.cone_words.specs.Names.{nodes_of_visit};

use rail_base::design::Design;
use rail_base::names::entry;
use rail_base::route::{OverlapSection, RouteNo, RouteTable};
use rail_base::station::{NodeNo, Order, SectionNo, TrainNo, Within};

/// The nodes of a visit of a train.
pub fn nodes_of_visit(design: &Design, train: TrainNo, visit: u32) -> &[NodeNo]
    ensures { result.now ≡ nodes_of_visit design.now.station train visit }
{
    match entry(design.station.trains.as_slice(), train.0 as usize) {
        Some(train) => match entry(train.visits.as_slice(), visit as usize) {
            Some(nodes) => nodes.as_slice(),
            None => &[],
        },
        None => &[],
    }
}

/// The within of a number.
pub fn within_of(design: &Design, number: u32) -> Within
    ensures { result ≡ within_of design.now.station number }
{
    match entry(design.station.withins.as_slice(), number as usize) {
        Some(within) => *within,
        None => Within {
            from_train: TrainNo(0),
            from_visit: 0,
            to_train: TrainNo(0),
            to_visit: 0,
            max_ms: 0,
        },
    }
}

/// The order of a number.
pub fn order_of(design: &Design, number: u32) -> Order
    ensures { result ≡ order_of design.now.station number }
{
    match entry(design.station.orders.as_slice(), number as usize) {
        Some(order) => *order,
        None => Order {
            first_train: TrainNo(0),
            first_visit: 0,
            then_train: TrainNo(0),
            then_visit: 0,
        },
    }
}

/// The sections that a route goes over, with their release offsets.
pub fn sections_of(routes: &RouteTable, route: RouteNo) -> &[(SectionNo, i64)]
    ensures { result.now ≡ (route_at routes.now route).sections }
{
    match entry(routes.as_slice(), route.0 as usize) {
        Some(route) => route.sections.as_slice(),
        None => &[],
    }
}

/// The sections of the overlap at its end.
pub fn overlaps_of(routes: &RouteTable, route: RouteNo) -> &[OverlapSection]
    ensures { result.now ≡ (route_at routes.now route).overlaps }
{
    match entry(routes.as_slice(), route.0 as usize) {
        Some(route) => route.overlaps.as_slice(),
        None => &[],
    }
}

/// Whether a route has a section, as its own or of the overlap at its end.
pub fn has_section(routes: &RouteTable, route: RouteNo, section: SectionNo) -> bool
    ensures { result ≡ has_section (route_at routes.now route) section }
{
    match entry(routes.as_slice(), route.0 as usize) {
        Some(route) => route.has_section(section),
        None => false,
    }
}
