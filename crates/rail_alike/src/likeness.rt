//! Whether two trains are alike.

ghost use Rattle.std.specs.Prelude.{◌≡◌, ◌↔◌, IsTrue};
ghost use Rattle.std.specs.List.{list_all, list_any, zip};
ghost use Rattle.rail_base.specs.Stations.{IsTrain};
ghost use Rattle.rail_alike.specs.Renaming.{renamed_order, renamed_within};
ghost use Rattle.rail_alike.specs.Alike.{AreAlike, exchange};
ghost use Rattle.rail_alike.specs.Tests.{are_alike, are_same, is_named, is_node, is_number, is_order, is_within};
ghost use Rattle.rail_alike.specs.Tests.{orders_stay, same_dwells, same_vehicle, same_visits, withins_stay};

use rail_base::design::Design;
use rail_base::list::List;
use rail_base::station::{NodeNo, Order, TrainNo, Within};

/// Whether the two trains are alike: both are trains of the design, they have one vehicle and the same visits, at which
/// they stand as long, and each order and within is one of the design with them exchanged. It takes at most a
/// comparison of each two orders, and of each two withins.
pub fn are_alike(design: &Design, one: TrainNo, other: TrainNo) -> bool
    ensures value { result ≡ are_alike design.now.station one other }
    ensures alike { IsTrue result ↔ AreAlike design.now.station one other }
{
    pass(design, one, other)
}

/// Each of the two for the other, and any other train as it is.
fn exchange(one: TrainNo, other: TrainNo, train: TrainNo) -> TrainNo
    ensures { result ≡ exchange one other train }
{
    if train.0 == one.0 {
        return other;
    }
    if train.0 == other.0 { one } else { train }
}

/// The order with the two exchanged.
fn exchanged_order(one: TrainNo, other: TrainNo, order: Order) -> Order
    ensures { result ≡ renamed_order (exchange one other) order }
{
    Order {
        first_train: exchange(one, other, order.first_train),
        then_train: exchange(one, other, order.then_train),
        ..order
    }
}

/// The within with the two exchanged.
fn exchanged_within(one: TrainNo, other: TrainNo, within: Within) -> Within
    ensures { result ≡ renamed_within (exchange one other) within }
{
    Within {
        from_train: exchange(one, other, within.from_train),
        to_train: exchange(one, other, within.to_train),
        ..within
    }
}

/// Whether the two are one order.
fn is_order(one: Order, other: &Order) -> bool
    ensures { result ≡ is_order one other.now }
{
    one == *other
}

/// Whether the two are one within.
fn is_within(one: Within, other: &Within) -> bool
    ensures { result ≡ is_within one other.now }
{
    one == *other
}

/// Whether the design has the order.
fn has_order(design: &Design, order: Order) -> bool
    ensures { result ≡ list_any (is_order order) design.now.station.orders }
{
    design
        .station
        .orders
        .as_slice()
        .iter()
        .any(|found| is_order(order, found))
}

/// Whether the design has the within.
fn has_within(design: &Design, within: Within) -> bool
    ensures { result ≡ list_any (is_within within) design.now.station.withins }
{
    design
        .station
        .withins
        .as_slice()
        .iter()
        .any(|found| is_within(within, found))
}

/// Whether the nodes that stand beside each other are the same.
fn are_beside(one: &[NodeNo], other: &[NodeNo]) -> bool
    ensures { result ≡ list_all (λ p. is_node p.0 p.1) (zip one.now other.now) }
{
    one.iter()
        .zip(other.iter())
        .all(|(node, beside)| node.0 == beside.0)
}

/// Whether the two visits are of the same nodes in the same order.
fn same_nodes(one: &List<NodeNo>, other: &List<NodeNo>) -> bool
    ensures { result ≡ are_same is_node one.now other.now }
{
    one.len() == other.len() && are_beside(one.as_slice(), other.as_slice())
}

/// Whether the visits that stand beside each other are the same.
fn are_visits(one: &[List<NodeNo>], other: &[List<NodeNo>]) -> bool
    ensures { result ≡ list_all (λ p. are_same is_node p.0 p.1) (zip one.now other.now) }
{
    one.iter()
        .zip(other.iter())
        .all(|(visit, beside)| same_nodes(visit, beside))
}

/// Whether the numbers that stand beside each other are the same.
fn are_numbers(one: &[u32], other: &[u32]) -> bool
    ensures { result ≡ list_all (λ p. is_number p.0 p.1) (zip one.now other.now) }
{
    one.iter()
        .zip(other.iter())
        .all(|(number, beside)| number == beside)
}

/// Whether the two lists have the same numbers in the same order.
fn same_numbers(one: &List<u32>, other: &List<u32>) -> bool
    ensures { result ≡ are_same is_number one.now other.now }
{
    one.len() == other.len() && are_numbers(one.as_slice(), other.as_slice())
}

/// Whether a train has this number.
fn is_named(design: &Design, train: TrainNo) -> bool
    ensures value { result ≡ is_named design.now.station train }
    ensures known { IsTrue result → IsTrain design.now.station train }
{
    1 <= train.0 && train.0 as usize <= design.station.trains.len()
}

/// Whether the two have one vehicle.
fn same_vehicle(design: &Design, one: TrainNo, other: TrainNo) -> bool
    requires one { IsTrain design.now.station one }
    requires other { IsTrain design.now.station other }
    ensures { result ≡ same_vehicle design.now.station one other }
{
    design.train(one).vehicle.0 == design.train(other).vehicle.0
}

/// Whether the two have the same visits.
fn same_visits(design: &Design, one: TrainNo, other: TrainNo) -> bool
    requires one { IsTrain design.now.station one }
    requires other { IsTrain design.now.station other }
    ensures { result ≡ same_visits design.now.station one other }
{
    let one = &design.train(one).visits;
    let other = &design.train(other).visits;
    one.len() == other.len() && are_visits(one.as_slice(), other.as_slice())
}

/// Whether the two stand as long at each visit.
fn same_dwells(design: &Design, one: TrainNo, other: TrainNo) -> bool
    requires one { IsTrain design.now.station one }
    requires other { IsTrain design.now.station other }
    ensures { result ≡ same_dwells design.now.station one other }
{
    same_numbers(&design.train(one).dwell_ms, &design.train(other).dwell_ms)
}

/// Whether each order is one of the design with the two exchanged.
fn orders_stay(design: &Design, one: TrainNo, other: TrainNo) -> bool
    ensures { result ≡ orders_stay design.now.station one other }
{
    design.station.orders.as_slice().iter().all(|order| has_order(
        design,
        exchanged_order(one, other, *order),
    ))
}

/// Whether each within is one of the design with the two exchanged.
fn withins_stay(design: &Design, one: TrainNo, other: TrainNo) -> bool
    ensures { result ≡ withins_stay design.now.station one other }
{
    design.station.withins.as_slice().iter().all(|within| has_within(
        design,
        exchanged_within(one, other, *within),
    ))
}

/// The test of the two trains, part by part.
fn pass(design: &Design, one: TrainNo, other: TrainNo) -> bool
    ensures { result ≡ are_alike design.now.station one other }
{
    is_named(design, one)
        && is_named(design, other)
        && same_vehicle(design, one, other)
        && same_visits(design, one, other)
        && same_dwells(design, one, other)
        && orders_stay(design, one, other)
        && withins_stay(design, one, other)
}
