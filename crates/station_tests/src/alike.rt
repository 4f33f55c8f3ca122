//! Thirteen trains over one edge, some of them alike.

ghost use Rattle.std.specs.Prelude.{◌≡◌, ℕ, [], ◌∷◌, IfOk};
ghost use Rattle.rail_base.specs.declared.station.Train.{Train};
ghost use Rattle.rail_base.specs.declared.station.Order.{Order};
ghost use Rattle.rail_base.specs.declared.station.Within.{Within};

use crate::stations::{edge, name, node, one, train, two, vehicle};
use rail_alike::{are_alike, neighbors, neighbors_beside};
use rail_base::design::Design;
use rail_base::list::List;
use rail_base::station::{Order, Station, Train, TrainNo, Within};
use std::alloc::{AllocError, Global};

/// Train H is of another vehicle, train I stays where it is, and train M stands at its second visit.
fn trains(alloc: Global) -> Result<List<Train>, AllocError>
    ensures { let of = λ (letter : ℕ) (vehicle : ℕ) (to : ℕ) (dwell_ms : ℕ). let t : Train = record {
      name = letter ∷ [];
      vehicle = record { 0 = vehicle };
      visits = (record { 0 = 1 } ∷ []) ∷ (record { 0 = to } ∷ []) ∷ [];
      dwell_ms = 0 ∷ dwell_ms ∷ [];
    } in t in IfOk result (λ ts. ts ≡ of 65 1 2 0 ∷ of 66 1 2 0 ∷ of 67 1 2 0 ∷ of 68 1 2 0 ∷ of 69 1 2 0
        ∷ of 70 1 2 0 ∷ of 71 1 2 0 ∷ of 72 2 2 0 ∷ of 73 1 1 0 ∷ of 74 1 2 0 ∷ of 75 1 2 0 ∷ of 76 1 2 0
        ∷ of 77 1 2 1000 ∷ []) }
{
    let mut trains = List::new(alloc);
    trains.push(train(alloc, b'A', 1, 2, 0)?)?;
    trains.push(train(alloc, b'B', 1, 2, 0)?)?;
    trains.push(train(alloc, b'C', 1, 2, 0)?)?;
    trains.push(train(alloc, b'D', 1, 2, 0)?)?;
    trains.push(train(alloc, b'E', 1, 2, 0)?)?;
    trains.push(train(alloc, b'F', 1, 2, 0)?)?;
    trains.push(train(alloc, b'G', 1, 2, 0)?)?;
    trains.push(train(alloc, b'H', 2, 2, 0)?)?;
    trains.push(train(alloc, b'I', 1, 1, 0)?)?;
    trains.push(train(alloc, b'J', 1, 2, 0)?)?;
    trains.push(train(alloc, b'K', 1, 2, 0)?)?;
    trains.push(train(alloc, b'L', 1, 2, 0)?)?;
    trains.push(train(alloc, b'M', 1, 2, 1000)?)?;
    Ok(trains)
}

/// The first visit of a train comes before the second of another.
fn order(first: u32, then: u32) -> Order
    ensures { result ≡ record {
      first_train = record { 0 = first };
      first_visit = 1;
      then_train = record { 0 = then };
      then_visit = 2;
    } }
{
    Order {
        first_train: TrainNo(first),
        first_visit: 1,
        then_train: TrainNo(then),
        then_visit: 2,
    }
}

/// Train D comes before train E, and trains F and G come before each other.
fn orders(alloc: Global) -> Result<List<Order>, AllocError>
    ensures { let of = λ (first : ℕ) (then : ℕ). let o : Order = record {
      first_train = record { 0 = first };
      first_visit = 1;
      then_train = record { 0 = then };
      then_visit = 2;
    } in o in IfOk result (λ os. os ≡ of 4 5 ∷ of 6 7 ∷ of 7 6 ∷ []) }
{
    let mut orders = List::new(alloc);
    orders.push(order(4, 5))?;
    orders.push(order(6, 7))?;
    orders.push(order(7, 6))?;
    Ok(orders)
}

/// The second visit of train H comes within so many ms of the first of another.
fn within(from: u32, max_ms: u32) -> Within
    ensures { result ≡ record {
      from_train = record { 0 = from };
      from_visit = 1;
      to_train = record { 0 = 8 };
      to_visit = 2;
      max_ms = max_ms;
    } }
{
    Within {
        from_train: TrainNo(from),
        from_visit: 1,
        to_train: TrainNo(8),
        to_visit: 2,
        max_ms,
    }
}

/// Of trains F and G in the same time, of trains J and K not.
fn withins(alloc: Global) -> Result<List<Within>, AllocError>
    ensures { let of = λ (from : ℕ) (max_ms : ℕ). let w : Within = record {
      from_train = record { 0 = from };
      from_visit = 1;
      to_train = record { 0 = 8 };
      to_visit = 2;
      max_ms = max_ms;
    } in w in IfOk result (λ ws. ws ≡ of 6 60000 ∷ of 7 60000 ∷ of 10 60000 ∷ of 11 30000 ∷ []) }
{
    let mut withins = List::new(alloc);
    withins.push(within(6, 60_000))?;
    withins.push(within(7, 60_000))?;
    withins.push(within(10, 60_000))?;
    withins.push(within(11, 30_000))?;
    Ok(withins)
}

/// An edge from one boundary to another, and these trains.
fn design(alloc: Global) -> Result<Design, AllocError> {
    let west = node(alloc, b'w', true)?;
    let east = node(alloc, b'e', true)?;
    let nodes = two(alloc, west, east)?;
    let edge = edge(alloc, b'f', 1, 2, 10_000)?;
    let edges = one(alloc, edge)?;
    let section = name(alloc, b'y')?;
    let sections = one(alloc, section)?;
    let slow = vehicle(alloc, b's')?;
    let fast = vehicle(alloc, b'f')?;
    let vehicles = two(alloc, slow, fast)?;
    let trains = trains(alloc)?;
    let orders = orders(alloc)?;
    let withins = withins(alloc)?;
    let station = Station {
        version: 3,
        tick_ms: 1000,
        horizon_ms: 600_000,
        nodes,
        edges,
        sections,
        signals: List::new(alloc),
        vehicles,
        trains,
        orders,
        withins,
        overlaps: List::new(alloc),
    };
    Ok(Design { station })
}

#[test]
fn some_are_alike(rt: HostRuntime) -> Result<(), AllocError> {
    let design = design(rt.alloc())?;
    for (one, other, alike) in [
        (1, 2, true),
        (2, 1, true),
        (1, 12, true),
        (1, 1, true),
        (4, 5, false),
        (6, 7, true),
        (1, 8, false),
        (1, 9, false),
        (10, 11, false),
        (1, 4, false),
        (0, 1, false),
        (1, 13, false),
        (1, 14, false),
    ] {
        assert_eq!(rt;
            are_alike(&design, TrainNo(one), TrainNo(other)),
            alike,
            "{one} {other}"
        );
    }
    Ok(())
}

#[test]
fn each_with_the_next(rt: HostRuntime) -> Result<(), AllocError> {
    let alloc = rt.alloc();
    let design = design(alloc)?;
    let pairs = neighbors(alloc, &design)?;
    let wanted = [(1, 2), (2, 3), (3, 12), (6, 7)];
    assert_eq!(rt; pairs.len(), wanted.len());
    for (pair, (one, next)) in pairs.as_slice().iter().zip(wanted.iter()) {
        assert_eq!(rt; (pair.0.0, pair.1.0), (*one, *next));
    }
    Ok(())
}

/// Withins 1 and 2 name trains F and G, and there is none of number 0 or 5.
#[test]
fn each_with_the_next_beside_a_within(rt: HostRuntime) -> Result<(), AllocError> {
    let alloc = rt.alloc();
    let design = design(alloc)?;
    for (within, many) in [(0, 4), (1, 3), (2, 3), (3, 4), (5, 4)] {
        let pairs = neighbors_beside(alloc, &design, within)?;
        assert_eq!(rt; pairs.len(), many, "{within}");
    }
    Ok(())
}
