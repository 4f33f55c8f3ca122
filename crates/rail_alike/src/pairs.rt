//! Trains that are alike and next to each other.

ghost use Rattle.std.specs.Prelude.{◌≡◌, ◌++◌, IfOk, OnOk};
ghost use Rattle.rail_base.specs.Stations.{trains, within_of};
ghost use Rattle.rail_alike.specs.Tests.{is_later_alike, is_named_by, neighbors, neighbors_among, neighbors_beside};
ghost use Rattle.rail_alike.specs.Tests.{next_among, pair_with, trains_beside};

use crate::likeness::are_alike;
use rail_base::design::Design;
use rail_base::list::List;
use rail_base::station::TrainNo;
use std::alloc::{AllocError, Global};

/// Each train with the next one that is like it, in file order. `Err` where memory is wanting. Each two trains are
/// compared at most once, which takes at most a comparison of each two orders, and of each two withins.
pub fn neighbors(alloc: Global, design: &Design) -> Result<List<(TrainNo, TrainNo)>, AllocError>
    ensures { IfOk result (λ pairs. pairs ≡ neighbors design.now.station) }
{
    let trains = all_trains(alloc, design)?;
    neighbors_among(alloc, design, &trains)
}

/// Each train that the within of this number doesn't name with the next one that it doesn't name and that is like it.
/// `Err` where memory is wanting.
pub fn neighbors_beside(
    alloc: Global,
    design: &Design,
    within: u64,
) -> Result<List<(TrainNo, TrainNo)>, AllocError>
    ensures { IfOk result (λ pairs. pairs ≡ neighbors_beside design.now.station within) }
{
    let trains = trains_beside(alloc, design, within)?;
    neighbors_among(alloc, design, &trains)
}

/// The numbers of all trains.
fn all_trains(alloc: Global, design: &Design) -> Result<Vec<TrainNo>, AllocError>
    ensures { IfOk result (λ found. found.items ≡ trains design.now.station) }
{
    let mut found = Vec::new(alloc);
    for number in 1..design.station.trains.len() as u32 + 1 {
        found.push(TrainNo(number))?;
    }
    Ok(found)
}

/// Those of the trains that the within of this number doesn't name.
fn trains_beside(alloc: Global, design: &Design, within: u64) -> Result<Vec<TrainNo>, AllocError>
    ensures { IfOk result (λ found. found.items ≡ trains_beside design.now.station within) }
{
    let mut found = all_trains(alloc, design)?;
    found.retain(|train| !is_named_by(design, within, *train));
    Ok(found)
}

/// Whether the within of this number names the train.
fn is_named_by(design: &Design, within: u64, train: TrainNo) -> bool
    ensures { result ≡ is_named_by design.now.station within train }
{
    let (from, to) = named_by(design, within);
    from.0 == train.0 || to.0 == train.0
}

/// The two trains that the within of this number names, or two that are none.
fn named_by(design: &Design, within: u64) -> (TrainNo, TrainNo)
    ensures { result ≡ ((within_of design.now.station within).from_train, (within_of design.now.station within).to_train) }
{
    if within == 0 {
        return (TrainNo(0), TrainNo(0));
    }
    match design.station.withins.as_slice().get(within as usize - 1) {
        Some(within) => (within.from_train, within.to_train),
        None => (TrainNo(0), TrainNo(0)),
    }
}

/// Each of these trains with the next of them that is like it.
fn neighbors_among(
    alloc: Global,
    design: &Design,
    trains: &[TrainNo],
) -> Result<List<(TrainNo, TrainNo)>, AllocError>
    ensures { IfOk result (λ pairs. pairs ≡ neighbors_among design.now.station trains.now) }
{
    let mut pairs = List::new(alloc);
    for train in trains {
        add_pair(&mut pairs, *train, next_among(design, trains, *train))?;
    }
    Ok(pairs)
}

/// Whether the other train comes after this one, and is like it.
fn is_later_alike(design: &Design, train: TrainNo, other: TrainNo) -> bool
    ensures { result ≡ is_later_alike design.now.station train other }
{
    train.0 < other.0 && are_alike(design, train, other)
}

/// The first of these trains that comes after this one and is like it.
fn next_among(design: &Design, trains: &[TrainNo], train: TrainNo) -> Option<TrainNo>
    ensures { result ≡ next_among design.now.station trains.now train }
{
    trains
        .iter()
        .copied()
        .find(|other| is_later_alike(design, train, *other))
}

/// Adds a train with the next one, where there is one.
fn add_pair(
    pairs: &mut List<(TrainNo, TrainNo)>,
    train: TrainNo,
    next: Option<TrainNo>,
) -> Result<(), AllocError>
    ensures { OnOk result (pairs.new ≡ pairs.old ++ pair_with train next) }
{
    if let Some(next) = next {
        pairs.push((train, next))?;
    }
    Ok(())
}
