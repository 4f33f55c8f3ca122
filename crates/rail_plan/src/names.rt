//! The trains and the routes that a text names.

ghost use Rattle.std.specs.Prelude.{◌≡◌, ◌≤◌, ◌<◌, ◌^◌, IfOk, length, map};
ghost use Rattle.serde_json.specs.View.{view};
ghost use Rattle.rail_plan.specs.Reading.{route_numbered, seen, train_named, train_names};

use crate::text::command_of;
use indexmap::IndexSet;
use rail_base::design::Design;
use rail_base::plan::Command;
use rail_base::route::RouteNo;
use rail_base::station::TrainNo;
use serde_json::Value;
use std::alloc::{AllocError, Global};

/// The names of the trains, in file order.
pub(crate) fn train_names<'a>(
    alloc: Global,
    design: &'a Design,
) -> Result<IndexSet<&'a [u8]>, AllocError>
    ensures { IfOk result (λ names. map (λ k. k.now) names.keys ≡ train_names design.now.station) }
{
    let mut names = IndexSet::new(alloc);
    for train in design.station.trains.as_slice() {
        names.insert(train.name.as_bytes())?;
    }
    Ok(names)
}

/// The command that is parsed from a value, where its train and its route are there.
pub(crate) fn command_at(names: &IndexSet<&[u8]>, many: usize, value: &Value) -> Option<Command>
    requires names { length names.now.keys ≤ 128 }
    requires below_2_32 { many < 2 ^ 32 }
    ensures { result ≡ seen (map (λ k. k.now) names.now.keys) many (view value.now) }
{
    let (train, route) = command_of(value)?;
    let train = train_named(names, train)?;
    let route = route_numbered(many, route)?;
    Some(Command { train, route })
}

/// The train of a name.
fn train_named(names: &IndexSet<&[u8]>, name: &str) -> Option<TrainNo>
    requires { length names.now.keys ≤ 128 }
    ensures { result ≡ train_named (map (λ k. k.now) names.now.keys) name.now }
{
    let index = names.get_index_of(name.as_bytes())?;
    Some(TrainNo(index as u32 + 1))
}

/// The route of a number, where there are `many`.
fn route_numbered(many: usize, number: u64) -> Option<RouteNo>
    requires { many < 2 ^ 32 }
    ensures { result ≡ route_numbered many number }
{
    if 1 <= number && number <= many as u64 {
        Some(RouteNo(number as u32))
    } else {
        None
    }
}
