//! The commands of a plan's text whose train and route are there.

ghost use Rattle.std.specs.Prelude.{◌≡◌, ◌<◌, ◌^◌, IfOk, bytes_eq, length, map, position};
ghost use Rattle.serde_json.specs.View.{view};
ghost use Rattle.rail_plan.specs.Reading.{read_in, read_steps, route_numbered, seen, train_named, train_names};
ghost use Rattle.plan_values.specs.Commands.{plan_in};

use crate::values::{command_of, steps_in, values_of};
use rail_base::design::Design;
use rail_base::list::List;
use rail_base::plan::{Command, Plan};
use rail_base::route::{RouteNo, RouteTable};
use rail_base::station::{Train, TrainNo};
use serde_json::Value;
use std::alloc::{AllocError, Global};

/// The place of the train of a name.
fn place_of(trains: &[Train], name: &[u8]) -> Option<usize>
    ensures { result ≡ position (λ t. bytes_eq name.now t.name) trains.now }
{
    trains
        .iter()
        .position(|train| name == train.name.as_bytes())
}

/// The train of a name.
pub fn train_named(design: &Design, name: &[u8]) -> Option<TrainNo>
    ensures { result ≡ train_named (train_names design.now.station) name.now }
{
    let index = place_of(design.station.trains.as_slice(), name)?;
    Some(TrainNo(index as u32 + 1))
}

/// The route of a number, where there are `many`.
fn route_numbered(many: usize, number: u64) -> Option<RouteNo>
    requires { many < 2 ^ 32 }
    ensures { result ≡ route_numbered many number }
{
    if 1 <= number && number <= many as u64 {
        Some(RouteNo(number as u32))
    } else {
        None
    }
}

/// The command in a value, where its train and its route are there.
fn command_at(design: &Design, many: usize, value: &Value) -> Option<Command>
    requires { many < 2 ^ 32 }
    ensures { result ≡ seen (train_names design.now.station) many (view value.now) }
{
    let (train, route) = command_of(value)?;
    let train = train_named(design, train.as_bytes())?;
    let route = route_numbered(many, route)?;
    Some(Command { train, route })
}

/// The commands of a step.
fn read_step(
    alloc: Global,
    design: &Design,
    many: usize,
    values: &[Value],
) -> Result<List<Command>, AllocError>
    requires { many < 2 ^ 32 }
    ensures { IfOk result (λ step. step ≡ read_in (train_names design.now.station) many (map view values.now)) }
{
    let mut commands = List::new(alloc);
    for value in values {
        if let Some(command) = command_at(design, many, value) {
            commands.push(command)?;
        }
    }
    Ok(commands)
}

/// The commands of all steps.
fn read_steps(
    alloc: Global,
    design: &Design,
    many: usize,
    values: &[Value],
) -> Result<List<List<Command>>, AllocError>
    requires { many < 2 ^ 32 }
    ensures { IfOk result (λ steps. steps ≡ read_steps (train_names design.now.station) many (map view values.now)) }
{
    let mut steps = List::new(alloc);
    for value in values {
        let step = read_step(alloc, design, many, values_of(value))?;
        steps.push(step)?;
    }
    Ok(steps)
}

/// The plan of a text, without the commands whose train or route is not there.
pub fn commands_in(
    alloc: Global,
    design: &Design,
    routes: &RouteTable,
    value: &Value,
) -> Result<Plan, AllocError>
    requires { length routes.now < 2 ^ 32 }
    ensures { IfOk result (λ plan. plan.steps ≡ plan_in design.now.station routes.now (view value.now)) }
{
    let steps = read_steps(alloc, design, routes.len(), steps_in(value))?;
    Ok(Plan { steps })
}
