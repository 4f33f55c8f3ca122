//! A plan as a value of JSON.

ghost use Rattle.std.specs.Prelude.{◌≡◌, ◌++◌, IfOk, OnOk, filter, map};
ghost use Rattle.serde_json.specs.View.{view};
ghost use Rattle.rail_base.specs.Stations.{IsTrain, train_of};
ghost use Rattle.rail_spec.specs.Plans.{is_train};
ghost use Rattle.plan_text.specs.Text.{command_value, plan_value, step_value};

use rail_base::design::Design;
use rail_base::list::List;
use rail_base::plan::{Command, Plan};
use rail_base::station::TrainNo;
use serde_json::{Value, json};
use std::alloc::{AllocError, Global};
use std::str;

/// The plan: an object with the one key `steps`.
pub(crate) fn plan_value(alloc: Global, design: &Design, plan: &Plan) -> Result<Value, AllocError>
    ensures { IfOk result (λ v. view v ≡ plan_value design.now.station plan.now.steps) }
{
    let steps = steps_values(alloc, design, plan.steps.as_slice())?;
    json!(in alloc; {"steps": steps})
}

/// The name of a train, which is letters, digits, `_` and `-`.
fn name_of(design: &Design, train: TrainNo) -> &str
    requires { IsTrain design.now.station train }
    ensures { result.now ≡ (train_of design.now.station train).name }
{
    str::from_utf8(design.train(train).name.as_bytes()).unwrap()
}

/// A command: the name of its train and the number of its route.
fn command_value(alloc: Global, design: &Design, command: Command) -> Result<Value, AllocError>
    requires { IsTrain design.now.station command.train }
    ensures { IfOk result (λ v. view v ≡ command_value design.now.station command) }
{
    let name = name_of(design, command.train);
    json!(in alloc; [name, command.route.0])
}

/// Appends the commands that a step gives to a train.
fn put_commands(
    alloc: Global,
    design: &Design,
    step: &[Command],
    train: TrainNo,
    values: &mut Vec<Value>,
) -> Result<(), AllocError>
    requires { IsTrain design.now.station train }
    ensures { OnOk result (map view values.new.items
        ≡ map view values.old.items
        ++ map (command_value design.now.station) (filter (λ c. is_train c.train train) step.now)) }
{
    for command in step {
        if command.train == train {
            let value = command_value(alloc, design, *command)?;
            values.push(value)?;
        }
    }
    Ok(())
}

/// The commands of a step, in file order of their trains.
fn step_value(alloc: Global, design: &Design, step: &[Command]) -> Result<Value, AllocError>
    ensures { IfOk result (λ v. view v ≡ step_value design.now.station step.now) }
{
    let mut values = Vec::new(alloc);
    for index in 0..design.station.trains.len() {
        let train = TrainNo(index as u32 + 1);
        put_commands(alloc, design, step, train, &mut values)?;
    }
    Ok(Value::Array(values))
}

/// The steps, in order.
fn steps_values(
    alloc: Global,
    design: &Design,
    steps: &[List<Command>],
) -> Result<Vec<Value>, AllocError>
    ensures { IfOk result (λ values. map view values.items ≡ map (step_value design.now.station) steps.now) }
{
    let mut values = Vec::new(alloc);
    for step in steps {
        let value = step_value(alloc, design, step.as_slice())?;
        values.push(value)?;
    }
    Ok(values)
}
