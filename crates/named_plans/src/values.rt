//! A step of a plan as a value of JSON.

ghost use Rattle.std.specs.Prelude.{◌≡◌, [], ◌∷◌, ◌++◌, IfOk, OnOk, filter, map};
ghost use Rattle.serde_json.specs.Data.{array, string};
ghost use Rattle.serde_json.specs.View.{items_of, view};
ghost use Rattle.rail_base.specs.Routes.{IsRoute};
ghost use Rattle.rail_base.specs.Stations.{IsTrain, train_of};
ghost use Rattle.rail_plan.specs.Named.{HaveRoutes};
ghost use Rattle.rail_spec.specs.Plans.{is_train};
ghost use Rattle.rail_spec.specs.Track.{routes_of};
ghost use Rattle.named_plans.specs.Numbered.{all_shown};
ghost use Rattle.named_plans.specs.Text.{command_value, step_value};

use plan_names::names_value;
use rail_base::design::Design;
use rail_base::list::{List, Name};
use rail_base::plan::Command;
use rail_base::station::TrainNo;
use serde_json::{Value, json};
use std::alloc::{AllocError, Global};
use std::str;

/// The name of a train, which is letters, digits, `_` and `-`.
fn name_of(design: &Design, train: TrainNo) -> &str
    requires { IsTrain design.now.station train }
    ensures { result.now ≡ (train_of design.now.station train).name }
{
    str::from_utf8(design.train(train).name.as_bytes()).unwrap()
}

/// A command: the name of its train and the names of its route.
fn command_value(
    alloc: Global,
    design: &Design,
    shown: &[List<Name>],
    command: Command,
) -> Result<Value, AllocError>
    requires train { IsTrain design.now.station command.train }
    requires route { IsRoute (routes_of design.now.station) command.route }
    requires shown { shown.now ≡ all_shown design.now.station }
    ensures { IfOk result (λ v. view v ≡ command_value design.now.station command) }
{
    let names = names_value(alloc, shown[command.route.0 as usize - 1].as_slice())?;
    two_values(alloc, name_of(design, command.train), names)
}

/// A text and a value.
fn two_values(alloc: Global, text: &str, value: Value) -> Result<Value, AllocError>
    ensures { IfOk result (λ v. view v ≡ array (items_of (string text.now ∷ view value ∷ []))) }
{
    json!(in alloc; [text, value])
}

/// Appends the commands that a step gives to a train.
fn put_commands(
    alloc: Global,
    design: &Design,
    shown: &[List<Name>],
    step: &[Command],
    train: TrainNo,
    values: &mut Vec<Value>,
) -> Result<(), AllocError>
    requires train { IsTrain design.now.station train }
    requires routes { HaveRoutes (routes_of design.now.station) step.now }
    requires shown { shown.now ≡ all_shown design.now.station }
    ensures { OnOk result (map view values.new.items
        ≡ map view values.old.items
        ++ map (command_value design.now.station) (filter (λ c. is_train c.train train) step.now)) }
{
    for command in step {
        if command.train == train {
            let value = command_value(alloc, design, shown, *command)?;
            values.push(value)?;
        }
    }
    Ok(())
}

/// The commands of a step, in file order of their trains.
pub(crate) fn step_value(
    alloc: Global,
    design: &Design,
    shown: &[List<Name>],
    step: &[Command],
) -> Result<Value, AllocError>
    requires routes { HaveRoutes (routes_of design.now.station) step.now }
    requires shown { shown.now ≡ all_shown design.now.station }
    ensures { IfOk result (λ v. view v ≡ step_value design.now.station step.now) }
{
    let mut values = Vec::new(alloc);
    for index in 0..design.station.trains.len() {
        let train = TrainNo(index as u32 + 1);
        put_commands(alloc, design, shown, step, train, &mut values)?;
    }
    Ok(Value::Array(values))
}
