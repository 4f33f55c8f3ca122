//! The commands of trains in steps.

ghost use Rattle.std.specs.Prelude.{◌≡◌, ◌++◌, ◌-◌, [], ◌<◌, length, position, take, IfOk, IfSome, OnOk};
ghost use Rattle.rail_base.specs.Numbering.{entry};
ghost use Rattle.rail_spec.specs.Plans.{is_train, path, routes_given};
ghost use Rattle.plan_faults.specs.Commands.{command_number};

use rail_base::list::List;
use rail_base::names::entry;
use rail_base::plan::{Command, Plan};
use rail_base::route::RouteNo;
use rail_base::station::TrainNo;
use std::alloc::{AllocError, Global};

/// Appends the routes that a step gives to a train.
fn push_given(routes: &mut Vec<RouteNo>, step: &[Command], train: TrainNo) -> Result<(), AllocError>
    ensures { OnOk result (routes.new.items ≡ routes.old.items ++ routes_given train step.now) }
{
    for command in step {
        if command.train == train {
            routes.push(command.route)?;
        }
    }
    Ok(())
}

/// The routes that steps give to a train.
fn path_of(
    alloc: Global,
    steps: &[List<Command>],
    train: TrainNo,
) -> Result<Vec<RouteNo>, AllocError>
    ensures { IfOk result (λ routes. routes.items ≡ path steps.now train) }
{
    let mut routes = Vec::new(alloc);
    for step in steps {
        push_given(&mut routes, step.as_slice(), train)?;
    }
    Ok(routes)
}

/// The steps before that of a number, counted from 1.
fn steps_before(steps: &[List<Command>], number: usize) -> &[List<Command>]
    ensures { result.now ≡ take (number - 1) steps.now }
{
    let many = number.saturating_sub(1);
    if many < steps.len() {
        &steps[..many]
    } else {
        steps
    }
}

/// The routes that a train is given before the step of a number.
pub fn path_before(
    alloc: Global,
    plan: &Plan,
    train: TrainNo,
    number: usize,
) -> Result<Vec<RouteNo>, AllocError>
    ensures { IfOk result (λ routes. routes.items ≡ path (take (number - 1) plan.now.steps) train) }
{
    path_of(alloc, steps_before(plan.steps.as_slice(), number), train)
}

/// The commands of the step of a number; none where there is no such step.
pub fn step_at(plan: &Plan, number: usize) -> &[Command]
    ensures { result.now ≡ entry [] plan.now.steps number }
{
    match entry(plan.steps.as_slice(), number) {
        Some(step) => step.as_slice(),
        None => &[],
    }
}

/// The routes that the step of a number gives to a train.
pub fn given_in(
    alloc: Global,
    plan: &Plan,
    train: TrainNo,
    number: usize,
) -> Result<Vec<RouteNo>, AllocError>
    ensures { IfOk result (λ routes. routes.items ≡ routes_given train (entry [] plan.now.steps number)) }
{
    let mut routes = Vec::new(alloc);
    push_given(&mut routes, step_at(plan, number), train)?;
    Ok(routes)
}

/// The place of the first command that a step has for a train.
fn place_of(step: &[Command], train: TrainNo) -> Option<usize>
    ensures place { result ≡ position (λ c. is_train c.train train) step.now }
    ensures inside { IfSome result (λ index. index < length step.now) }
{
    step.iter().position(|command| command.train.0 == train.0)
}

/// The number, counted from 1, of the first command that a step has for a train.
pub fn command_number(step: &[Command], train: TrainNo) -> Option<usize>
    ensures { result ≡ command_number step.now train }
{
    match place_of(step, train) {
        Some(index) => Some(index + 1),
        None => None,
    }
}
