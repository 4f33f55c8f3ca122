//! The paths of trains, and the order of commands.

ghost use Rattle.std.specs.Prelude.{◌≡◌, ◌++◌, IfOk, OnOk};
ghost use Rattle.std.specs.List.{list_any};
ghost use Rattle.rail_base.specs.Routes.{IsRoute};
ghost use Rattle.rail_spec.specs.Plans.{contend, is_command, path, precedes, routes_given, step_of};

use interlocking::Interlocking;
use rail_base::list::List;
use rail_base::plan::{Command, Plan};
use rail_base::route::RouteNo;
use rail_base::station::TrainNo;
use std::alloc::{AllocError, Global};

/// The routes given to a train, in step order.
pub fn path_of(alloc: Global, plan: &Plan, train: TrainNo) -> Result<Vec<RouteNo>, AllocError>
    ensures { IfOk result (λ routes. routes.items ≡ path plan.now.steps train) }
{
    let mut routes = Vec::new(alloc);
    for step in plan.steps.as_slice() {
        push_given(&mut routes, step, train)?;
    }
    Ok(routes)
}

/// The step in which a command stands, counted from 1; one past the last where it stands in none.
pub fn step_of(plan: &Plan, command: Command) -> usize
    ensures { result ≡ step_of plan.now.steps command }
{
    let mut number = 1;
    for step in plan.steps.as_slice() {
        if has_command(step, command) {
            return number;
        }
        number += 1;
    }
    number
}

/// Whether two commands are of different trains and share a section.
pub fn contend(interlocking: &Interlocking, first: Command, second: Command) -> bool
    requires first { IsRoute interlocking.now.routes first.route }
    requires second { IsRoute interlocking.now.routes second.route }
    ensures { result ≡ contend interlocking.now.routes first second }
{
    first.train != second.train && interlocking.share(first.route, second.route)
}

/// Whether a command contends with another and is given in an earlier step.
pub fn precedes(interlocking: &Interlocking, plan: &Plan, first: Command, second: Command) -> bool
    requires first { IsRoute interlocking.now.routes first.route }
    requires second { IsRoute interlocking.now.routes second.route }
    ensures { result ≡ precedes interlocking.now.routes plan.now.steps first second }
{
    contend(interlocking, first, second) && step_of(plan, first) < step_of(plan, second)
}

/// Adds the routes that a step gives to a train.
fn push_given(
    routes: &mut Vec<RouteNo>,
    step: &List<Command>,
    train: TrainNo,
) -> Result<(), AllocError>
    ensures { OnOk result (routes.new.items ≡ routes.old.items ++ routes_given train step.now) }
{
    for command in step.as_slice() {
        if command.train == train {
            routes.push(command.route)?;
        }
    }
    Ok(())
}

/// Whether a step has a command.
fn has_command(step: &List<Command>, command: Command) -> bool
    ensures { result ≡ list_any (is_command command) step.now }
{
    step.as_slice().iter().any(|other| command == *other)
}
