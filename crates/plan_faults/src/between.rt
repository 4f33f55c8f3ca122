//! The commands that a train is given from one on, in the steps before another, and how much track they give.

ghost use Rattle.std.specs.Prelude.{◌≡◌, ◌+◌, ◌++◌, ◌==◌, filter, map, IfOk, OnOk};
ghost use Rattle.rail_base.specs.Stations.{train_length};
ghost use Rattle.rail_base.specs.Routes.{route_at};
ghost use Rattle.rail_spec.specs.Plans.{can_clear, commands, given_between};
ghost use Rattle.rail_plan.specs.Holds.{rest_after};
ghost use Rattle.plan_faults.specs.Kept.{is_given_between, lacking_mm, wanted_mm};

use crate::routes::{exits, length_of, release_of};
use interlocking::Interlocking;
use rail_base::design::Design;
use rail_base::list::List;
use rail_base::names::entry;
use rail_base::plan::{Command, Plan};
use rail_base::route::RouteTable;
use rail_base::station::{SectionNo, TrainNo};
use rail_plan::paths::step_of;
use std::alloc::{AllocError, Global};

/// Whether a command is of the train of another, from that one on, in a step before that of a third.
fn is_given_between(plan: &Plan, first: Command, last: Command, command: Command) -> bool
    ensures { result ≡ is_given_between plan.now.steps first last command }
{
    command.train.0 == first.train.0
        && step_of(plan, first) <= step_of(plan, command)
        && step_of(plan, command) < step_of(plan, last)
}

/// Appends the commands of a step that are given between the two.
fn push_between(
    given: &mut Vec<Command>,
    plan: &Plan,
    step: &[Command],
    first: Command,
    last: Command,
) -> Result<(), AllocError>
    ensures { OnOk result
        (given.new.items ≡ given.old.items ++ filter (is_given_between plan.now.steps first last) step.now) }
{
    for command in step {
        if is_given_between(plan, first, last, *command) {
            given.push(*command)?;
        }
    }
    Ok(())
}

/// The commands that are given between the two.
pub fn given_between(
    alloc: Global,
    plan: &Plan,
    first: Command,
    last: Command,
) -> Result<Vec<Command>, AllocError>
    ensures { IfOk result (λ given. given.items ≡ given_between plan.now.steps first last) }
{
    let mut given = Vec::new(alloc);
    for step in plan.steps.as_slice() {
        push_between(&mut given, plan, step.as_slice(), first, last)?;
    }
    Ok(given)
}

/// How much of a length is left after the routes of commands, in mm: nothing where one of them exits.
#[tactic(auto, using(rail_plan::proofs::Resting::rest_none))]
pub fn rest_after(routes: &RouteTable, given: &[Command], length: u128) -> u128
    ensures { result ≡ rest_after length (map (λ g. route_at routes.now g.route) given.now) }
{
    let mut left = length;
    for command in given {
        if exits(routes, command.route) {
            return 0;
        }
        left = left.saturating_sub(u128::from(length_of(routes, command.route)));
    }
    left
}

/// How long a train is, in mm.
fn train_length(design: &Design, train: TrainNo) -> u32
    ensures { result ≡ train_length design.now.station train }
{
    let vehicle = match entry(design.station.trains.as_slice(), train.0 as usize) {
        Some(train) => train.vehicle.0,
        None => 0,
    };
    match entry(design.station.vehicles.as_slice(), vehicle as usize) {
        Some(vehicle) => vehicle.length_mm,
        None => 0,
    }
}

/// How much track the train of a command is to be given from the start of its route on, until its tail has left a
/// section, in mm.
pub fn wanted_mm(interlocking: &Interlocking, command: Command, section: SectionNo) -> u128
    ensures { let i = interlocking.now in result ≡ wanted_mm i.design.station i.routes command section }
{
    let release = release_of(&interlocking.routes, command.route, section);
    let length = train_length(&interlocking.design, command.train);
    u128::from(release) + u128::from(length)
}

/// How much of that it is not given before another command, in mm.
pub fn lacking_mm(
    alloc: Global,
    interlocking: &Interlocking,
    plan: &Plan,
    first: Command,
    last: Command,
    section: SectionNo,
) -> Result<u128, AllocError>
    ensures { let i = interlocking.now in IfOk result (λ lacking.
        lacking ≡ lacking_mm i.design.station i.routes plan.now.steps first last section) }
{
    let given = given_between(alloc, plan, first, last)?;
    let wanted = wanted_mm(interlocking, first, section);
    Ok(rest_after(&interlocking.routes, given.as_slice(), wanted))
}

/// Whether the train of a command is given so much track before another that it can leave a section.
pub fn can_clear(
    alloc: Global,
    interlocking: &Interlocking,
    plan: &Plan,
    first: Command,
    last: Command,
    section: SectionNo,
) -> Result<bool, AllocError>
    ensures { let i = interlocking.now in IfOk result (λ answer.
        answer ≡ can_clear i.design.station i.routes plan.now.steps first last section) }
{
    Ok(lacking_mm(alloc, interlocking, plan, first, last, section)? == 0)
}
