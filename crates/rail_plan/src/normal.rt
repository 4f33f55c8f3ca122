//! Normal plans, in which each command stands as early as it can.

ghost use Rattle.std.specs.Prelude.{◌≡◌, ◌<◌, ◌≤◌, ◌++◌, ◌↔◌, ℕ, Some, [], length, replicate};
ghost use Rattle.std.specs.Prelude.{IfOk, IsTrue, MatchOption, OnOk};
ghost use Rattle.std.specs.List.{list_any};
ghost use Rattle.rail_base.specs.declared.plan.Command.{Command};
ghost use Rattle.rail_base.specs.declared.station.TrainNo.{TrainNo};
ghost use Rattle.rail_base.specs.Routes.{IsRoute};
ghost use Rattle.rail_spec.specs.Plans.{is_train, path, precedes};
ghost use Rattle.interlocking.specs.Plans.{IsRunnable, on};
ghost use Rattle.rail_plan.specs.Named.{HaveRoutes};
ghost use Rattle.rail_plan.specs.Normal.{IsNormal};
ghost use Rattle.rail_plan.specs.Earlier.{EndsFull, IsAsGood, can_join, delay, joined, left_over};
ghost use Rattle.rail_plan.specs.WellFormed.{last_of_list};

use crate::clearance::kept_section;
use crate::holds::{Hold, no_holds, turn};
use interlocking::Interlocking;
use rail_base::list::List;
use rail_base::plan::{Command, Plan};
use rail_base::station::TrainNo;
use std::alloc::{AllocError, Global};

/// The plan with each command as early as it can stand: it runs where the plan does, and has no empty step at its end.
/// # Errors
/// Want of memory alone.
pub fn normalise(
    alloc: Global,
    interlocking: &Interlocking,
    plan: &Plan,
) -> Result<Plan, AllocError>
    requires { (n : ℕ) × IsRunnable interlocking.now n plan.now.steps }
    ensures runnable { IfOk result (λ p. (n : ℕ) → IsRunnable interlocking.now n plan.now.steps
        → IsRunnable interlocking.now n p.steps) }
    ensures paths { IfOk result (λ p. (t : TrainNo) → path p.steps t ≡ path plan.now.steps t) }
    ensures precedes { IfOk result (λ p. (e c : Command) → precedes interlocking.now.routes p.steps e c
        ≡ precedes interlocking.now.routes plan.now.steps e c) }
    ensures fewer { IfOk result (λ p. length p.steps ≤ length plan.now.steps) }
    ensures normal { IfOk result (λ p. on interlocking.now IsNormal p.steps) }
    ensures last { IfOk result (λ p. EndsFull p.steps) }
{
    let mut steps = trimmed(copy_of(alloc, &plan.steps)?);
    while let Some(earlier) = moved_up(alloc, interlocking, &steps)? {
        steps = trimmed(earlier);
    }
    Ok(Plan { steps })
}

/// A copy of steps.
fn copy_of(alloc: Global, steps: &List<List<Command>>) -> Result<List<List<Command>>, AllocError>
    ensures { IfOk result (λ copy. copy ≡ steps.now) }
{
    let mut copy = List::new(alloc);
    for step in steps.as_slice() {
        copy.push(copy_step(alloc, step)?)?;
    }
    Ok(copy)
}

/// A copy of a step.
fn copy_step(alloc: Global, step: &List<Command>) -> Result<List<Command>, AllocError>
    ensures { IfOk result (λ copy. copy ≡ step.now) }
{
    Ok(List::from_vec(step.as_slice().to_vec(alloc)?))
}

/// Whether the last step is empty.
fn ends_empty(steps: &[List<Command>]) -> bool
    ensures { IsTrue result ↔ (last_of_list steps.now ≡ Some []) }
{
    match steps.split_last() {
        Some((step, _front)) => step.is_empty(),
        None => false,
    }
}

/// The steps without the empty ones at their end.
fn trimmed(steps: List<List<Command>>) -> List<List<Command>>
    ensures front { (k : ℕ) × (steps ≡ result ++ replicate k []) }
    ensures last { EndsFull result }
{
    let mut steps = steps.into_vec();
    while ends_empty(steps.as_slice()) {
        steps.pop();
    }
    List::from_vec(steps)
}

/// Whether a step has a command of a train.
fn has_train(step: &List<Command>, train: TrainNo) -> bool
    ensures { result ≡ list_any (λ e. is_train e.train train) step.now }
{
    step.as_slice().iter().any(|command| command.train == train)
}

/// Whether a step has no command of the train of this one, and nothing keeps it from a section there.
fn can_join(
    interlocking: &Interlocking,
    holds: &[Hold],
    step: &List<Command>,
    command: Command,
) -> bool
    requires every_section { length interlocking.now.design.station.sections ≤ length holds.now }
    requires step { HaveRoutes interlocking.now.routes step.now }
    requires route { IsRoute interlocking.now.routes command.route }
    ensures { result ≡ can_join interlocking.now.routes holds.now step.now command }
{
    if has_train(step, command.train) {
        return false;
    }
    kept_section(interlocking, holds, step, command).is_none()
}

/// Adds to the last step the commands of the next that can join it. The others are the answer.
fn join(
    alloc: Global,
    interlocking: &Interlocking,
    holds: &[Hold],
    last: &mut List<Command>,
    step: &List<Command>,
) -> Result<List<Command>, AllocError>
    requires every_section { length interlocking.now.design.station.sections ≤ length holds.now }
    requires last { HaveRoutes interlocking.now.routes last.old }
    requires step { HaveRoutes interlocking.now.routes step.now }
    ensures joined { OnOk result (last.new ≡ joined interlocking.now.routes holds.now last.old step.now) }
    ensures left { IfOk result (λ left. left ≡ left_over interlocking.now.routes holds.now last.old step.now) }
{
    let mut left = List::new(alloc);
    for command in step.as_slice() {
        if can_join(interlocking, holds, last, *command) {
            last.push(*command)?;
        } else {
            left.push(*command)?;
        }
    }
    Ok(left)
}

/// The steps with each command that can join the step before its own moved there, in one round from the first step on.
/// None where no command can.
fn moved_up(
    alloc: Global,
    interlocking: &Interlocking,
    steps: &List<List<Command>>,
) -> Result<Option<List<List<Command>>>, AllocError>
    requires { (n : ℕ) × IsRunnable interlocking.now n steps.now }
    ensures { IfOk result (λ moved. MatchOption moved (on interlocking.now IsNormal steps.now)
        (λ earlier. on interlocking.now IsAsGood steps.now earlier × (delay earlier < delay steps.now))) }
{
    let Some((first, others)) = steps.as_slice().split_first() else {
        return Ok(None);
    };
    let mut done = List::new(alloc);
    let mut holds = no_holds();
    let mut last = copy_step(alloc, first)?;
    let mut is_moved = false;
    for step in others {
        let left = join(alloc, interlocking, &holds, &mut last, step)?;
        if left.len() < step.len() {
            is_moved = true;
        }
        turn(interlocking, &last, &mut holds);
        done.push(last)?;
        last = left;
    }
    done.push(last)?;
    Ok(if is_moved { Some(done) } else { None })
}
