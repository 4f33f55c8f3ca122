//! How the plan of values is put together, step by step.

ghost use Rattle.std.specs.Prelude.{◌≡◌, true, ◌≤◌, ◌<◌, ◌-◌, ◌++◌, ◌∷◌, [], filter, length, take, IfOk, IsFalse};
ghost use Rattle.std.specs.Prelude.{IsTrue, OnOk};
ghost use Rattle.clause_spec.specs.Models.{cut_off, given_by};
ghost use Rattle.command_set.specs.Commands.{is_among};
ghost use Rattle.plan_encoding.specs.Numberings.{OfNumbering};
ghost use Rattle.plan_decoder.specs.Decoded.{is_new, says, new_in};
ghost use Rattle.plan_decoder.specs.Plans.{IsDecoded, DecodesRunnable, DecodesInAgreement, DecodesAsSaid};

use plan_encoding::Numbering;
use rail_base::list::List;
use rail_base::plan::{Command, Plan};
use sat_core::Assignment;
use std::alloc::{AllocError, Global};

/// The plan that values of a base's variables give: each step holds the commands that are given by it and not by the
/// one before, by train and then by route, and empty steps at the end are cut off. The time is linear in the commands
/// that the base speaks of times the steps.
///
/// # Errors
///
/// Want of memory.
pub fn decode(alloc: Global, numbering: &Numbering, values: &Assignment) -> Result<Plan, AllocError>
    ensures value { IsDecoded numbering.now values.now result }
    ensures runnable { DecodesRunnable numbering.now values.now result }
    ensures agrees { DecodesInAgreement numbering.now values.now result }
    ensures ends { DecodesAsSaid numbering.now values.now result }
{
    let mut steps = Vec::new(alloc);
    for step in 1..=numbering.steps().count {
        steps.push(given_in(alloc, numbering, values, step)?)?;
    }
    cut_off(&mut steps);
    Ok(Plan {
        steps: List::from_vec(steps),
    })
}

/// Whether a command is given by a step, which none is by step 0.
fn is_given(numbering: &Numbering, values: &Assignment, command: Command, step: u32) -> bool
    requires command { is_among numbering.now.commands command ≡ true }
    requires step { step ≤ numbering.now.steps }
    ensures { OfNumbering numbering.now (λ live d routes n.
        result ≡ given_by (says live d routes n values.now) command step) }
{
    if step == 0 {
        return false;
    }
    match numbering.given_lit(command, step) {
        Some(lit) => values.value(lit.var),
        None => false,
    }
}

/// Whether a command is given by a step and not by the one before.
fn is_new(numbering: &Numbering, values: &Assignment, command: Command, step: u32) -> bool
    requires command { is_among numbering.now.commands command ≡ true }
    requires at_least_one { 1 ≤ step }
    requires within { step ≤ numbering.now.steps }
    ensures { OfNumbering numbering.now (λ live d routes n. result ≡ is_new live d routes n values.now step command) }
{
    is_given(numbering, values, command, step) && !is_given(numbering, values, command, step - 1)
}

/// Adds a command, where it is new in a step.
fn add_if_new(
    numbering: &Numbering,
    values: &Assignment,
    command: Command,
    step: u32,
    commands: &mut Vec<Command>,
) -> Result<(), AllocError>
    requires command { is_among numbering.now.commands command ≡ true }
    requires at_least_one { 1 ≤ step }
    requires within { step ≤ numbering.now.steps }
    ensures { OfNumbering numbering.now (λ live d routes n. OnOk result (commands.new.items
        ≡ commands.old.items ++ filter (is_new live d routes n values.now step) (command ∷ []))) }
{
    if is_new(numbering, values, command, step) {
        commands.push(command)?;
    }
    Ok(())
}

/// The commands that are new in a step.
fn given_in(
    alloc: Global,
    numbering: &Numbering,
    values: &Assignment,
    step: u32,
) -> Result<List<Command>, AllocError>
    requires at_least_one { 1 ≤ step }
    requires within { step ≤ numbering.now.steps }
    ensures { OfNumbering numbering.now (λ live d routes n.
        IfOk result (λ cs. cs ≡ new_in live d routes n values.now step)) }
{
    let mut commands = Vec::new(alloc);
    for command in numbering.pairs().commands().commands() {
        add_if_new(numbering, values, *command, step, &mut commands)?;
    }
    Ok(List::from_vec(commands))
}

/// Whether there is a last step, and it is empty.
fn ends_empty(steps: &[List<Command>]) -> bool
    ensures yes { IsTrue result → steps.now ≡ take (length steps.now - 1) steps.now ++ [] ∷ [] }
    ensures not_empty { IsTrue result → 0 < length steps.now }
    ensures no { IsFalse result → cut_off steps.now ≡ steps.now }
{
    match steps.last() {
        Some(step) => step.is_empty(),
        None => false,
    }
}

/// Cuts off the empty steps at the end.
fn cut_off(steps: &mut Vec<List<Command>>)
    ensures { steps.new.items ≡ cut_off steps.old.items }
{
    'cut: while ends_empty(steps.as_slice()) {
        let _ = steps.pop();
    }
}
