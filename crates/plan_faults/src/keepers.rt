//! Which command keeps another from a section.

ghost use Rattle.std.specs.Prelude.{◌≡◌, find, IfOk};
ghost use Rattle.rail_spec.specs.Plans.{commands};
ghost use Rattle.rail_plan.specs.Executable.{keeps_from};
ghost use Rattle.plan_faults.specs.Kept.{keeper};

use crate::between::can_clear;
use crate::routes::{goes_over, has_section};
use interlocking::Interlocking;
use rail_base::list::List;
use rail_base::plan::{Command, Plan};
use rail_base::station::SectionNo;
use rail_plan::paths::step_of;
use std::alloc::{AllocError, Global};

/// Whether another command keeps a command from a section: for another train, it has it too in the same step, or goes
/// over it in an earlier one and can't clear it.
fn keeps_from(
    alloc: Global,
    interlocking: &Interlocking,
    plan: &Plan,
    command: Command,
    section: SectionNo,
    other: Command,
) -> Result<bool, AllocError>
    ensures { let i = interlocking.now in IfOk result (λ answer.
        answer ≡ keeps_from i.design.station i.routes plan.now.steps command section other) }
{
    if other.train.0 == command.train.0 {
        return Ok(false);
    }
    let routes = &interlocking.routes;
    let there = step_of(plan, other);
    let here = step_of(plan, command);
    if there == here {
        return Ok(has_section(routes, other.route, section));
    }
    if here < there || !goes_over(routes, other.route, section) {
        return Ok(false);
    }
    Ok(!can_clear(alloc, interlocking, plan, other, command, section)?)
}

/// The first command of a step that keeps a command from a section.
fn keeper_in(
    alloc: Global,
    interlocking: &Interlocking,
    plan: &Plan,
    command: Command,
    section: SectionNo,
    step: &[Command],
) -> Result<Option<Command>, AllocError>
    ensures { let i = interlocking.now in IfOk result (λ found.
        found ≡ find (keeps_from i.design.station i.routes plan.now.steps command section) step.now) }
{
    for other in step {
        if keeps_from(alloc, interlocking, plan, command, section, *other)? {
            return Ok(Some(*other));
        }
    }
    Ok(None)
}

/// The first command of steps that does.
fn keeper_among(
    alloc: Global,
    interlocking: &Interlocking,
    plan: &Plan,
    command: Command,
    section: SectionNo,
    steps: &[List<Command>],
) -> Result<Option<Command>, AllocError>
    ensures { let i = interlocking.now in IfOk result (λ found.
        found ≡ find (keeps_from i.design.station i.routes plan.now.steps command section) (commands steps.now)) }
{
    for step in steps {
        let found = keeper_in(alloc, interlocking, plan, command, section, step.as_slice())?;
        if found.is_some() {
            return Ok(found);
        }
    }
    Ok(None)
}

/// The first command of a plan that does.
pub fn keeper(
    alloc: Global,
    interlocking: &Interlocking,
    plan: &Plan,
    command: Command,
    section: SectionNo,
) -> Result<Option<Command>, AllocError>
    ensures { let i = interlocking.now in IfOk result (λ found.
        found ≡ keeper i.design.station i.routes plan.now.steps command section) }
{
    keeper_among(
        alloc,
        interlocking,
        plan,
        command,
        section,
        plan.steps.as_slice(),
    )
}
