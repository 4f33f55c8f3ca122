//! The lines behind that which says that a plan is refused.

ghost use Rattle.std.specs.Prelude.{◌≡◌, ◌++◌, option_map, IfOk, OnOk};
ghost use Rattle.design_places.specs.Shown.{shown};
ghost use Rattle.rail_outside.specs.Lines.{lines_of};
ghost use Rattle.rail_plan.specs.Text.{json_of};
ghost use Rattle.rail_text.specs.Added.{AddsLines};
ghost use Rattle.serde_json.specs.View.{view};
ghost use Rattle.plan_fault_words.specs.Faults.{IsPlaceOfCommand, SaysFault, SaysOfPlan, SaysOfValue, SaysRefused};
ghost use Rattle.plan_fault_words.specs.Faults.{command_of_place, fault_lines, number_in, steps_line};

use crate::unread::unread_lines;
use design_places::push_spot;
use interlocking::Interlocking;
use plan_faults::{command_number, reason_in, step_at};
use plan_places::command_place;
use plan_reason_words::{push_kept, push_reason, push_unknown};
use plan_values::{commands_in, json_value, written_in};
use rail_base::plan::Plan;
use rail_base::station::TrainNo;
use rail_plan::place::PlanPlace;
use rail_text::put_number;
use serde_json::Value;
use std::alloc::{AllocError, Global};

/// How many steps a plan has, and how many it may have.
fn steps_line(alloc: Global, plan: &Plan) -> Result<Vec<u8>, AllocError>
    ensures { IfOk result (λ line. line.items ≡ steps_line plan.now.steps) }
{
    let mut line = Vec::new(alloc);
    line.extend_from_slice(b"this plan has ")?;
    put_number(&mut line, plan.steps.len() as u64)?;
    line.extend_from_slice(b" steps, and 256 are allowed\n")?;
    Ok(line)
}

/// Appends what is wrong at a place of a plan.
fn push_fault(
    alloc: Global,
    interlocking: &Interlocking,
    value: &Value,
    plan: &Plan,
    place: PlanPlace,
    lines: &mut Vec<Vec<u8>>,
) -> Result<(), AllocError>
    ensures { let i = interlocking.now in OnOk result (AddsLines lines.old lines.new
        (fault_lines i.design.station i.routes (view value.now) plan.now.steps place)) }
{
    match place {
        PlanPlace::File => Ok(()),
        PlanPlace::Command { step, command } => {
            push_unknown(alloc, interlocking, written_in(value, step, command), lines)
        }
        PlanPlace::Train { step, train } => {
            let reason = reason_in(alloc, interlocking, plan, train, step)?;
            push_reason(alloc, interlocking, train, reason, lines)
        }
        PlanPlace::Step { .. } => {
            let line = steps_line(alloc, plan)?;
            lines.push(line)?;
            Ok(())
        }
        PlanPlace::Section {
            step,
            train,
            section,
        } => push_kept(alloc, interlocking, plan, step, train, section, lines),
    }
}

/// The command that a step has for a train, by the step and its number in the step.
fn number_in(plan: &Plan, step: usize, train: TrainNo) -> Option<(usize, usize)>
    ensures { result ≡ number_in plan.now.steps step train }
{
    match command_number(step_at(plan, step), train) {
        Some(command) => Some((step, command)),
        None => None,
    }
}

/// The command that a place is about, likewise.
fn command_of_place(plan: &Plan, place: PlanPlace) -> Option<(usize, usize)>
    ensures { result ≡ command_of_place plan.now.steps place }
{
    match place {
        PlanPlace::File => None,
        PlanPlace::Command { step, command } => Some((step, command)),
        PlanPlace::Train { step, train } => number_in(plan, step, train),
        PlanPlace::Step { .. } => None,
        PlanPlace::Section { step, train, .. } => number_in(plan, step, train),
    }
}

/// Where the command of a place begins in the text, where that is found.
fn place_of_command<'a>(
    alloc: Global,
    bytes: &'a [u8],
    value: &Value,
    command: Option<(usize, usize)>,
) -> Result<Option<&'a [u8]>, AllocError>
    ensures { IfOk result (λ rest.
        IsPlaceOfCommand bytes.now (view value.now) command (option_map (λ s. s.now) rest)) }
{
    match command {
        Some((step, command)) => command_place(alloc, bytes, value, step, command),
        None => Ok(None),
    }
}

/// Appends where the rest of a text begins, where there is one.
fn push_shown(
    alloc: Global,
    bytes: &[u8],
    rest: Option<&[u8]>,
    lines: &mut Vec<Vec<u8>>,
) -> Result<(), AllocError>
    ensures { OnOk result (AddsLines lines.old lines.new (shown bytes.now (option_map (λ s. s.now) rest.entry))) }
{
    match rest {
        Some(rest) => push_spot(alloc, bytes, rest, lines),
        None => Ok(()),
    }
}

/// The rest of a text from a command on, shown, and what is wrong with the command.
fn lines_from(
    alloc: Global,
    interlocking: &Interlocking,
    bytes: &[u8],
    rest: Option<&[u8]>,
    value: &Value,
    plan: &Plan,
    place: PlanPlace,
) -> Result<Vec<Vec<u8>>, AllocError>
    ensures { let i = interlocking.now in IfOk result (λ lines.
        lines_of lines.items ≡ shown bytes.now (option_map (λ s. s.now) rest.entry)
        ++ fault_lines i.design.station i.routes (view value.now) plan.now.steps place) }
{
    let mut lines = Vec::new(alloc);
    push_shown(alloc, bytes, rest, &mut lines)?;
    push_fault(alloc, interlocking, value, plan, place, &mut lines)?;
    Ok(lines)
}

/// Where the command of a place begins, and what is wrong with it.
fn lines_of_plan(
    alloc: Global,
    interlocking: &Interlocking,
    bytes: &[u8],
    value: &Value,
    plan: &Plan,
    place: PlanPlace,
) -> Result<Vec<Vec<u8>>, AllocError>
    ensures { let i = interlocking.now in IfOk result (λ lines.
        SaysOfPlan i.design.station i.routes bytes.now (view value.now) plan.now.steps place (lines_of lines.items)) }
{
    let rest = place_of_command(alloc, bytes, value, command_of_place(plan, place))?;
    let lines = lines_from(alloc, interlocking, bytes, rest, value, plan, place)?;
    Ok(lines)
}

/// The same of the commands in a value.
fn value_lines(
    alloc: Global,
    interlocking: &Interlocking,
    bytes: &[u8],
    value: &Value,
    place: PlanPlace,
) -> Result<Vec<Vec<u8>>, AllocError>
    ensures { let i = interlocking.now in IfOk result (λ lines.
        SaysFault i.design.station i.routes bytes.now (view value.now) place (lines_of lines.items)) }
{
    let plan = commands_in(alloc, &interlocking.design, &interlocking.routes, value)?;
    lines_of_plan(alloc, interlocking, bytes, value, &plan, place)
}

/// The same of a text that may be no value.
fn lines_at(
    alloc: Global,
    interlocking: &Interlocking,
    bytes: &[u8],
    place: PlanPlace,
) -> Result<Vec<Vec<u8>>, AllocError>
    ensures { let i = interlocking.now in IfOk result (λ lines.
        SaysOfValue i.design.station i.routes bytes.now place (json_of bytes.now) (lines_of lines.items)) }
{
    match json_value(alloc, bytes)? {
        Some(value) => value_lines(alloc, interlocking, bytes, &value, place),
        None => unread_lines(alloc, bytes),
    }
}

/// The lines that say what is wrong with a plan that is refused at a place: for the file as a whole where it begins to
/// be no JSON, or how its shape differs from that of a plan; for another place where the command stands that it is
/// about, that line of the text, and what is wrong there. An error is want of memory.
pub fn plan_fault_lines(
    alloc: Global,
    interlocking: &Interlocking,
    bytes: &[u8],
    place: PlanPlace,
) -> Result<Vec<Vec<u8>>, AllocError>
    ensures { let i = interlocking.now in IfOk result (λ lines.
        SaysRefused i.design.station i.routes bytes.now place (lines_of lines.items)) }
{
    match place {
        PlanPlace::File => unread_lines(alloc, bytes),
        _ => lines_at(alloc, interlocking, bytes, place),
    }
}
