//! The line that says which train keeps another from a section, and by how much.

ghost use Rattle.std.specs.Prelude.{◌≡◌, codes, IfOk, OnOk};
ghost use Rattle.rail_base.specs.Numbering.{first_of_list};
ghost use Rattle.rail_text.specs.Added.{AddsLines, AddsText};
ghost use Rattle.plan_reason_words.specs.Kept.{by_text, command_lines, given_text, has_text, keeper_lines, kept_line};
ghost use Rattle.plan_reason_words.specs.Kept.{kept_lines, lacking_text, missing_text, section_text, wanted_text};
ghost use Rattle.plan_reason_words.specs.Kept.{why_text};

use crate::numbers::{put_step, put_wide, put_wide_between};
use crate::pieces::{put_after, put_section_name, put_train};
use interlocking::Interlocking;
use plan_faults::{given_in, keeper, lacking_mm, wanted_mm};
use rail_base::plan::{Command, Plan};
use rail_base::route::RouteNo;
use rail_base::station::{SectionNo, TrainNo};
use rail_plan::paths::step_of;
use std::alloc::{AllocError, Global};

/// Appends that a train has a section.
fn put_section(
    text: &mut Vec<u8>,
    interlocking: &Interlocking,
    train: TrainNo,
    section: SectionNo,
) -> Result<(), AllocError>
    ensures { let d = interlocking.now.design.station in
        OnOk result (AddsText text.old text.new (section_text d train section)) }
{
    put_train(text, interlocking, train)?;
    put_section_name(text, interlocking, b" has section ", section)?;
    Ok(())
}

/// Appends by which command it is.
fn put_by(
    text: &mut Vec<u8>,
    interlocking: &Interlocking,
    plan: &Plan,
    command: Command,
) -> Result<(), AllocError>
    ensures { let i = interlocking.now in OnOk result (AddsText text.old text.new
        (by_text i.design.station i.routes plan.now.steps command)) }
{
    put_after(text, interlocking, b" by route ", command.route)?;
    put_step(text, b" of step ", step_of(plan, command))?;
    Ok(())
}

/// Appends by which command a train has a section.
fn put_has(
    text: &mut Vec<u8>,
    interlocking: &Interlocking,
    plan: &Plan,
    command: Command,
    section: SectionNo,
) -> Result<(), AllocError>
    ensures { let i = interlocking.now in OnOk result (AddsText text.old text.new
        (has_text i.design.station i.routes plan.now.steps command section)) }
{
    put_section(text, interlocking, command.train, section)?;
    put_by(text, interlocking, plan, command)?;
    Ok(())
}

/// Appends how much track is wanted.
fn put_wanted(text: &mut Vec<u8>, wanted: u128) -> Result<(), AllocError>
    ensures { OnOk result (AddsText text.old text.new (wanted_text wanted)) }
{
    put_wide_between(
        text,
        b", and until it has left the section ",
        wanted,
        b" mm of track from the start of that route are wanted: ",
    )
}

/// Appends how much track is given before a step.
fn put_given(text: &mut Vec<u8>, given: u128, step: usize) -> Result<(), AllocError>
    ensures { OnOk result (AddsText text.old text.new (given_text given step)) }
{
    put_wide(text, given)?;
    put_step(text, b" mm are given before step ", step)?;
    Ok(())
}

/// Appends how much track is missing.
fn put_lacking(text: &mut Vec<u8>, lacking: u128) -> Result<(), AllocError>
    ensures { OnOk result (AddsText text.old text.new (lacking_text lacking)) }
{
    put_wide_between(text, b", and ", lacking, b" mm are missing")
}

/// Appends how much track is given and how much is missing.
fn put_missing(
    text: &mut Vec<u8>,
    wanted: u128,
    lacking: u128,
    step: usize,
) -> Result<(), AllocError>
    ensures { OnOk result (AddsText text.old text.new (missing_text wanted lacking step)) }
{
    put_wanted(text, wanted)?;
    put_given(text, wanted.saturating_sub(lacking), step)?;
    put_lacking(text, lacking)?;
    Ok(())
}

/// Appends that the two commands stand in one step.
fn put_one_step(text: &mut Vec<u8>) -> Result<(), AllocError>
    ensures { OnOk result (AddsText text.old text.new
        (codes ", and two trains can't be given a section in one step")) }
{
    text.extend_from_slice(b", and two trains can't be given a section in one step")
}

/// Appends why a command keeps another from a section.
fn put_why(
    alloc: Global,
    text: &mut Vec<u8>,
    interlocking: &Interlocking,
    plan: &Plan,
    first: Command,
    last: Command,
    section: SectionNo,
) -> Result<(), AllocError>
    ensures { let i = interlocking.now in OnOk result (AddsText text.old text.new
        (why_text i.design.station i.routes plan.now.steps first last section)) }
{
    let step = step_of(plan, last);
    if step_of(plan, first) == step {
        return put_one_step(text);
    }
    let wanted = wanted_mm(interlocking, first, section);
    let lacking = lacking_mm(alloc, interlocking, plan, first, last, section)?;
    put_missing(text, wanted, lacking, step)
}

/// By which command a train has a section, and why that keeps another from it.
fn kept_line(
    alloc: Global,
    interlocking: &Interlocking,
    plan: &Plan,
    first: Command,
    last: Command,
    section: SectionNo,
) -> Result<Vec<u8>, AllocError>
    ensures { let i = interlocking.now in IfOk result (λ line.
        line.items ≡ kept_line i.design.station i.routes plan.now.steps first last section) }
{
    let mut line = Vec::new(alloc);
    put_has(&mut line, interlocking, plan, first, section)?;
    put_why(alloc, &mut line, interlocking, plan, first, last, section)?;
    line.push(b'\n')?;
    Ok(line)
}

/// Appends the line of the command that keeps another from a section, where there is one.
fn push_keeper(
    alloc: Global,
    interlocking: &Interlocking,
    plan: &Plan,
    found: Option<Command>,
    command: Command,
    section: SectionNo,
    lines: &mut Vec<Vec<u8>>,
) -> Result<(), AllocError>
    ensures { let i = interlocking.now in OnOk result (AddsLines lines.old lines.new
        (keeper_lines i.design.station i.routes plan.now.steps command section found)) }
{
    let Some(first) = found else {
        return Ok(());
    };
    let line = kept_line(alloc, interlocking, plan, first, command, section)?;
    lines.push(line)?;
    Ok(())
}

/// Appends what keeps the command of a train from a section, where there is a command.
fn push_command(
    alloc: Global,
    interlocking: &Interlocking,
    plan: &Plan,
    train: TrainNo,
    section: SectionNo,
    route: Option<RouteNo>,
    lines: &mut Vec<Vec<u8>>,
) -> Result<(), AllocError>
    ensures { let i = interlocking.now in OnOk result (AddsLines lines.old lines.new
        (command_lines i.design.station i.routes plan.now.steps train section route)) }
{
    let Some(route) = route else {
        return Ok(());
    };
    let command = Command { train, route };
    let found = keeper(alloc, interlocking, plan, command, section)?;
    push_keeper(alloc, interlocking, plan, found, command, section, lines)
}

/// The first of some routes.
fn first_of(routes: &[RouteNo]) -> Option<RouteNo>
    ensures { result ≡ first_of_list routes.now }
{
    match routes {
        [] => None,
        [route, ..] => Some(*route),
    }
}

/// Appends what keeps the command that a step has for a train from a section.
pub fn push_kept(
    alloc: Global,
    interlocking: &Interlocking,
    plan: &Plan,
    step: usize,
    train: TrainNo,
    section: SectionNo,
    lines: &mut Vec<Vec<u8>>,
) -> Result<(), AllocError>
    ensures { let i = interlocking.now in OnOk result (AddsLines lines.old lines.new
        (kept_lines i.design.station i.routes plan.now.steps step train section)) }
{
    let given = given_in(alloc, plan, train, step)?;
    let route = first_of(given.as_slice());
    push_command(alloc, interlocking, plan, train, section, route, lines)
}
