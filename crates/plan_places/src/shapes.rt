//! The lines about a text of JSON that has not the shape of a plan.

ghost use Rattle.std.specs.Prelude.{◌≡◌, ◌∷◌, [], ◌<◌, not, is_some, map, position, IfOk, IfSome, OnOk, length};
ghost use Rattle.std.specs.List.{list_all};
ghost use Rattle.serde_json.specs.View.{view};
ghost use Rattle.rail_plan.specs.Text.{array_of, command_of, step_in, steps_at};
ghost use Rattle.rail_text.specs.Added.{AddsLines, AddsText};
ghost use Rattle.plan_places.specs.Shapes.{command_line, command_lines, commands_lines, shape_lines, step_line};
ghost use Rattle.plan_places.specs.Shapes.{step_lines, step_words, steps_lines, top_lines};

use plan_values::{array_of, command_of, steps_at};
use rail_text::put_number;
use serde_json::Value;
use std::alloc::{AllocError, Global};

/// Whether values are commands.
fn are_commands(values: &[Value]) -> bool
    ensures { result ≡ list_all (λ v. is_some (command_of (view v))) values.now }
{
    for value in values {
        if command_of(value).is_none() {
            return false;
        }
    }
    true
}

/// Whether a value is an array of commands.
#[tactic(auto, using(crate::proofs::Turns::shapes))]
fn is_step(value: &Value) -> bool
    ensures { result ≡ is_some (step_in (view value.now)) }
{
    match array_of(value) {
        Some(commands) => are_commands(commands),
        None => false,
    }
}

/// The place of the first value that is no command.
fn place_of_no_command(values: &[Value]) -> Option<usize>
    ensures place { result ≡ position (λ v. not (is_some (command_of (view v)))) values.now }
    ensures inside { IfSome result (λ index. index < length values.now) }
{
    values.iter().position(|value| !command_of(value).is_some())
}

/// The place of the first value that is no step.
fn place_of_no_step(values: &[Value]) -> Option<usize>
    ensures place { result ≡ position (λ v. not (is_some (step_in (view v)))) values.now }
    ensures inside { IfSome result (λ index. index < length values.now) }
{
    values.iter().position(|value| !is_step(value))
}

/// The same as a place in what the values are seen as.
fn first_no_command(values: &[Value]) -> Option<usize>
    ensures place { result ≡ position (λ d. not (is_some (command_of d))) (map view values.now) }
    ensures inside { IfSome result (λ index. index < length values.now) }
{
    place_of_no_command(values)
}

/// The same of steps.
fn first_no_step(values: &[Value]) -> Option<usize>
    ensures place { result ≡ position (λ d. not (is_some (step_in d))) (map view values.now) }
    ensures inside { IfSome result (λ index. index < length values.now) }
{
    place_of_no_step(values)
}

/// Appends which step it is.
fn put_step(text: &mut Vec<u8>, step: usize) -> Result<(), AllocError>
    ensures { OnOk result (AddsText text.old text.new (step_words step)) }
{
    text.extend_from_slice(b"step ")?;
    put_number(text, step as u64)?;
    text.extend_from_slice(b" ")?;
    Ok(())
}

/// What a command is to be.
fn command_line(alloc: Global, step: usize, command: usize) -> Result<Vec<u8>, AllocError>
    ensures { IfOk result (λ line. line.items ≡ command_line step command) }
{
    let mut line = Vec::new(alloc);
    put_step(&mut line, step)?;
    line.extend_from_slice(b"command ")?;
    put_number(&mut line, command as u64)?;
    line.extend_from_slice(
        b" is to be an array of the name of a train and the number of a route\n",
    )?;
    Ok(line)
}

/// What a step is to be.
fn step_line(alloc: Global, step: usize) -> Result<Vec<u8>, AllocError>
    ensures { IfOk result (λ line. line.items ≡ step_line step) }
{
    let mut line = Vec::new(alloc);
    put_step(&mut line, step)?;
    line.extend_from_slice(b"is to be an array of commands\n")?;
    Ok(line)
}

/// Appends a line of these bytes.
fn push_text(alloc: Global, text: &[u8], lines: &mut Vec<Vec<u8>>) -> Result<(), AllocError>
    ensures { OnOk result (AddsLines lines.old lines.new (text.now ∷ [])) }
{
    let line = Vec::from_slice(alloc, text)?;
    lines.push(line)?;
    Ok(())
}

/// Appends which command of a step is none.
fn push_command(
    alloc: Global,
    step: usize,
    first: Option<usize>,
    lines: &mut Vec<Vec<u8>>,
) -> Result<(), AllocError>
    requires { IfSome first (λ index. index < 18446744073709551615) }
    ensures { OnOk result (AddsLines lines.old lines.new (command_lines step first)) }
{
    let Some(index) = first else {
        return Ok(());
    };
    let line = command_line(alloc, step, index + 1)?;
    lines.push(line)?;
    Ok(())
}

/// Appends what is wrong with a step.
fn push_step(
    alloc: Global,
    step: usize,
    value: &Value,
    lines: &mut Vec<Vec<u8>>,
) -> Result<(), AllocError>
    ensures { OnOk result (AddsLines lines.old lines.new (commands_lines step (array_of (view value.now)))) }
{
    match array_of(value) {
        Some(values) => push_command(alloc, step, first_no_command(values), lines),
        None => {
            let line = step_line(alloc, step)?;
            lines.push(line)?;
            Ok(())
        }
    }
}

/// Appends what is wrong with the first step that is none.
fn push_steps(alloc: Global, values: &[Value], lines: &mut Vec<Vec<u8>>) -> Result<(), AllocError>
    ensures { let ds = map view values.now in OnOk result (AddsLines lines.old lines.new
        (step_lines ds (position (λ d. not (is_some (step_in d))) ds))) }
{
    match first_no_step(values) {
        Some(index) => push_step(alloc, index + 1, &values[index], lines),
        None => Ok(()),
    }
}

/// Appends what is wrong with the value at a plan's key.
fn push_at_key(alloc: Global, value: &Value, lines: &mut Vec<Vec<u8>>) -> Result<(), AllocError>
    ensures { OnOk result (AddsLines lines.old lines.new (steps_lines (array_of (view value.now)))) }
{
    match array_of(value) {
        Some(values) => push_steps(alloc, values, lines),
        None => push_text(alloc, b"steps is to be an array\n", lines),
    }
}

/// Appends where a value differs first from a plan.
fn push_top(alloc: Global, value: &Value, lines: &mut Vec<Vec<u8>>) -> Result<(), AllocError>
    ensures { OnOk result (AddsLines lines.old lines.new (top_lines (steps_at (view value.now)))) }
{
    match steps_at(value) {
        Some(steps) => push_at_key(alloc, steps, lines),
        None => push_text(
            alloc,
            b"the file is to be an object with the one key steps\n",
            lines,
        ),
    }
}

/// Appends where a value differs first from a plan, and what a plan looks like. An error leaves a part of the lines.
pub fn push_shape(alloc: Global, value: &Value, lines: &mut Vec<Vec<u8>>) -> Result<(), AllocError>
    ensures { OnOk result (AddsLines lines.old lines.new (shape_lines (view value.now))) }
{
    push_top(alloc, value, lines)?;
    push_text(
        alloc,
        b"a plan is {\"steps\":[[[\"<train>\",<route>],...],...]}\n",
        lines,
    )?;
    Ok(())
}
