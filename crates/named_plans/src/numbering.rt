//! The plan with numbers that a plan with names is.

ghost use Rattle.std.specs.Prelude.{◌≡◌, ◌<◌, ◌^◌, IfOk, length, map, option_map, option_and_then};
ghost use Rattle.serde_json.specs.View.{view};
ghost use Rattle.rail_plan.specs.Reading.{plan_of};
ghost use Rattle.rail_plan.specs.Text.{array_of, json_of, of_all, steps_at, string_of};
ghost use Rattle.rail_spec.specs.Track.{routes_of};
ghost use Rattle.plan_names.specs.Shown.{number_among};
ghost use Rattle.named_plans.specs.Numbered.{all_shown, command_numbered, named_plan_of, names_in};
ghost use Rattle.named_plans.specs.Numbered.{number_or_none};
ghost use Rattle.named_plans.specs.Numbered.{plan_numbered, step_numbered, two_numbered};

use crate::shape::{array_of, steps_at, string_of};
use interlocking::Interlocking;
use plan_names::{number_named, shown_routes};
use rail_base::list::{List, Name};
use serde_json::{Value, json};
use std::alloc::{AllocError, Global};

/// The text of the plan with numbers that a plan with names is: what is read of it, and why it is refused, is what the
/// plan with names comes to. Where the bytes are no plan with names, by their shape, it is empty, which is no plan
/// either. `Err` is want of memory.
pub fn numbered_text(
    alloc: Global,
    interlocking: &Interlocking,
    bytes: &[u8],
) -> Result<Vec<u8>, AllocError>
    ensures { let d = interlocking.now.design.station in
        IfOk result (λ text. plan_of d (routes_of d) text.items ≡ named_plan_of d bytes.now) }
{
    match value_of(alloc, bytes)? {
        Some(value) => text_of(alloc, interlocking, &value),
        None => Ok(Vec::new(alloc)),
    }
}

/// The value that the bytes are, by the reading of `serde_json`.
fn value_of(alloc: Global, bytes: &[u8]) -> Result<Option<Value>, AllocError>
    ensures { IfOk result (λ o. option_map view o ≡ json_of bytes.now) }
{
    match Value::from_slice(alloc, bytes) {
        Ok(value) => Ok(Some(value)),
        Err(error) => {
            if error.is_memory() {
                Err(AllocError)
            } else {
                Ok(None)
            }
        }
    }
}

/// The text of a value with numbers in place of names; empty where it is no plan with names.
fn text_of(alloc: Global, interlocking: &Interlocking, value: &Value) -> Result<Vec<u8>, AllocError>
    ensures { IfOk result (λ text. json_of text.items
        ≡ plan_numbered (all_shown interlocking.now.design.station) (view value.now)) }
{
    let shown = shown_routes(alloc, interlocking)?;
    match plan_numbered(alloc, shown.as_slice(), value)? {
        Some(plan) => {
            let text = plan.to_vec(alloc)?;
            Ok(text)
        }
        None => Ok(Vec::new(alloc)),
    }
}

/// A plan with numbers in place of names.
fn plan_numbered(
    alloc: Global,
    shown: &[List<Name>],
    value: &Value,
) -> Result<Option<Value>, AllocError>
    requires { length shown.now < 2 ^ 32 }
    ensures { IfOk result (λ o. option_map view o ≡ plan_numbered shown.now (view value.now)) }
{
    let Some(steps) = steps_of(value) else {
        return Ok(None);
    };
    match steps_numbered(alloc, shown, steps)? {
        Some(steps) => Ok(Some(json!(in alloc; {"steps": steps})?)),
        None => Ok(None),
    }
}

/// The steps of a plan.
fn steps_of(value: &Value) -> Option<&[Value]>
    ensures { option_map (λ s. map view s.now) result ≡ option_and_then array_of (steps_at (view value.now)) }
{
    array_of(steps_at(value)?)
}

/// Steps with numbers in place of names.
fn steps_numbered(
    alloc: Global,
    shown: &[List<Name>],
    values: &[Value],
) -> Result<Option<Vec<Value>>, AllocError>
    requires { length shown.now < 2 ^ 32 }
    ensures { IfOk result (λ o. option_map (λ v. map view v.items) o
        ≡ of_all (step_numbered shown.now) (map view values.now)) }
{
    let mut steps = Vec::new(alloc);
    for value in values {
        match step_numbered(alloc, shown, value)? {
            Some(step) => steps.push(step)?,
            None => return Ok(None),
        }
    }
    Ok(Some(steps))
}

/// A step with numbers in place of names.
fn step_numbered(
    alloc: Global,
    shown: &[List<Name>],
    value: &Value,
) -> Result<Option<Value>, AllocError>
    requires { length shown.now < 2 ^ 32 }
    ensures { IfOk result (λ o. option_map view o ≡ step_numbered shown.now (view value.now)) }
{
    let Some(commands) = array_of(value) else {
        return Ok(None);
    };
    match commands_numbered(alloc, shown, commands)? {
        Some(commands) => Ok(Some(Value::Array(commands))),
        None => Ok(None),
    }
}

/// Commands with numbers in place of names.
fn commands_numbered(
    alloc: Global,
    shown: &[List<Name>],
    values: &[Value],
) -> Result<Option<Vec<Value>>, AllocError>
    requires { length shown.now < 2 ^ 32 }
    ensures { IfOk result (λ o. option_map (λ v. map view v.items) o
        ≡ of_all (command_numbered shown.now) (map view values.now)) }
{
    let mut commands = Vec::new(alloc);
    for value in values {
        match command_numbered(alloc, shown, value)? {
            Some(command) => commands.push(command)?,
            None => return Ok(None),
        }
    }
    Ok(Some(commands))
}

/// A command with the number of its route in place of the names.
fn command_numbered(
    alloc: Global,
    shown: &[List<Name>],
    value: &Value,
) -> Result<Option<Value>, AllocError>
    requires { length shown.now < 2 ^ 32 }
    ensures { IfOk result (λ o. option_map view o ≡ command_numbered shown.now (view value.now)) }
{
    match array_of(value) {
        Some(values) => two_numbered(alloc, shown, values),
        None => Ok(None),
    }
}

/// A train and a route with its number in place of its names.
fn two_numbered(
    alloc: Global,
    shown: &[List<Name>],
    values: &[Value],
) -> Result<Option<Value>, AllocError>
    requires { length shown.now < 2 ^ 32 }
    ensures { IfOk result (λ o. option_map view o ≡ two_numbered shown.now (map view values.now)) }
{
    let [train, names] = values else {
        return Ok(None);
    };
    let Some(train) = string_of(train) else {
        return Ok(None);
    };
    match names_in(alloc, names)? {
        Some(names) => {
            let number = number_or_none(shown, names.as_slice());
            Ok(Some(json!(in alloc; [train, number])?))
        }
        None => Ok(None),
    }
}

/// The number of the route that is shown by some names, or 0.
fn number_or_none(shown: &[List<Name>], names: &[Name]) -> u32
    requires { length shown.now < 2 ^ 32 }
    ensures { result ≡ number_or_none (number_among shown.now names.now) }
{
    match number_named(shown, names) {
        Some(route) => route.0,
        None => 0,
    }
}

/// The names in a list, where all of them are texts.
fn names_in(alloc: Global, value: &Value) -> Result<Option<List<Name>>, AllocError>
    ensures { IfOk result (λ o. o ≡ names_in (view value.now)) }
{
    match array_of(value) {
        Some(values) => names_of(alloc, values),
        None => Ok(None),
    }
}

/// Values as names, where all of them are texts.
fn names_of(alloc: Global, values: &[Value]) -> Result<Option<List<Name>>, AllocError>
    ensures { IfOk result (λ o. o ≡ of_all string_of (map view values.now)) }
{
    let mut names = List::new(alloc);
    for value in values {
        match string_of(value) {
            Some(text) => names.push(Name::from_vec(text.as_bytes().to_vec(alloc)?))?,
            None => return Ok(None),
        }
    }
    Ok(Some(names))
}
