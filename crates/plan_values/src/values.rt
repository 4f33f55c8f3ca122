//! The values of which a plan's text is made.

ghost use Rattle.std.specs.Prelude.{◌≡◌, codes, is_some, map, option_map, unwrap_or, IfOk};
ghost use Rattle.rail_base.specs.Numbering.{entry};
ghost use Rattle.serde_json.specs.Data.{null};
ghost use Rattle.serde_json.specs.Find.{get_member};
ghost use Rattle.serde_json.specs.View.{members_view, view};
ghost use Rattle.rail_plan.specs.Reading.{values_of};
ghost use Rattle.rail_plan.specs.Text.{array_of, command_of, json_of, only_steps, steps_at, string_of, two_of, whole_of};
ghost use Rattle.plan_values.specs.Values.{step_in, steps_in, written_in};

use rail_base::names::entry;
use serde_json::{Map, Value};
use std::alloc::{AllocError, Global};

/// The value that bytes are, by the reading of `serde_json`; `None` where they are none.
pub fn json_value(alloc: Global, bytes: &[u8]) -> Result<Option<Value>, AllocError>
    ensures { IfOk result (λ value. option_map view value ≡ json_of bytes.now) }
{
    match Value::from_slice(alloc, bytes) {
        Ok(value) => Ok(Some(value)),
        Err(error) => {
            if error.is_memory() {
                Err(AllocError)
            } else {
                Ok(None)
            }
        }
    }
}

/// The members of an array.
pub fn array_of(value: &Value) -> Option<&[Value]>
    ensures { option_map (λ s. map view s.now) result ≡ array_of (view value.now) }
{
    match value {
        Value::Array(values) => Some(values.as_slice()),
        _ => None,
    }
}

/// A text.
fn string_of(value: &Value) -> Option<&str>
    ensures { option_map (λ s. s.now) result ≡ string_of (view value.now) }
{
    match value {
        Value::String(text) => Some(text.as_str()),
        _ => None,
    }
}

/// A whole number from 0 to 2^64 - 1.
fn whole_of(value: &Value) -> Option<u64>
    ensures { result ≡ whole_of (view value.now) }
{
    match value {
        Value::Number(number) => number.as_u64(),
        _ => None,
    }
}

/// A text and a whole number.
#[tactic(auto, using(crate::proofs::Found::pairs))]
fn two_of(values: &[Value]) -> Option<(&str, u64)>
    ensures { option_map (λ p. (p.0.now, p.1)) result ≡ two_of (map view values.now) }
{
    let [train, route] = values else {
        return None;
    };
    let train = string_of(train)?;
    let route = whole_of(route)?;
    Some((train, route))
}

/// A command as it is written: the name of a train and the number of a route.
pub fn command_of(value: &Value) -> Option<(&str, u64)>
    ensures { option_map (λ p. (p.0.now, p.1)) result ≡ command_of (view value.now) }
{
    two_of(array_of(value)?)
}

/// The value at a plan's key.
fn value_of_steps(map: &Map<String, Value>) -> Option<&Value>
    ensures { option_map (λ v. view v.now) result ≡ get_member (codes "steps") (members_view map.now.entries) }
{
    map.get("steps")
}

/// The value at a plan's key, where there is no other.
#[tactic(auto, using(crate::proofs::Found::singles))]
fn only_steps(map: &Map<String, Value>) -> Option<&Value>
    ensures { option_map (λ v. view v.now) result ≡ only_steps (members_view map.now.entries) }
{
    if map.len() == 1 {
        value_of_steps(map)
    } else {
        None
    }
}

/// The value at the one key of an object.
pub fn steps_at(value: &Value) -> Option<&Value>
    ensures { option_map (λ v. view v.now) result ≡ steps_at (view value.now) }
{
    match value {
        Value::Object(map) => only_steps(map),
        _ => None,
    }
}

/// The members of an array, and none of another value.
#[tactic(auto, using(crate::proofs::Found::values))]
pub fn values_of(value: &Value) -> &[Value]
    ensures { map view result.now ≡ values_of (view value.now) }
{
    match array_of(value) {
        Some(values) => values,
        None => &[],
    }
}

/// The steps of a plan's text.
#[tactic(auto, using(crate::proofs::Found::steps))]
pub fn steps_in(value: &Value) -> &[Value]
    ensures { map view result.now ≡ steps_in (view value.now) }
{
    match steps_at(value) {
        Some(steps) => values_of(steps),
        None => &[],
    }
}

#[tactic(auto, using(crate::proofs::Found::step_there, crate::proofs::Found::no_step))]
/// What stands in the step of a number, counted from 1.
pub fn step_in(value: &Value, number: usize) -> &[Value]
    ensures { map view result.now ≡ step_in (view value.now) number }
{
    match value_at(steps_in(value), number) {
        Some(step) => values_of(step),
        None => &[],
    }
}

#[tactic(auto, using(crate::proofs::Found::value_there))]
/// The value of a number, counted from 1.
fn value_at(values: &[Value], number: usize) -> Option<&Value>
    ensures { unwrap_or (option_map (λ v. view v.now) result) null ≡ entry null (map view values.now) number }
{
    entry(values, number)
}

#[tactic(auto, using(crate::proofs::Found::command_there, crate::proofs::Found::no_command))]
/// The command of a number in the step of a number, both counted from 1: the name of its train and the number of its
/// route, as they are written; `None` where no such command stands there.
pub fn written_in(value: &Value, step: usize, command: usize) -> Option<(&str, u64)>
    ensures { option_map (λ p. (p.0.now, p.1)) result ≡ written_in (view value.now) step command }
{
    match value_at(step_in(value, step), command) {
        Some(value) => command_of(value),
        None => None,
    }
}
