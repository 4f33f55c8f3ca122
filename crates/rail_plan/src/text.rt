//! The shape of a plan's text.

ghost use Rattle.std.specs.Prelude.{◌≡◌, codes, is_some, map, option_map};
ghost use Rattle.std.specs.List.{list_all};
ghost use Rattle.serde_json.specs.Find.{get_member};
ghost use Rattle.serde_json.specs.View.{members_view, view};
ghost use Rattle.rail_plan.specs.Text.{array_of, command_of, only_steps, step_in, steps_at, string_of, two_of};
ghost use Rattle.rail_plan.specs.Text.{whole_of};

use serde_json::{Map, Value};

/// The members of an array.
pub(crate) fn array_of(value: &Value) -> Option<&[Value]>
    ensures { option_map (λ s. map view s.now) result ≡ array_of (view value.now) }
{
    match value {
        Value::Array(values) => Some(values.as_slice()),
        _ => None,
    }
}

/// A command as it is written: the name of a train and the number of a route.
pub(crate) fn command_of(value: &Value) -> Option<(&str, u64)>
    ensures { option_map (λ p. (p.0.now, p.1)) result ≡ command_of (view value.now) }
{
    two_of(array_of(value)?)
}

/// The value at the one key of an object.
pub(crate) fn steps_at(value: &Value) -> Option<&Value>
    ensures { option_map (λ v. view v.now) result ≡ steps_at (view value.now) }
{
    match value {
        Value::Object(map) => only_steps(map),
        _ => None,
    }
}

/// Whether values are steps of a plan.
pub(crate) fn are_steps(values: &[Value]) -> bool
    ensures { result ≡ list_all (λ v. is_some (step_in (view v))) values.now }
{
    values.iter().all(|value| is_step(value))
}

/// A text.
fn string_of(value: &Value) -> Option<&str>
    ensures { option_map (λ s. s.now) result ≡ string_of (view value.now) }
{
    match value {
        Value::String(text) => Some(text.as_str()),
        _ => None,
    }
}

/// A whole number from 0 to 2^64 - 1.
fn whole_of(value: &Value) -> Option<u64>
    ensures { result ≡ whole_of (view value.now) }
{
    match value {
        Value::Number(number) => number.as_u64(),
        _ => None,
    }
}

/// A text and a whole number.
#[tactic(auto, using(crate::proofs::Shapes::pairs))]
fn two_of(values: &[Value]) -> Option<(&str, u64)>
    ensures { option_map (λ p. (p.0.now, p.1)) result ≡ two_of (map view values.now) }
{
    let [train, route] = values else {
        return None;
    };
    let train = string_of(train)?;
    let route = whole_of(route)?;
    Some((train, route))
}

/// The value at a plan's key.
fn value_of_steps(map: &Map<String, Value>) -> Option<&Value>
    ensures { option_map (λ v. view v.now) result ≡ get_member (codes "steps") (members_view map.now.entries) }
{
    map.get("steps")
}

/// The value at a plan's key, where there is no other.
#[tactic(auto, using(crate::proofs::Shapes::singles))]
fn only_steps(map: &Map<String, Value>) -> Option<&Value>
    ensures { option_map (λ v. view v.now) result ≡ only_steps (members_view map.now.entries) }
{
    if map.len() == 1 {
        value_of_steps(map)
    } else {
        None
    }
}

/// Whether a value is an array of commands.
#[tactic(auto, using(crate::proofs::Shapes::shapes))]
fn is_step(value: &Value) -> bool
    ensures { result ≡ is_some (step_in (view value.now)) }
{
    match array_of(value) {
        Some(commands) => are_commands(commands),
        None => false,
    }
}

/// Whether values are commands.
fn are_commands(values: &[Value]) -> bool
    ensures { result ≡ list_all (λ v. is_some (command_of (view v))) values.now }
{
    for value in values {
        if command_of(value).is_none() {
            return false;
        }
    }
    true
}
