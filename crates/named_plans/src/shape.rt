//! The shape of a plan's text.

ghost use Rattle.std.specs.Prelude.{◌≡◌, codes, map, option_map};
ghost use Rattle.serde_json.specs.Find.{get_member};
ghost use Rattle.serde_json.specs.View.{members_view, view};
ghost use Rattle.rail_plan.specs.Text.{array_of, only_steps, steps_at, string_of};

use serde_json::{Map, Value};

/// The members of an array.
pub(crate) fn array_of(value: &Value) -> Option<&[Value]>
    ensures { option_map (λ s. map view s.now) result ≡ array_of (view value.now) }
{
    match value {
        Value::Array(values) => Some(values.as_slice()),
        _ => None,
    }
}

/// The value at the one key of an object.
pub(crate) fn steps_at(value: &Value) -> Option<&Value>
    ensures { option_map (λ v. view v.now) result ≡ steps_at (view value.now) }
{
    match value {
        Value::Object(map) => only_steps(map),
        _ => None,
    }
}

/// The value at a plan's key.
fn value_of_steps(map: &Map<String, Value>) -> Option<&Value>
    ensures { option_map (λ v. view v.now) result ≡ get_member (codes "steps") (members_view map.now.entries) }
{
    map.get("steps")
}

/// The value at a plan's key, where there is no other.
#[tactic(auto, using(rail_plan::proofs::Shapes::singles))]
fn only_steps(map: &Map<String, Value>) -> Option<&Value>
    ensures { option_map (λ v. view v.now) result ≡ only_steps (members_view map.now.entries) }
{
    if map.len() == 1 {
        value_of_steps(map)
    } else {
        None
    }
}

/// A text.
pub(crate) fn string_of(value: &Value) -> Option<&str>
    ensures { option_map (λ s. s.now) result ≡ string_of (view value.now) }
{
    match value {
        Value::String(text) => Some(text.as_str()),
        _ => None,
    }
}
