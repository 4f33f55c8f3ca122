//! The names of a route as a value of JSON.

ghost use Rattle.std.specs.Prelude.{◌≡◌, IfOk, IsUtf8};
ghost use Rattle.serde_json.specs.View.{view};
ghost use Rattle.plan_names.specs.Edges.{AreTexts};
ghost use Rattle.plan_names.specs.Values.{names_value};

use rail_base::list::Name;
use serde_json::{Value, json};
use std::alloc::{AllocError, Global};
use std::str;

/// The text of bytes in UTF-8.
fn text_of(name: &[u8]) -> &str
    requires { IsUtf8 name.now }
    ensures { result.now ≡ name.now }
{
    str::from_utf8(name).unwrap()
}

/// A list of names as a value of JSON. `Err` is want of memory.
pub fn names_value(alloc: Global, names: &[Name]) -> Result<Value, AllocError>
    requires { AreTexts names.now }
    ensures { IfOk result (λ v. view v ≡ names_value names.now) }
{
    let mut values = Vec::new(alloc);
    for name in names {
        let value = json!(in alloc; text_of(name.as_bytes()))?;
        values.push(value)?;
    }
    Ok(Value::Array(values))
}
