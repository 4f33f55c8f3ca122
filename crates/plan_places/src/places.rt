//! Where a command stands in the text of a plan. The text is gone through by its brackets, and what is found is tried by
//! the reader of JSON.

ghost use Rattle.std.specs.Prelude.{◌≡◌, ◌≤◌, ◌+◌, ◌++◌, Some, option_and_then, option_map, length, IfOk, IfSome};
ghost use Rattle.serde_json.specs.View.{view};
ghost use Rattle.rail_plan.specs.Text.{command_of, json_of};
ghost use Rattle.plan_places.specs.Places.{IsPlaceOf, are_alike, begins_command, closing, is_last};

use plan_values::{command_of, json_value, step_in, steps_in, written_in};
use serde_json::Value;
use std::alloc::{AllocError, Global};

/// What is known of a text up to a byte of it: how many brackets are open, whether it is within a text in quotes, and
/// which step and command of it begin last.
#[derive(Clone, Copy)]
struct Walk {
    depth: usize,
    in_text: bool,
    is_escaped: bool,
    step: usize,
    command: usize,
}

impl Walk {
    /// Before all bytes.
    fn new() -> Walk {
        Walk {
            depth: 0,
            in_text: false,
            is_escaped: false,
            step: 0,
            command: 0,
        }
    }

    /// After one byte more.
    fn after(self, byte: u8) -> Walk {
        if self.is_escaped {
            return Walk {
                is_escaped: false,
                ..self
            };
        }
        if self.in_text {
            return Walk {
                is_escaped: byte == b'\\',
                in_text: byte != b'"',
                ..self
            };
        }
        match byte {
            b'"' => Walk {
                in_text: true,
                ..self
            },
            b'[' | b'{' => self.opened(),
            b']' | b'}' => Walk {
                depth: self.depth.saturating_sub(1),
                ..self
            },
            _ => self,
        }
    }

    /// After a bracket is opened: that of a step within two others, and that of a command within three.
    fn opened(self) -> Walk {
        match self.depth {
            2 => Walk {
                depth: 3,
                step: self.step.saturating_add(1),
                command: 0,
                ..self
            },
            3 => Walk {
                depth: 4,
                command: self.command.saturating_add(1),
                ..self
            },
            depth => Walk {
                depth: depth.saturating_add(1),
                ..self
            },
        }
    }

    /// Whether the bracket that was opened last is that of this command.
    fn is_at(&self, step: usize, command: usize) -> bool {
        self.depth == 4 && self.step == step && self.command == command
    }
}

/// Where the bracket of a command is opened.
fn place_of(text: &[u8], step: usize, command: usize) -> Option<usize>
    ensures { IfSome result (λ place. place ≤ length text.now) }
{
    let mut walk = Walk::new();
    for (index, byte) in text.iter().enumerate() {
        walk = walk.after(*byte);
        if walk.is_at(step, command) {
            return Some(index);
        }
    }
    None
}

/// How many bytes there are up to the end of the first bracket.
fn extent(text: &[u8]) -> usize
    ensures { result ≤ length text.now }
{
    let mut walk = Walk::new();
    for (index, byte) in text.iter().enumerate() {
        walk = walk.after(*byte);
        if walk.depth == 0 {
            return index + 1;
        }
    }
    text.len()
}

/// Whether a text, ended behind one command more, has so many steps, and so many commands in the last.
fn is_last(alloc: Global, before: &[u8], step: usize, command: usize) -> Result<bool, AllocError>
    ensures { IfOk result (λ answer. answer ≡ is_last step command (json_of (before.now ++ closing))) }
{
    let mut text = Vec::from_slice(alloc, before)?;
    text.extend_from_slice(b"[\"\",0]]]}")?;
    match json_value(alloc, text.as_slice())? {
        Some(value) => Ok(steps_in(&value).len() == step && step_in(&value, step).len() == command),
        None => Ok(false),
    }
}

/// Whether bytes spell a command.
fn spells(alloc: Global, spelt: &[u8], train: &str, route: u64) -> Result<bool, AllocError>
    ensures { IfOk result (λ answer.
        answer ≡ are_alike (option_and_then command_of (json_of spelt.now)) (Some (train.now, route))) }
{
    let Some(value) = json_value(alloc, spelt)? else {
        return Ok(false);
    };
    match command_of(&value) {
        Some((name, number)) => Ok(name == train && number == route),
        None => Ok(false),
    }
}

/// Whether a text begins with a command of it at a place, and the command ends so many bytes behind.
fn begins_command(
    alloc: Global,
    text: &[u8],
    step: usize,
    command: usize,
    train: &str,
    route: u64,
    place: usize,
    extent: usize,
) -> Result<bool, AllocError>
    requires { place + extent ≤ length text.now }
    ensures { IfOk result (λ answer.
        answer ≡ begins_command text.now step command (Some (train.now, route)) place extent) }
{
    if !is_last(alloc, &text[..place], step, command)? {
        return Ok(false);
    }
    spells(alloc, &text[place..place + extent], train, route)
}

/// The rest of a plan's text from a command on, by the command's number in its step and the number of the step, both
/// counted from 1; `value` is the text's value. Where it is found, it stands there; `None` says nothing.
pub fn command_place<'a>(
    alloc: Global,
    text: &'a [u8],
    value: &Value,
    step: usize,
    command: usize,
) -> Result<Option<&'a [u8]>, AllocError>
    ensures { IfOk result (λ place. IsPlaceOf text.now (view value.now) step command (option_map (λ s. s.now) place)) }
{
    let Some((train, route)) = written_in(value, step, command) else {
        return Ok(None);
    };
    let Some(place) = place_of(text, step, command) else {
        return Ok(None);
    };
    let rest = &text[place..];
    let extent = extent(rest);
    if begins_command(alloc, text, step, command, train, route, place, extent)? {
        Ok(Some(rest))
    } else {
        Ok(None)
    }
}
