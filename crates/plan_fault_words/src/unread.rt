//! The lines about a text that is no plan by its form.

ghost use Rattle.std.specs.Prelude.{◌≡◌, ◌≤◌, length, IfOk};
ghost use Rattle.rail_outside.specs.Lines.{lines_of};
ghost use Rattle.serde_json.specs.View.{view};
ghost use Rattle.rail_plan.specs.Text.{json_of};
ghost use Rattle.plan_places.specs.Shapes.{shape_lines};
ghost use Rattle.plan_fault_words.specs.Unread.{IsStop, SaysUnread, said_line, stop_lines};

use design_places::push_spot;
use plan_places::push_shape;
use serde_json::Value;
use std::alloc::{AllocError, Global};

/// Where a line of a text begins, counted from 1.
fn line_start(text: &[u8], line: usize) -> usize {
    let mut left = line;
    for (index, byte) in text.iter().enumerate() {
        if left <= 1 {
            return index;
        }
        if *byte == b'\n' {
            left -= 1;
        }
    }
    text.len()
}

/// How many bytes of a text there are before a line and a byte of it, both counted from 1.
fn place_at(text: &[u8], line: usize, byte: usize) -> usize
    ensures { result ≤ length text.now }
{
    let start = line_start(text, line);
    start.saturating_add(byte.saturating_sub(1)).min(text.len())
}

/// What is wrong at the place where the reader of JSON stops.
fn said_line(alloc: Global, is_cut: bool) -> Result<Vec<u8>, AllocError>
    ensures { IfOk result (λ line. line.items ≡ said_line is_cut) }
{
    if is_cut {
        Vec::from_slice(alloc, b"the file is no JSON: it ends too early\n")
    } else {
        Vec::from_slice(alloc, b"the file is no JSON: this can't stand here\n")
    }
}

/// The place of a text where the reader of JSON stops, shown, and what is wrong there.
fn stop_lines(
    alloc: Global,
    text: &[u8],
    place: usize,
    is_cut: bool,
) -> Result<Vec<Vec<u8>>, AllocError>
    requires { place ≤ length text.now }
    ensures { IfOk result (λ lines. lines_of lines.items ≡ stop_lines text.now place is_cut) }
{
    let mut lines = Vec::new(alloc);
    push_spot(alloc, text, &text[place..], &mut lines)?;
    let line = said_line(alloc, is_cut)?;
    lines.push(line)?;
    Ok(lines)
}

/// The same, where the reader's fault says that it stops.
fn stopped_lines(
    alloc: Global,
    text: &[u8],
    line: usize,
    byte: usize,
    is_cut: bool,
) -> Result<Vec<Vec<u8>>, AllocError>
    ensures { IfOk result (λ lines. IsStop text.now (lines_of lines.items)) }
{
    let place = place_at(text, line, byte);
    let lines = stop_lines(alloc, text, place, is_cut)?;
    Ok(lines)
}

/// What is wrong with the shape of a value.
fn shape_lines(alloc: Global, value: &Value) -> Result<Vec<Vec<u8>>, AllocError>
    ensures { IfOk result (λ lines. lines_of lines.items ≡ shape_lines (view value.now)) }
{
    let mut lines = Vec::new(alloc);
    push_shape(alloc, value, &mut lines)?;
    Ok(lines)
}

/// What is wrong with a text that is no plan by its form: where it begins to be no JSON, or where it is another value
/// than a plan, and what a plan looks like. Which place of the text it is that is no JSON is the reader's of JSON.
pub(crate) fn unread_lines(alloc: Global, bytes: &[u8]) -> Result<Vec<Vec<u8>>, AllocError>
    ensures { IfOk result (λ lines. SaysUnread bytes.now (json_of bytes.now) (lines_of lines.items)) }
{
    match Value::from_slice(alloc, bytes) {
        Ok(value) => shape_lines(alloc, &value),
        Err(error) => {
            if error.is_memory() {
                return Err(AllocError);
            }
            let (line, byte) = (error.line(), error.column());
            stopped_lines(alloc, bytes, line, byte, error.is_eof())
        }
    }
}
