//! The lines about a text that is no TOML. An error is want of memory.

ghost use Rattle.std.specs.Prelude.{◌≡◌, IfOk};
ghost use Rattle.rail_outside.specs.Lines.{lines_of};
ghost use Rattle.design_table.specs.Toml.{toml_of};
ghost use Rattle.refused_words.specs.Unread.{IsSpot, SaysUnread};

use design_places::push_spot;
use design_table::{DesignFault, toml_table};
use std::alloc::{AllocError, Global};

/// What is wrong, in the words of the reader of TOML.
fn said_line(alloc: Global, message: &str) -> Result<Vec<u8>, AllocError> {
    let mut line = Vec::new(alloc);
    line.extend_from_slice(b"the file is no TOML: ")?;
    line.extend_from_slice(message.as_bytes())?;
    line.push(b'\n')?;
    Ok(line)
}

/// The place of the text where the reader of TOML stops, and what it says there.
fn fault_lines(alloc: Global, bytes: &[u8]) -> Result<Vec<Vec<u8>>, AllocError>
    ensures { IfOk result (λ lines. IsSpot bytes.now (lines_of lines.items)) }
{
    match toml::table_from_slice(alloc, bytes) {
        Ok(_table) => spot(alloc, bytes, bytes, "no table"),
        Err(fault) => match fault.span() {
            Some(span) => spot(alloc, bytes, &bytes[span.start..], fault.message()),
            None => Err(AllocError),
        },
    }
}

/// A place of the text, shown, and what is said of it.
fn spot(alloc: Global, bytes: &[u8], rest: &[u8], message: &str) -> Result<Vec<Vec<u8>>, AllocError>
    ensures { IfOk result (λ lines. IsSpot bytes.now (lines_of lines.items)) }
{
    let mut lines = Vec::new(alloc);
    push_spot(alloc, bytes, rest, &mut lines)?;
    let line = said_line(alloc, message)?;
    lines.push(line)?;
    Ok(lines)
}

/// Where a text begins to be no TOML: the line and column, that line, and what is wrong there; nothing where it is TOML.
/// Which place it is, and the words, are those of the reader of TOML.
pub fn unread_lines(alloc: Global, bytes: &[u8]) -> Result<Vec<Vec<u8>>, AllocError>
    ensures { IfOk result (λ lines. SaysUnread bytes.now (toml_of bytes.now) (lines_of lines.items)) }
{
    match toml_table(alloc, bytes) {
        Ok(_table) => Ok(Vec::new(alloc)),
        Err(DesignFault::Refused { .. }) => fault_lines(alloc, bytes),
        Err(DesignFault::Memory) => Err(AllocError),
    }
}
