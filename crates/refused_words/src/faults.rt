//! The lines about the text of a design that is refused. An error is want of memory.

ghost use Rattle.std.specs.Prelude.{◌≡◌, IfOk, Some};
ghost use Rattle.toml.specs.View.{table_view};
ghost use Rattle.rail_outside.specs.Lines.{lines_of};
ghost use Rattle.design_table.specs.Toml.{toml_of};
ghost use Rattle.refused_words.specs.Faults.{IsFaultSaid};

use crate::refused::push_refused;
use crate::unread::unread_lines;
use design_table::{Code, DesignFault, Place, toml_table};
use std::alloc::{AllocError, Global};
use std::str::from_utf8;
use toml::Table;

/// Where the fault stands in a text that is this table, and what is wrong there.
fn table_lines(
    alloc: Global,
    bytes: &[u8],
    table: &Table,
    code: Code,
    place: Place,
) -> Result<Vec<Vec<u8>>, AllocError>
    requires { toml_of bytes.now ≡ Some (table_view table.now) }
    ensures { IfOk result (λ lines. IsFaultSaid bytes.now (toml_of bytes.now) code place (lines_of lines.items)) }
{
    let Ok(text) = from_utf8(bytes) else {
        unreachable!();
    };
    let mut lines = Vec::new(alloc);
    push_refused(alloc, text, table, code, place, &mut lines)?;
    Ok(lines)
}

/// Where the fault of a refused design stands in its text, with that line, and what is wrong there, for the code and the
/// place with which it is refused.
pub fn fault_lines(
    alloc: Global,
    bytes: &[u8],
    code: Code,
    place: Place,
) -> Result<Vec<Vec<u8>>, AllocError>
    ensures { IfOk result (λ lines. IsFaultSaid bytes.now (toml_of bytes.now) code place (lines_of lines.items)) }
{
    match toml_table(alloc, bytes) {
        Ok(table) => table_lines(alloc, bytes, &table, code, place),
        Err(DesignFault::Refused { .. }) => unread_lines(alloc, bytes),
        Err(DesignFault::Memory) => Err(AllocError),
    }
}
