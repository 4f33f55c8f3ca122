//! The document as `toml` reads it.

ghost use Rattle.std.specs.Prelude.{◌≡◌};
ghost use Rattle.toml.specs.View.{table_view};
ghost use Rattle.design_table.specs.Toml.{ReadsToml, toml_of};

use crate::fault::{Code, DesignFault};
use crate::place::Place;
use std::alloc::Global;
use toml::Table;

/// The table of the document, by the reading of `toml`.
///
/// # Errors
///
/// D01 at the file, where the bytes are not UTF-8 or `toml` refuses them for another cause than memory.
pub fn toml_table(alloc: Global, bytes: &[u8]) -> Result<Table, DesignFault>
    ensures { ReadsToml table_view result (toml_of bytes.now) }
{
    match toml::table_from_slice(alloc, bytes) {
        Ok(table) => Ok(table),
        Err(error) => {
            if error.is_memory() {
                Err(DesignFault::Memory)
            } else {
                Err(DesignFault::Refused {
                    code: Code::D01,
                    place: Place::File,
                })
            }
        }
    }
}
