//! A whole design as its table has it.

ghost use Rattle.std.specs.Prelude.{◌≡◌};
ghost use Rattle.toml.specs.View.{table_view};
ghost use Rattle.design_table.specs.declared.place.Place.TheVariants.{Unknown, Top};
ghost use Rattle.design_table.specs.Forms.{found, whole_of, has_unknown, is_whole};
ghost use Rattle.design_table.specs.Reads.{ReadsOrRefuses, at, ReadsParsed};
ghost use Rattle.design_table.specs.Keys.{top_keys};
ghost use Rattle.design_table.specs.Parsed.{sheet_seen};
ghost use Rattle.design_table.specs.Sheet.{form_fault, sheet_of, version_of};

use crate::entry::read_array;
use crate::fault::{Code, DesignFault};
use crate::field::{Form, form_fault, has_form, has_unknown_key, value_at, whole_of};
use crate::key::{Key, top_columns, version_number};
use crate::place::Place;
use crate::sheet::Sheet;
use std::alloc::Global;
use toml::Table;

/// The design as its table has it.
///
/// # Errors
///
/// D02 at the first key or entry, in the order of the walk, that is missing, unknown or of the wrong form. The walk
/// takes the top keys in order; at an array the array itself and then its entries, each with its keys in order and
/// then any key that the version does not know; and last any such key at the top.
pub fn read_sheet<'a>(alloc: Global, table: &'a Table) -> Result<Sheet<'a>, DesignFault>
    ensures { ReadsOrRefuses sheet_seen result Code.D02 (form_fault (table_view table.now))
        (sheet_of (table_view table.now)) }
{
    let version = read_whole(table, Key::Version)?;
    let tick_ms = read_whole(table, Key::TickMs)?;
    let horizon_ms = read_whole(table, Key::HorizonMs)?;
    let known = version_of(table);
    let nodes = read_array(alloc, known, table)?;
    let edges = read_array(alloc, known, table)?;
    let signals = read_array(alloc, known, table)?;
    let vehicles = read_array(alloc, known, table)?;
    let trains = read_array(alloc, known, table)?;
    let orders = read_array(alloc, known, table)?;
    let withins = read_array(alloc, known, table)?;
    let overlaps = read_array(alloc, known, table)?;
    refuse_unknown(known, table)?;
    Ok(Sheet {
        version,
        tick_ms,
        horizon_ms,
        nodes,
        edges,
        signals,
        vehicles,
        trains,
        orders,
        withins,
        overlaps,
    })
}

/// The number of the version that a document names, 0 where it names none. That there is such a one is asked later.
pub fn version_of(table: &Table) -> u64
    ensures { result ≡ version_of (table_view table.now) }
{
    version_number(whole_of(value_at(table, Key::Version)))
}

/// The whole number at a key of the top.
fn read_whole(table: &Table, key: Key) -> Result<i64, DesignFault>
    ensures { ReadsParsed (λ x. x) result is_whole whole_of (found key (table_view table.now)) (Top key) }
{
    let value = value_at(table, key);
    if has_form(Form::Whole, value) {
        Ok(whole_of(value))
    } else {
        Err(form_fault(Place::Top(key)))
    }
}

/// Refuses a key at the top that the version does not know.
fn refuse_unknown(version: u64, table: &Table) -> Result<(), DesignFault>
    ensures { let unknown = has_unknown (top_keys version) (table_view table.now) in
        ReadsOrRefuses (λ x. x) result Code.D02 (at unknown Unknown) tt }
{
    if has_unknown_key(top_columns(), version, table) {
        Err(form_fault(Place::Unknown))
    } else {
        Ok(())
    }
}
