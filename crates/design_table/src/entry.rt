//! The entries of an array, of any kind.

ghost use Rattle.std.specs.Prelude.{◌≡◌, ℕ, List, map, option_map, IfOk};
ghost use Rattle.toml.specs.View.{view, table_view, items_view};
ghost use Rattle.design_table.specs.declared.place.EntryKind.{EntryKind};
ghost use Rattle.design_table.specs.Forms.{list_of_items};
ghost use Rattle.design_table.specs.Parsed.{Values};
ghost use Rattle.design_table.specs.Places.{value_in};
ghost use Rattle.design_table.specs.Reads.{ReadsOrRefuses, in_each};
ghost use Rattle.design_table.specs.Sheet.{wrong_fields, wrong_entry, wrong_array, entries_of, members_of, value_of};
ghost use Rattle.design_table.specs.Sheet.{top_value, ReadsEntry};

use crate::fault::{Code, DesignFault};
use crate::field::{form_fault, known_value};
use crate::fields::Fields;
use crate::key::{Key, top_columns};
use crate::place::{EntryKind, Place};
use std::alloc::{AllocError, Global};
use toml::{Table, Value};

/// A kind of entry, read from its table.
pub trait Entry<'a>: Drop {
    /// What an entry stands for.
    ghost Parsed: { Type 0 };

    /// What an entry is seen as.
    ghost seen: { Self → Parsed };

    /// What the values at its keys spell.
    ghost parsed: { Values → Parsed };

    ghost kind: { EntryKind };

    /// The kind.
    fn kind() -> EntryKind
        ensures { result ≡ kind };

    /// The entry that the fields spell.
    fn read(alloc: Global, fields: Fields<'a>) -> Result<Self, AllocError>
        ensures { IfOk result (λ entry. seen entry ≡ parsed (value_in fields.entry)) };
}

/// The entries of the array of this kind, in the order of the document. An absent array has none.
#[tactic(auto, unfolding(crate::specs::Sheet::wrong_array, crate::specs::Sheet::entries_of))]
pub fn read_array<'a, E: Entry<'a>>(
    alloc: Global,
    version: u64,
    table: &'a Table,
) -> Result<Vec<E>, DesignFault>
    ensures { let members = table_view table.now in
        ReadsOrRefuses (λ v. map E.seen v.items) result Code.D02 (wrong_array version E.kind members)
        (entries_of version E.parsed E.kind members) }
{
    let key = E::kind().key();
    match top_value(version, table, key) {
        None => Ok(Vec::new(alloc)),
        Some(Value::Array(values)) => read_entries(alloc, version, values.as_slice()),
        _ => Err(form_fault(Place::Top(key))),
    }
}

/// The value at a key of the top that the version knows.
fn top_value<'a>(version: u64, table: &'a Table, key: Key) -> Option<&'a Value>
    ensures { option_map (λ v. view v.now) result ≡ top_value version (table_view table.now) key }
{
    known_value(top_columns(), version, table, key)
}

/// The entry of this number, counted from 1, from its table.
fn read_table<'a, E: Entry<'a>>(
    alloc: Global,
    version: u64,
    number: u64,
    table: &'a Table,
) -> Result<E, DesignFault>
    ensures { ReadsEntry E.seen result version E.kind number E.parsed (table_view table.now) }
{
    let fields = Fields {
        table,
        kind: E::kind(),
        number,
        version,
    };
    fields.refuse_wrong()?;
    Ok(E::read(alloc, fields)?)
}

/// The entry that is parsed from a value of an array.
fn read_entry<'a, E: Entry<'a>>(
    alloc: Global,
    version: u64,
    number: u64,
    value: &'a Value,
) -> Result<E, DesignFault>
    ensures { let entry = view value.now in
        ReadsOrRefuses E.seen result Code.D02 (wrong_entry version E.kind number entry)
        (E.parsed (value_of version E.kind (members_of entry))) }
{
    match value {
        Value::Table(table) => read_table(alloc, version, number, table),
        _ => Err(form_fault(Place::Entry(E::kind(), number))),
    }
}

/// The entries of an array, in order.
fn read_entries<'a, E: Entry<'a>>(
    alloc: Global,
    version: u64,
    values: &'a [Value],
) -> Result<Vec<E>, DesignFault>
    ensures { let entries = list_of_items (items_view values.now) in
        ReadsOrRefuses (λ v. map E.seen v.items) result Code.D02 (in_each (wrong_entry version E.kind) entries)
        (map (λ entry. E.parsed (value_of version E.kind (members_of entry))) entries) }
{
    let mut entries = Vec::new(alloc);
    let mut number = 1;
    for value in values {
        entries.push(read_entry(alloc, version, number, value)?)?;
        number += 1;
    }
    Ok(entries)
}
