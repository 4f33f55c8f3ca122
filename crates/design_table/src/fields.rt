//! The fields of one entry.

ghost use Rattle.std.specs.Prelude.{◌≡◌, not, option_map};
ghost use Rattle.std.specs.List.{find};
ghost use Rattle.toml.specs.View.{view, table_view};
ghost use Rattle.design_table.specs.Forms.{has_unknown};
ghost use Rattle.design_table.specs.Keys.{columns_of, keys_of};
ghost use Rattle.design_table.specs.declared.place.Place.TheVariants.{Field, UnknownField};
ghost use Rattle.design_table.specs.Reads.{ReadsOrRefuses, at};
ghost use Rattle.design_table.specs.Places.{value_in};
ghost use Rattle.design_table.specs.Sheet.{is_right, wrong_fields};

use crate::fault::{Code, DesignFault};
use crate::field::{form_fault, has_form, has_unknown_key, known_value, value_at};
use crate::key::{Column, Key, columns_of};
use crate::place::{EntryKind, Place};
use toml::{Table, Value};

/// The table of one entry, which entry it is, counted from 1, and the version of the design.
#[derive(Clone, Copy)]
pub struct Fields<'a> {
    pub table: &'a Table,
    pub kind: EntryKind,
    pub number: u64,
    pub version: u64,
}

impl<'a> Fields<'a> {
    /// The value at a key that the version knows.
    pub fn value(self, key: Key) -> Option<&'a Value>
        ensures { option_map (λ v. view v.now) result ≡ value_in self.entry key }
    {
        known_value(columns_of(self.kind), self.version, self.table, key)
    }

    /// Whether the value has the form of a column, if the version knows it.
    fn is_right(self, column: Column) -> bool
        ensures { let fields = self.entry in result ≡ is_right fields.version (table_view fields.table.now) column }
    {
        !column.is_known_in(self.version) || has_form(column.form, value_at(self.table, column.key))
    }

    /// The first column that is not right.
    fn wrong_column(self) -> Option<Column>
        ensures { let fields = self.entry in let members = table_view fields.table.now in
            result ≡ find (λ c. not (is_right fields.version members c)) (columns_of fields.kind) }
    {
        columns_of(self.kind)
            .iter()
            .copied()
            .find(|column| !self.is_right(*column))
    }

    /// Refuses the first column that is not right, and then a key that the version does not know.
    pub fn refuse_wrong(self) -> Result<(), DesignFault>
        ensures { let fields = self.entry in ReadsOrRefuses (λ x. x) result Code.D02
            (wrong_fields fields.version fields.kind fields.number (table_view fields.table.now)) tt }
    {
        match self.wrong_column() {
            Some(column) => {
                let place = Place::Field(self.kind, self.number, column.key);
                Err(form_fault(place))
            }
            None => self.refuse_unknown(),
        }
    }

    /// Refuses a key that the version does not know.
    fn refuse_unknown(self) -> Result<(), DesignFault>
        ensures { let fields = self.entry in
            let unknown = has_unknown (keys_of fields.version fields.kind) (table_view fields.table.now) in
            ReadsOrRefuses (λ x. x) result Code.D02 (at unknown (UnknownField fields.kind fields.number)) tt }
    {
        if has_unknown_key(columns_of(self.kind), self.version, self.table) {
            Err(form_fault(Place::UnknownField(self.kind, self.number)))
        } else {
            Ok(())
        }
    }
}
