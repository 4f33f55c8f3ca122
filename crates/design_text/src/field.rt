//! The fields of an entry.

ghost use Rattle.std.specs.Prelude.{◌≡◌, ◌++◌, IfOk, OnOk, map};
ghost use Rattle.design_text.specs.Fields.{field_of, value_text};
ghost use Rattle.design_text.specs.Texts.{entry_line, field_text};

use crate::part::{Part, put_bracketed, put_joined, put_quoted};
use design_table::Key;
use rail_base::design::Design;
use rail_base::list::List;
use rail_base::station::{NodeNo, SectionNo};
use rail_text::put_number;
use std::alloc::{AllocError, Global};

/// What stands at a key of an entry.
#[derive(Clone, Copy)]
pub(crate) enum Value<'a> {
    True,
    Name(&'a [u8]),
    Number(u32),
    Visits(&'a [List<NodeNo>]),
    Sections(&'a [SectionNo]),
    Numbers(&'a [u32]),
}

/// A key of an entry with its value.
#[derive(Clone, Copy)]
pub(crate) struct Field<'a>(pub(crate) Key, pub(crate) Value<'a>);

/// Appends a value.
fn put_value(line: &mut Vec<u8>, design: &Design, value: Value) -> Result<(), AllocError>
    ensures { OnOk result (line.new.items ≡ line.old.items ++ value_text design.now.station value.entry) }
{
    match value {
        Value::True => line.extend_from_slice(b"true"),
        Value::Name(name) => put_quoted(line, name),
        Value::Number(number) => put_number(line, u64::from(number)),
        Value::Visits(visits) => put_bracketed(line, design, visits),
        Value::Sections(sections) => put_bracketed(line, design, sections),
        Value::Numbers(numbers) => put_bracketed(line, design, numbers),
    }
}

impl Part for Field<'_> {
    ghost text = { λ d field. field_text (field_of d field) };

    fn put(&self, line: &mut Vec<u8>, design: &Design) -> Result<(), AllocError>
        ensures { OnOk result (line.new.items
            ≡ line.old.items ++ field_text (field_of design.now.station self.now)) }
    {
        line.extend_from_slice(self.0.text().as_bytes())?;
        line.push(b'=')?;
        put_value(line, design, self.1)?;
        Ok(())
    }
}

/// The line of an entry with these fields.
pub(crate) fn entry_line(
    alloc: Global,
    design: &Design,
    fields: &[Field],
) -> Result<Vec<u8>, AllocError>
    ensures { IfOk result (λ line. line.items ≡ entry_line (map (field_of design.now.station) fields.now)) }
{
    let mut line = Vec::from_slice(alloc, b" {")?;
    put_joined(&mut line, design, fields)?;
    line.extend_from_slice(b"},\n")?;
    Ok(line)
}
