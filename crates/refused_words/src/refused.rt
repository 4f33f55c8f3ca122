//! The lines about a refused design. An error is want of memory, and leaves a part of the lines.

ghost use Rattle.std.specs.Prelude.{◌≡◌, Some, string_bytes, IfOk, OnOk};
ghost use Rattle.toml.specs.View.{table_view};
ghost use Rattle.design_table.specs.Sheet.{form_fault, sheet_of, version_of};
ghost use Rattle.design_table.specs.Parsed.{sheet_seen};
ghost use Rattle.rail_text.specs.Added.{AddsLines};
ghost use Rattle.refused_words.specs.Refused.{fault_lines, first_line, first_lines, form_lines, name_in};
ghost use Rattle.refused_words.specs.Refused.{refused_lines, said};

use design_places::{place_in, push_place};
use design_table::{Code, DesignFault, Place, Sheet, read_sheet, version_number, version_of};
use fault_words::{fault_sentence, first_place, form_sentence};
use rail_text::put_number;
use std::alloc::{AllocError, Global};
use toml::Table;
use toml_places::{line_number, name_at};

/// The name of the key at a place, in a version of designs, empty where there is none.
fn name_in(alloc: Global, version: u64, text: &str, place: Place) -> Result<String, AllocError>
    ensures { IfOk result (λ name. string_bytes name ≡ name_in text.now version place) }
{
    let Some(rest) = place_in(alloc, version, text, place)? else {
        return Ok(String::new(alloc));
    };
    match name_at(alloc, rest)? {
        Some(name) => Ok(name),
        None => Ok(String::new(alloc)),
    }
}

/// Appends in which line the rest of a text begins.
fn push_first_line(
    alloc: Global,
    text: &str,
    rest: &str,
    lines: &mut Vec<Vec<u8>>,
) -> Result<(), AllocError>
    ensures { OnOk result (AddsLines lines.old lines.new (first_line text.now (Some rest.now))) }
{
    let mut line = Vec::new(alloc);
    line.extend_from_slice(b"it stands first in line ")?;
    put_number(&mut line, line_number(text.as_bytes(), rest.as_bytes()))?;
    line.push(b'\n')?;
    lines.push(line)?;
    Ok(())
}

/// Appends where a name that stands twice stands first.
fn push_first_place(
    alloc: Global,
    text: &str,
    sheet: &Sheet,
    place: Place,
    lines: &mut Vec<Vec<u8>>,
) -> Result<(), AllocError>
    ensures { OnOk result (AddsLines lines.old lines.new (first_lines text.now (sheet_seen sheet.now) Code.D03 place)) }
{
    let Some(first) = first_place(alloc, sheet, place)? else {
        return Ok(());
    };
    let version = version_number(sheet.version);
    match place_in(alloc, version, text, first)? {
        Some(rest) => push_first_line(alloc, text, rest, lines),
        None => Ok(()),
    }
}

/// Appends what is wrong with a sheet.
fn push_fault(
    alloc: Global,
    text: &str,
    sheet: &Sheet,
    code: Code,
    place: Place,
    lines: &mut Vec<Vec<u8>>,
) -> Result<(), AllocError>
    ensures { OnOk result (AddsLines lines.old lines.new (fault_lines text.now (sheet_seen sheet.now) code place)) }
{
    let line = fault_sentence(alloc, sheet, code, place)?;
    lines.push(line)?;
    match code {
        Code::D03 => push_first_place(alloc, text, sheet, place, lines),
        _ => Ok(()),
    }
}

/// Appends what is wrong with the form of a document.
fn push_form(
    alloc: Global,
    text: &str,
    table: &Table,
    place: Place,
    lines: &mut Vec<Vec<u8>>,
) -> Result<(), AllocError>
    ensures { OnOk result (AddsLines lines.old lines.new (form_lines text.now (table_view table.now) place)) }
{
    let name = name_in(alloc, version_of(table), text, place)?;
    let line = form_sentence(alloc, table, place, name.as_str())?;
    lines.push(line)?;
    Ok(())
}

/// Appends what is wrong with a document.
fn push_said(
    alloc: Global,
    text: &str,
    table: &Table,
    code: Code,
    place: Place,
    lines: &mut Vec<Vec<u8>>,
) -> Result<(), AllocError>
    ensures { let ms = table_view table.now in
        OnOk result (AddsLines lines.old lines.new (said text.now ms (form_fault ms) code place)) }
{
    match read_sheet(alloc, table) {
        Ok(sheet) => push_fault(alloc, text, &sheet, code, place, lines),
        Err(DesignFault::Refused { .. }) => push_form(alloc, text, table, place, lines),
        Err(DesignFault::Memory) => Err(AllocError),
    }
}

/// Appends where the fault of a refused design stands in its text, with that line, and what is wrong there, for the code
/// and the place with which the design is refused, from D02 on. `table` is the text's table.
pub fn push_refused(
    alloc: Global,
    text: &str,
    table: &Table,
    code: Code,
    place: Place,
    lines: &mut Vec<Vec<u8>>,
) -> Result<(), AllocError>
    ensures { OnOk result (AddsLines lines.old lines.new (refused_lines text.now (table_view table.now) code place)) }
{
    push_place(alloc, version_of(table), text, place, lines)?;
    push_said(alloc, text, table, code, place, lines)?;
    Ok(())
}
