//! Places of a text, shown by their lines. An error is want of memory, and leaves a part of the lines.

ghost use Rattle.std.specs.Prelude.{◌≡◌, IfOk, OnOk};
ghost use Rattle.rail_text.specs.Added.{AddsLines};
ghost use Rattle.design_places.specs.Shown.{place_lines, shown_line, spot_line, spot_lines};

use crate::places::place_in;
use design_table::Place;
use rail_text::put_number;
use std::alloc::{AllocError, Global};
use toml_places::{column, line_number, line_text};

/// `line 17 column 3`, where the rest of a text begins there.
fn spot_line(alloc: Global, text: &[u8], rest: &[u8]) -> Result<Vec<u8>, AllocError>
    ensures { IfOk result (λ line. line.items ≡ spot_line text.now rest.now) }
{
    let mut line = Vec::new(alloc);
    line.extend_from_slice(b"line ")?;
    put_number(&mut line, line_number(text, rest))?;
    line.extend_from_slice(b" column ")?;
    put_number(&mut line, column(text, rest))?;
    line.push(b'\n')?;
    Ok(line)
}

/// The line of a text in which the rest of it begins.
fn shown_line(alloc: Global, text: &[u8], rest: &[u8]) -> Result<Vec<u8>, AllocError>
    ensures { IfOk result (λ line. line.items ≡ shown_line text.now rest.now) }
{
    let mut line = Vec::new(alloc);
    line.extend_from_slice(line_text(text, line_number(text, rest)))?;
    line.push(b'\n')?;
    Ok(line)
}

/// Appends where the rest of a text begins: its line and column, and that line.
pub fn push_spot(
    alloc: Global,
    text: &[u8],
    rest: &[u8],
    lines: &mut Vec<Vec<u8>>,
) -> Result<(), AllocError>
    ensures { OnOk result (AddsLines lines.old lines.new (spot_lines text.now rest.now)) }
{
    let line = spot_line(alloc, text, rest)?;
    lines.push(line)?;
    let line = shown_line(alloc, text, rest)?;
    lines.push(line)?;
    Ok(())
}

/// Appends where a place of a design of a version stands in its text: the line and the column, and that line; nothing
/// where the text does not have the place.
pub fn push_place(
    alloc: Global,
    version: u64,
    text: &str,
    place: Place,
    lines: &mut Vec<Vec<u8>>,
) -> Result<(), AllocError>
    ensures { OnOk result (AddsLines lines.old lines.new (place_lines version text.now place)) }
{
    match place_in(alloc, version, text, place)? {
        Some(rest) => push_spot(alloc, text.as_bytes(), rest.as_bytes(), lines),
        None => Ok(()),
    }
}
