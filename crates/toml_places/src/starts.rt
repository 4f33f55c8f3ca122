//! Where lines, items and keys begin.

ghost use Rattle.std.specs.Prelude.{◌≡◌, map, IfOk};
ghost use Rattle.toml.specs.Parse.{skip_bom};
ghost use Rattle.toml_places.specs.Starts.{document_lines, items_in, keys_in, lines_in};
ghost use Rattle.toml_places.specs.Texts.{texts};

use crate::extents::{found, past_item, past_line, past_member};
use std::alloc::{AllocError, Global};
use toml_parser::text::{byte_at, first, skip_blank};

/// The lines of a document that are not blank: each a header, or a key with its value.
pub fn document_lines<'a>(alloc: Global, text: &'a str) -> Result<Vec<&'a str>, AllocError>
    ensures { IfOk result (λ lines. texts lines.items ≡ document_lines text.now) }
{
    lines_in(alloc, skip_bom(text))
}

/// Without a byte order mark.
fn skip_bom(s: &str) -> &str
    ensures { result.now ≡ skip_bom s.now }
{
    if first(s) == 0xEF && byte_at(s, 1) == 0xBB && byte_at(s, 2) == 0xBF {
        &s[3..]
    } else {
        s
    }
}

/// The lines of a text.
pub(crate) fn lines_in<'a>(alloc: Global, text: &'a str) -> Result<Vec<&'a str>, AllocError>
    ensures { IfOk result (λ lines. texts lines.items ≡ lines_in text.now) }
{
    let mut lines = Vec::new(alloc);
    let mut rest = text;
    'lines: loop {
        let start = skip_blank(rest, true);
        if start.is_empty() {
            return Ok(lines);
        }
        lines.push(start)?;
        match found(past_line(alloc, start))? {
            Some(after) => rest = after,
            None => return Ok(lines),
        }
    }
}

/// The items of an array, behind its bracket.
pub(crate) fn items_in<'a>(alloc: Global, text: &'a str) -> Result<Vec<&'a str>, AllocError>
    ensures { IfOk result (λ items. texts items.items ≡ items_in text.now) }
{
    let mut items = Vec::new(alloc);
    let mut rest = text;
    'items: loop {
        let start = skip_blank(rest, true);
        if first(start) == b']' {
            return Ok(items);
        }
        items.push(start)?;
        match found(past_item(alloc, start))? {
            Some(after) => rest = after,
            None => return Ok(items),
        }
    }
}

/// The keys of an inline table, behind its brace.
pub(crate) fn keys_in<'a>(alloc: Global, text: &'a str) -> Result<Vec<&'a str>, AllocError>
    ensures { IfOk result (λ keys. texts keys.items ≡ keys_in text.now) }
{
    let mut keys = Vec::new(alloc);
    let mut rest = text;
    'keys: loop {
        let start = skip_blank(rest, true);
        if first(start) == b'}' {
            return Ok(keys);
        }
        keys.push(start)?;
        match found(past_member(alloc, start))? {
            Some(after) => rest = after,
            None => return Ok(keys),
        }
    }
}
