//! The entries of an array, and the keys of an entry.

ghost use Rattle.std.specs.Prelude.{◌≡◌, ◌++◌, filter, flat_map, option_map, string_bytes, true, IfOk};
ghost use Rattle.toml_parser.specs.Reading.{Gives, Reads, Shortens, key_view};
ghost use Rattle.toml_places.specs.Finding.{before_headers, entries_of, first_part, is_entry_of, is_name, items_at};
ghost use Rattle.toml_places.specs.Finding.{items_of, key_at, keys_of, name_at, top_lines};
ghost use Rattle.toml_places.specs.Extents.{header, is_entry_header, is_header};
ghost use Rattle.toml_places.specs.Texts.{texts};

use crate::extents::{found, header_key, key_equals};
use crate::starts::{items_in, keys_in, lines_in};
use std::alloc::{AllocError, Global};
use toml_parser::text::{byte_at, first, skip};
use toml_parser::{Key, ParseError};

/// Whether a header begins here.
fn is_header(s: &str) -> bool
    ensures { result ≡ is_header s.now }
{
    first(s) == b'['
}

/// Whether the header of an entry of an array begins here.
fn is_entry_header(s: &str) -> bool
    ensures { result ≡ is_entry_header s.now }
{
    first(s) == b'[' && byte_at(s, 1) == b'['
}

/// The key of a header.
fn header(alloc: Global, s: &str) -> Result<(Key, &str), ParseError>
    requires { is_header s.now ≡ true }
    ensures { Reads key_view result (header s.now) }
{
    if is_entry_header(s) {
        header_key(alloc, skip(s, 2))
    } else {
        header_key(alloc, skip(s, 1))
    }
}

/// The first part of a key.
fn first_part(key: &Key) -> &str
    ensures { result.now ≡ first_part (key_view key.now) }
{
    match key.path.first() {
        Some(part) => part.as_str(),
        None => key.last.as_str(),
    }
}

/// The key of a line or of an inline table.
fn key_at(alloc: Global, text: &str) -> Result<(Key, &str), ParseError>
    ensures { Reads key_view result (key_at text.now) }
{
    if is_header(text) {
        header(alloc, text)
    } else {
        key_equals(alloc, text)
    }
}

/// The name with which a line, or a key of an inline table, begins: the first part of its key.
pub fn name_at(alloc: Global, text: &str) -> Result<Option<String>, AllocError>
    ensures { IfOk result (λ name. option_map string_bytes name ≡ name_at text.now) }
{
    match found(key_at(alloc, text))? {
        Some((key, _rest)) => {
            let name = String::from_str(alloc, first_part(&key))?;
            Ok(Some(name))
        }
        None => Ok(None),
    }
}

/// Whether the key is one name, this one.
fn is_name(key: &Key, name: &str) -> bool
    ensures { result ≡ is_name name.now (key_view key.now) }
{
    key.path.is_empty() && key.last.as_str() == name
}

/// Whether the line is the header of an entry of the array of this name.
fn is_entry_of(alloc: Global, line: &str, name: &str) -> Result<bool, AllocError>
    ensures { IfOk result (λ answer. answer ≡ is_entry_of name.now line.now) }
{
    if !is_entry_header(line) {
        return Ok(false);
    }
    match found(header(alloc, line))? {
        Some((key, _rest)) => Ok(is_name(&key, name)),
        None => Ok(false),
    }
}

/// The items of a value, where it is an array.
fn items_at<'a>(alloc: Global, value: &'a str) -> Result<Vec<&'a str>, AllocError>
    ensures { IfOk result (λ items. texts items.items ≡ items_at value.now) }
{
    if first(value) == b'[' {
        items_in(alloc, skip(value, 1))
    } else {
        Ok(Vec::new(alloc))
    }
}

/// The items of the array that the line gives this name.
fn items_of<'a>(alloc: Global, line: &'a str, name: &str) -> Result<Vec<&'a str>, AllocError>
    ensures { IfOk result (λ items. texts items.items ≡ items_of name.now line.now) }
{
    match found(key_equals(alloc, line))? {
        Some((key, value)) => {
            if is_name(&key, name) {
                items_at(alloc, value)
            } else {
                Ok(Vec::new(alloc))
            }
        }
        None => Ok(Vec::new(alloc)),
    }
}

/// The lines before the first header.
fn before_headers<'a>(alloc: Global, lines: &[&'a str]) -> Result<Vec<&'a str>, AllocError>
    ensures { IfOk result (λ before. texts before.items ≡ before_headers (texts lines.now)) }
{
    let mut before = Vec::new(alloc);
    for line in lines {
        if is_header(line) {
            return Ok(before);
        }
        before.push(*line)?;
    }
    Ok(before)
}

/// The lines that give something to the document itself: those before the first header, and headers.
pub fn top_lines<'a>(alloc: Global, lines: &[&'a str]) -> Result<Vec<&'a str>, AllocError>
    ensures { IfOk result (λ top. texts top.items ≡ top_lines (texts lines.now)) }
{
    let mut top = before_headers(alloc, lines)?;
    for line in lines {
        if is_header(line) {
            top.push(*line)?;
        }
    }
    Ok(top)
}

/// The items of the array of this name that these lines give.
fn items_of_all<'a>(
    alloc: Global,
    lines: &[&'a str],
    name: &str,
) -> Result<Vec<&'a str>, AllocError>
    ensures { IfOk result (λ items. texts items.items ≡ flat_map (items_of name.now) (texts lines.now)) }
{
    let mut all = Vec::new(alloc);
    for line in lines {
        let items = items_of(alloc, line, name)?;
        all.extend_from_slice(items.as_slice())?;
    }
    Ok(all)
}

/// The entries of the array of this name, in order, of a document with these lines.
pub fn entries_of<'a>(
    alloc: Global,
    lines: &[&'a str],
    name: &str,
) -> Result<Vec<&'a str>, AllocError>
    ensures { IfOk result (λ entries. texts entries.items ≡ entries_of name.now (texts lines.now)) }
{
    let pairs = before_headers(alloc, lines)?;
    let mut entries = items_of_all(alloc, pairs.as_slice(), name)?;
    for line in lines {
        if is_entry_of(alloc, line, name)? {
            entries.push(*line)?;
        }
    }
    Ok(entries)
}

/// The keys of an entry: those of a table in braces, or the lines behind a header up to the next one.
pub fn keys_of<'a>(alloc: Global, entry: &'a str) -> Result<Vec<&'a str>, AllocError>
    ensures { IfOk result (λ keys. texts keys.items ≡ keys_of entry.now) }
{
    if first(entry) == b'{' {
        return keys_in(alloc, skip(entry, 1));
    }
    if !is_header(entry) {
        return Ok(Vec::new(alloc));
    }
    let lines = lines_in(alloc, entry)?;
    match lines.as_slice().split_first() {
        Some((_header, after)) => before_headers(alloc, after),
        None => Ok(lines),
    }
}
