//! How far values and lines go.

ghost use Rattle.std.specs.Prelude.{◌≡◌, ℕ, ◌<◌, ◌≤◌, length, option_map, IfOk};
ghost use Rattle.toml_parser.specs.Lexical.{right_bracket};
ghost use Rattle.toml_parser.specs.Reading.{Gives, Reads, Shortens, key_view};
ghost use Rattle.toml.specs.Parse.{after_byte, after_element, header_key, key_equals};
ghost use Rattle.toml_places.specs.Extents.{past_atom, past_items, past_line, past_members, past_value};
ghost use Rattle.toml_places.specs.Answers.{Answers};
ghost use Rattle.toml_places.specs.Extents.{past, past_item, past_member};

use std::alloc::{AllocError, Global};
use toml_parser::text::{byte_at, first, skip, skip_blank, skip_ws};
use toml_parser::{
    ErrorKind, Key, ParseError, RECURSION_LIMIT, dotted_key, quoted, starts_string, unquoted,
};

/// What was read, or nothing where it was refused.
pub(crate) fn found<T: Drop>(read: Result<T, ParseError>) -> Result<Option<T>, AllocError>
    ensures { Answers read result }
{
    match read {
        Ok(read) => Ok(Some(read)),
        Err(ParseError::OutOfMemory) => Err(AllocError),
        Err(ParseError::At(..)) => Ok(None),
    }
}

#[tactic(auto, unfolding(crate::specs::Extents::past_atom, toml::specs::Parse::atom))]
/// What follows a string or a scalar.
fn past_atom(alloc: Global, s: &str) -> Result<&str, ParseError>
    ensures value { Gives (λ rest. rest.now) result (past_atom s.now) }
    ensures shorter { IfOk result (λ rest. length rest.now < length s.now) }
{
    if starts_string(s) {
        let (_text, rest) = quoted(alloc, s)?;
        Ok(rest)
    } else {
        let (_scalar, rest) = unquoted(alloc, s)?;
        Ok(rest)
    }
}

/// What follows a value, with arrays and inline tables at most `depth` deep.
#[cycle(value)]
fn past_value(alloc: Global, s: &str, depth: usize) -> Result<&str, ParseError>
    ensures value { Gives (λ rest. rest.now) result (past_value depth s.now) }
    ensures shorter { IfOk result (λ rest. length rest.now < length s.now) }
{
    let byte = first(s);
    if byte != b'[' && byte != b'{' {
        return past_atom(alloc, s);
    }
    if depth == 0 {
        return Err(ParseError::at(ErrorKind::Recursion, s));
    }
    if byte == b'[' {
        let rest = past_items(alloc, skip(s, 1), depth - 1)?;
        Ok(rest)
    } else {
        let rest = past_members(alloc, skip(s, 1), depth - 1)?;
        Ok(rest)
    }
}

/// What follows the rest of an array.
#[cycle(value)]
fn past_items(alloc: Global, s: &str, depth: usize) -> Result<&str, ParseError>
    ensures value { (n : ℕ) → length s.now < n
        → Gives (λ rest. rest.now) result (past_items (past_value depth) n s.now) }
    ensures shorter { IfOk result (λ rest. length rest.now < length s.now) }
{
    let mut rest = s;
    'items: loop {
        let start = skip_blank(rest, true);
        if first(start) == b']' {
            return Ok(skip(start, 1));
        }
        let after = past_value(alloc, start, depth)?;
        rest = after_element(after, b']', ErrorKind::Array)?;
    }
}

/// What follows the rest of an inline table.
#[cycle(value)]
fn past_members(alloc: Global, s: &str, depth: usize) -> Result<&str, ParseError>
    ensures value { (n : ℕ) → length s.now < n
        → Gives (λ rest. rest.now) result (past_members (past_value depth) n s.now) }
    ensures shorter { IfOk result (λ rest. length rest.now < length s.now) }
{
    let mut rest = s;
    'members: loop {
        let start = skip_blank(rest, true);
        if first(start) == b'}' {
            return Ok(skip(start, 1));
        }
        let (_key, value) = key_equals(alloc, start)?;
        let after = past_value(alloc, value, depth)?;
        rest = after_element(after, b'}', ErrorKind::InlineTable)?;
    }
}

#[tactic(auto, unfolding(toml::specs::Parse::after_element))]
/// After a comma, or at the closing bracket.
fn after_element(s: &str, closing: u8, missing: ErrorKind) -> Result<&str, ParseError>
    ensures value { Gives (λ rest. rest.now) result (after_element closing s.now) }
    ensures within { IfOk result (λ rest. length rest.now ≤ length s.now) }
{
    let rest = skip_blank(s, true);
    if first(rest) == b',' {
        Ok(skip(rest, 1))
    } else if first(rest) == closing {
        Ok(rest)
    } else {
        Err(ParseError::at(missing, rest))
    }
}

#[tactic(auto, unfolding(toml::specs::Parse::key_equals))]
/// A key, `=` and the white space after it.
pub(crate) fn key_equals(alloc: Global, s: &str) -> Result<(Key, &str), ParseError>
    ensures value { Reads key_view result (key_equals s.now) }
    ensures shorter { Shortens s.now result }
{
    let (key, rest) = dotted_key(alloc, s)?;
    if first(rest) != b'=' {
        return Err(ParseError::at(ErrorKind::MissingEquals, rest));
    }
    Ok((key, skip_ws(skip(rest, 1))))
}

#[tactic(auto, unfolding(toml::specs::Parse::header_key))]
/// The key of a header and its first closing bracket.
pub(crate) fn header_key(alloc: Global, s: &str) -> Result<(Key, &str), ParseError>
    ensures value { Reads key_view result (header_key s.now) }
    ensures shorter { Shortens s.now result }
{
    let (key, rest) = dotted_key(alloc, skip_ws(s))?;
    if first(rest) != b']' {
        return Err(ParseError::at(ErrorKind::UnclosedTable, rest));
    }
    Ok((key, skip(rest, 1)))
}

/// What follows an item of an array, and the comma behind it.
pub(crate) fn past_item(alloc: Global, s: &str) -> Result<&str, ParseError>
    ensures value { Gives (λ rest. rest.now) result (past_item past s.now) }
    ensures shorter { IfOk result (λ rest. length rest.now < length s.now) }
{
    let after = past_value(alloc, s, RECURSION_LIMIT)?;
    after_element(after, b']', ErrorKind::Array)
}

/// What follows a key of an inline table with its value, and the comma behind it.
pub(crate) fn past_member(alloc: Global, s: &str) -> Result<&str, ParseError>
    ensures value { Gives (λ rest. rest.now) result (past_member past s.now) }
    ensures shorter { IfOk result (λ rest. length rest.now < length s.now) }
{
    let (_key, value) = key_equals(alloc, s)?;
    let after = past_value(alloc, value, RECURSION_LIMIT)?;
    after_element(after, b'}', ErrorKind::InlineTable)
}

#[tactic(auto, unfolding(crate::specs::Extents::past_line))]
/// What follows a header, or a key with its value.
pub(crate) fn past_line(alloc: Global, s: &str) -> Result<&str, ParseError>
    ensures value { Gives (λ rest. rest.now) result (past_line s.now) }
    ensures shorter { IfOk result (λ rest. length rest.now < length s.now) }
{
    if first(s) == b'[' && byte_at(s, 1) == b'[' {
        let (_key, rest) = header_key(alloc, skip(s, 2))?;
        if first(rest) != b']' {
            return Err(ParseError::at(ErrorKind::UnclosedArrayTable, rest));
        }
        Ok(skip(rest, 1))
    } else if first(s) == b'[' {
        let (_key, rest) = header_key(alloc, skip(s, 1))?;
        Ok(rest)
    } else {
        let (_key, value) = key_equals(alloc, s)?;
        let rest = past_value(alloc, value, RECURSION_LIMIT)?;
        Ok(rest)
    }
}
