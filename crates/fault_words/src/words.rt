//! Words that sentences are made of. An error is want of memory; then a part of what is appended may stand there.

ghost use Rattle.std.specs.Prelude.{◌≡◌, ◌++◌, OnOk};
ghost use Rattle.std.specs.Fmt.{signed_decimal};
ghost use Rattle.design_table.specs.Texts.{texts};
ghost use Rattle.rail_text.specs.Added.{AddsText};
ghost use Rattle.fault_words.specs.Words.{allowed_words, each_name, edges_words, is_words, kind_text, line_of};

use design_table::{EntryKind, Key};
use rail_text::put_number;
use std::alloc::AllocError;

/// Appends a text.
pub(crate) fn put_text(text: &mut Vec<u8>, words: &str) -> Result<(), AllocError>
    ensures { OnOk result (AddsText text.old text.new words.now) }
{
    text.extend_from_slice(words.as_bytes())
}

/// Appends the word for an entry of a kind.
pub(crate) fn put_kind(text: &mut Vec<u8>, kind: EntryKind) -> Result<(), AllocError>
    ensures { OnOk result (AddsText text.old text.new (kind_text kind)) }
{
    put_text(text, kind.key().text())
}

/// Appends a whole number, with a sign where it is less than 0.
pub(crate) fn put_whole(text: &mut Vec<u8>, number: i64) -> Result<(), AllocError>
    ensures { OnOk result (AddsText text.old text.new (signed_decimal number)) }
{
    let mut buffer = itoa::Buffer::new();
    put_text(text, buffer.format(number))
}

/// Appends `, ` and a name, for each of these.
fn put_each_name(text: &mut Vec<u8>, names: &[&str]) -> Result<(), AllocError>
    ensures { OnOk result (AddsText text.old text.new (each_name (texts names.now))) }
{
    for name in names {
        put_text(text, ", ")?;
        put_text(text, name)?;
    }
    Ok(())
}

/// Appends the edges of these names.
pub(crate) fn put_edges(text: &mut Vec<u8>, names: &[&str]) -> Result<(), AllocError>
    ensures { OnOk result (AddsText text.old text.new (edges_words (texts names.now))) }
{
    match names {
        [] => put_text(text, "no edge"),
        [name] => {
            put_text(text, "edge ")?;
            put_text(text, name)
        }
        [first, rest @ ..] => {
            put_text(text, "edges ")?;
            put_text(text, first)?;
            put_each_name(text, rest)
        }
    }
}

/// Appends which number is at a key.
pub(crate) fn put_is(text: &mut Vec<u8>, key: Key, number: i64) -> Result<(), AllocError>
    ensures { OnOk result (AddsText text.old text.new (is_words key number)) }
{
    put_text(text, key.text())?;
    put_text(text, " is ")?;
    put_whole(text, number)
}

/// Appends how many are allowed.
pub(crate) fn put_allowed(text: &mut Vec<u8>, low: u64, high: u64) -> Result<(), AllocError>
    ensures { OnOk result (AddsText text.old text.new (allowed_words low high)) }
{
    put_text(text, ", and ")?;
    put_number(text, low)?;
    put_text(text, " to ")?;
    put_number(text, high)?;
    put_text(text, " are allowed")
}

/// Appends an LF where there are words before it.
pub(crate) fn end_line(text: &mut Vec<u8>) -> Result<(), AllocError>
    ensures { OnOk result (text.new.items ≡ line_of text.old.items) }
{
    if !text.is_empty() {
        text.push(b'\n')?;
    }
    Ok(())
}
