//! What is wrong with the form of a document, in words. An error is want of memory; then a part of what is appended may
//! stand there.

ghost use Rattle.std.specs.Prelude.{◌≡◌, ◌&&◌, is_none, length, nat_le, option_map, IfOk, OnOk};
ghost use Rattle.std.specs.List.{list_all};
ghost use Rattle.toml.specs.Data.{no_members};
ghost use Rattle.toml.specs.View.{items_view, table_view, view};
ghost use Rattle.design_table.specs.Forms.{found, is_name_byte, is_name_text, list_of_items};
ghost use Rattle.design_table.specs.Sheet.{members_of};
ghost use Rattle.rail_text.specs.Added.{AddsText};
ghost use Rattle.fault_words.specs.Entries.{of_entry};
ghost use Rattle.fault_words.specs.Forms.{any_text, entry_words, field_form, form_sentence, form_words, key_named};
ghost use Rattle.fault_words.specs.Forms.{key_words, keys_of_entry, none_words, top_form};

use crate::entries::entry;
use crate::words::{end_line, put_kind, put_text};
use design_table::{EntryKind, Key, Place};
use rail_text::put_number;
use std::alloc::{AllocError, Global};
use toml::{Table, Value};

// ---- keys that are missing, and those of the wrong form

/// The value at a key.
fn value_at<'a>(table: &'a Table, key: Key) -> Option<&'a Value>
    ensures { option_map (λ v. view v.now) result ≡ found key (table_view table.now) }
{
    table.get(key.text())
}

/// Whether a table lacks a key.
fn lacks(table: &Table, key: Key) -> bool
    ensures { result ≡ is_none (found key (table_view table.now)) }
{
    value_at(table, key).is_none()
}

/// Whether an entry lacks a key; one that is no table lacks each.
fn lacks_in(entry: &Value, key: Key) -> bool
    ensures { result ≡ is_none (found key (members_of (view entry.now))) }
{
    match entry {
        Value::Table(table) => lacks(table, key),
        _ => true,
    }
}

/// Whether the entry of a number lacks a key.
#[tactic(auto, using(crate::proofs::Seen::listed_at))]
fn lacks_among(values: &[Value], number: u64, key: Key) -> bool
    ensures { let entries = list_of_items (items_view values.now) in
        result ≡ is_none (found key (of_entry members_of no_members entries number)) }
{
    match entry(values, number) {
        Some(value) => lacks_in(value, key),
        None => true,
    }
}

/// Whether an entry of the document lacks a key.
fn lacks_at(table: &Table, kind: EntryKind, number: u64, key: Key) -> bool
    ensures { result ≡ is_none (found key (keys_of_entry (table_view table.now) kind number)) }
{
    match value_at(table, kind.key()) {
        Some(Value::Array(values)) => lacks_among(values.as_slice(), number, key),
        _ => true,
    }
}

/// The form of the value at a key of the top.
fn top_form(key: Key) -> &'static str
    ensures { result.now ≡ top_form key }
{
    match key {
        Key::Version | Key::TickMs | Key::HorizonMs => "a whole number",
        _ => "an array of tables",
    }
}

/// The form of the value at a key of an entry.
fn field_form(key: Key) -> &'static str
    ensures { result.now ≡ field_form key }
{
    match key {
        Key::Boundary => "true or false",
        Key::FromSide | Key::ToSide | Key::Toward => "\"a\" or \"b\"",
        Key::LengthMm
        | Key::SpeedMmS
        | Key::AccelMmS2
        | Key::BrakeMmS2
        | Key::FirstVisit
        | Key::ThenVisit
        | Key::FromVisit
        | Key::ToVisit
        | Key::MaxMs
        | Key::HoldMs => "a whole number",
        Key::Sections => "an array of names of sections",
        Key::Visits => "an array of arrays of names of nodes",
        Key::DwellMs => "an array of whole numbers",
        _ => "a text of 1 to 32 letters, digits, _ or -",
    }
}

/// Appends that a key is missing, or which form its value is to have.
fn put_key(text: &mut Vec<u8>, is_missing: bool, key: Key, form: &str) -> Result<(), AllocError>
    ensures { OnOk result (AddsText text.old text.new (key_words is_missing key form.now)) }
{
    if is_missing {
        put_text(text, "the key ")?;
        put_text(text, key.text())?;
        put_text(text, " is missing")
    } else {
        put_text(text, key.text())?;
        put_text(text, " is to be ")?;
        put_text(text, form)
    }
}

/// Appends that an entry is to be a table.
fn put_entry(text: &mut Vec<u8>, kind: EntryKind, number: u64) -> Result<(), AllocError>
    ensures { OnOk result (AddsText text.old text.new (entry_words kind number)) }
{
    put_kind(text, kind)?;
    put_text(text, " ")?;
    put_number(text, number)?;
    put_text(text, " is to be a table")?;
    Ok(())
}

// ---- keys that nothing asks for

/// Whether a byte may stand in a name.
fn is_name_byte(byte: u8) -> bool
    ensures { result ≡ is_name_byte byte }
{
    byte.is_ascii_lowercase()
        || byte.is_ascii_uppercase()
        || byte.is_ascii_digit()
        || byte == b'_'
        || byte == b'-'
}

/// Whether all of these bytes may stand in a name.
fn are_name_bytes(bytes: &[u8]) -> bool
    ensures { result ≡ list_all is_name_byte bytes.now }
{
    bytes.iter().all(|byte| is_name_byte(*byte))
}

/// Whether a text has the form of a name.
fn is_name(text: &str) -> bool
    ensures { result ≡ is_name_text text.now }
{
    (1 <= text.len() && text.len() <= 32) && are_name_bytes(text.as_bytes())
}

/// Appends a key by its name, where it has the form of one.
fn put_key_named(text: &mut Vec<u8>, name: &str) -> Result<(), AllocError>
    ensures { OnOk result (AddsText text.old text.new (key_named name.now)) }
{
    if is_name(name) {
        put_text(text, "the key ")?;
        put_text(text, name)
    } else {
        put_text(text, "this key")
    }
}

/// An entry of a kind.
fn any_text(kind: EntryKind) -> &'static str
    ensures { result.now ≡ any_text kind }
{
    match kind {
        EntryKind::Node => "a node",
        EntryKind::Edge => "an edge",
        EntryKind::Signal => "a signal",
        EntryKind::Vehicle => "a vehicle",
        EntryKind::Train => "a train",
        EntryKind::Order => "an order",
        EntryKind::Within => "a within",
        EntryKind::Overlap => "an overlap",
    }
}

/// Appends that a key is none of an entry, or of a design.
fn put_none(text: &mut Vec<u8>, unknown: &str, whole: &str) -> Result<(), AllocError>
    ensures { OnOk result (AddsText text.old text.new (none_words unknown.now whole.now)) }
{
    put_key_named(text, unknown)?;
    put_text(text, " is none of ")?;
    put_text(text, whole)?;
    Ok(())
}

// ---- at a place

/// What is wrong at a place, in words.
fn form_words(
    alloc: Global,
    table: &Table,
    place: Place,
    unknown: &str,
) -> Result<Vec<u8>, AllocError>
    ensures { IfOk result (λ text. text.items ≡ form_words (table_view table.now) place unknown.now) }
{
    let mut text = Vec::new(alloc);
    match place {
        Place::Top(key) => put_key(&mut text, lacks(table, key), key, top_form(key))?,
        Place::Entry(kind, number) => put_entry(&mut text, kind, number)?,
        Place::Field(kind, number, key) => {
            let is_missing = lacks_at(table, kind, number, key);
            put_key(&mut text, is_missing, key, field_form(key))?;
        }
        Place::UnknownField(kind, _) => put_none(&mut text, unknown, any_text(kind))?,
        Place::Unknown => put_none(&mut text, unknown, "a design")?,
        Place::File | Place::Routes => {}
    }
    Ok(text)
}

/// The sentence that says what is wrong with a document that is refused with D02 at this place, with its LF. `unknown`
/// is the name of the key there, which is said where nothing asks for it. It has no byte for the file as a whole and its
/// routes. An error is want of memory.
pub fn form_sentence(
    alloc: Global,
    table: &Table,
    place: Place,
    unknown: &str,
) -> Result<Vec<u8>, AllocError>
    ensures { IfOk result (λ text. text.items ≡ form_sentence (table_view table.now) place unknown.now) }
{
    let mut text = form_words(alloc, table, place, unknown)?;
    end_line(&mut text)?;
    Ok(text)
}
