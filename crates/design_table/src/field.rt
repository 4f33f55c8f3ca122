//! One key of a table: the form of its value, and what the value is.

ghost use Rattle.std.specs.Prelude.{◌≡◌, ◌<◌, ◌&&◌, ℕ, ℤ, List, nat_le, map, not, length, string_bytes, option_map};
ghost use Rattle.std.specs.Prelude.{bytes_eq, Some, IfOk};
ghost use Rattle.std.specs.List.{list_all, list_any};
ghost use Rattle.std.specs.BTreeMap.{keys};
ghost use Rattle.toml.specs.View.{view, table_view};
ghost use Rattle.design_table.specs.Forms.{found, is_name_byte, is_name_text, is_name_value, name_value, is_name};
ghost use Rattle.design_table.specs.Forms.{name_of, is_side, side_of, is_whole, whole_of, is_wholes, wholes_of};
ghost use Rattle.design_table.specs.Forms.{flag_of, has_form, has_unknown, is_known, known_value, is_names, names_of};
ghost use Rattle.design_table.specs.Forms.{is_visit, visit_of, is_visits, visits_of};
ghost use Rattle.design_table.specs.Texts.{texts, visits_seen};
ghost use Rattle.design_table.specs.Keys.{keys_in};
ghost use Rattle.design_table.specs.declared.fault.DesignFault.TheVariants.{Refused};

use crate::fault::{Code, DesignFault};
use crate::items::{Item, are_items, items_of};
use crate::key::{Column, Key, is_known};
use crate::place::Place;
use crate::sheet::Side;
use std::alloc::{AllocError, Global};
use toml::{Table, Value};

/// The form of the value at a key.
#[derive(Clone, Copy, Debug, PartialEq, Eq)]
pub enum Form {
    /// A text of 1 to 32 ASCII letters, digits, `_` or `-`.
    Name,
    /// `a` or `b`.
    Side,
    /// A whole number.
    Whole,
    /// A truth value, which may be absent.
    Flag,
    /// An array of names.
    Names,
    /// An array of arrays of names.
    Visits,
    /// An array of whole numbers.
    Wholes,
    /// An array of entries, which may be absent.
    Array,
}

/// The refusal of a key or an entry of the wrong form.
pub fn form_fault(place: Place) -> DesignFault
    ensures { result ≡ Refused Code.D02 place }
{
    DesignFault::Refused {
        code: Code::D02,
        place,
    }
}

/// The value at a key.
pub fn value_at<'a>(table: &'a Table, key: Key) -> Option<&'a Value>
    ensures { option_map (λ v. view v.now) result ≡ found key (table_view table.now) }
{
    table.get(key.text())
}

/// The value at a key, where it is one that a version knows of these columns.
pub fn known_value<'a>(
    columns: &[Column],
    version: u64,
    table: &'a Table,
    key: Key,
) -> Option<&'a Value>
    ensures { option_map (λ v. view v.now) result
        ≡ known_value (keys_in version columns.now) (table_view table.now) key }
{
    if is_known(columns, version, key.text()) {
        value_at(table, key)
    } else {
        None
    }
}

/// Whether the table has a key that is none of those that a version knows of these columns.
#[tactic(auto, using(crate::proofs::KeyLists::has_unknown_view))]
pub fn has_unknown_key(columns: &[Column], version: u64, table: &Table) -> bool
    ensures { result ≡ has_unknown (keys_in version columns.now) (table_view table.now) }
{
    is_any_unknown(columns, version, table)
}

fn is_any_unknown(columns: &[Column], version: u64, table: &Table) -> bool
    ensures { let known = keys_in version columns.now in
        result ≡ list_any (λ text. not (is_known known (string_bytes text))) (keys table.now) }
{
    table
        .keys()
        .any(|text| !is_known(columns, version, text.as_str()))
}

/// Whether the value, or that there is none, has the form.
pub fn has_form(form: Form, value: Option<&Value>) -> bool
    ensures { result ≡ has_form form (option_map (λ v. view v.now) value.entry) }
{
    match form {
        Form::Name => is_name(value),
        Form::Side => is_side(value),
        Form::Whole => matches!(value, Some(Value::Integer(_))),
        Form::Flag => matches!(value, None | Some(Value::Boolean(_))),
        Form::Names => is_names(value),
        Form::Visits => is_visits(value),
        Form::Wholes => is_wholes(value),
        Form::Array => matches!(value, None | Some(Value::Array(_))),
    }
}

// ---- names

fn is_name_letter(byte: u8) -> bool
    ensures { result ≡ is_name_byte byte }
{
    byte.is_ascii_lowercase()
        || byte.is_ascii_uppercase()
        || byte.is_ascii_digit()
        || byte == b'_'
        || byte == b'-'
}

fn has_name_letters(text: &[u8]) -> bool
    ensures { result ≡ list_all is_name_byte text.now }
{
    text.iter().all(|byte| is_name_letter(*byte))
}

fn has_name_length(text: &str) -> bool
    ensures { result ≡ (nat_le 1 (length text.now) && nat_le (length text.now) 32) }
{
    1 <= text.len() && text.len() <= 32
}

/// Whether a text is a name: 1 to 32 ASCII letters, digits, `_` or `-`.
fn is_name_text(text: &str) -> bool
    ensures { result ≡ is_name_text text.now }
{
    has_name_length(text) && has_name_letters(text.as_bytes())
}

/// Whether a value is a name.
fn is_name_value(value: &Value) -> bool
    ensures { result ≡ is_name_value (view value.now) }
{
    match value {
        Value::String(text) => is_name_text(text.as_str()),
        _ => false,
    }
}

/// The text of a value.
fn name_value<'a>(value: &'a Value) -> &'a str
    ensures { result.now ≡ name_value (view value.now) }
{
    match value {
        Value::String(text) => text.as_str(),
        _ => "",
    }
}

/// A name.
impl<'a> Item<'a> for &'a str {
    ghost Parsed = { List ℕ };

    ghost seen = { λ name. name.now };

    ghost has_form = { is_name_value };

    ghost parsed = { name_value };

    fn is_item(value: &Value) -> bool
        ensures { result ≡ is_name_value (view value.now) }
    {
        is_name_value(value)
    }

    fn item(_alloc: Global, value: &'a Value) -> Result<Self, AllocError>
        ensures { IfOk result (λ name. name.now ≡ name_value (view value.now)) }
    {
        Ok(name_value(value))
    }
}

fn is_name(value: Option<&Value>) -> bool
    ensures { result ≡ is_name (option_map (λ v. view v.now) value.entry) }
{
    match value {
        Some(value) => is_name_value(value),
        None => false,
    }
}

/// The name that is there.
pub fn name_of<'a>(value: Option<&'a Value>) -> &'a str
    ensures { result.now ≡ name_of (option_map (λ v. view v.now) value.entry) }
{
    match value {
        Some(value) => name_value(value),
        None => "",
    }
}

// ---- sides, whole numbers and truth values

fn is_side(value: Option<&Value>) -> bool
    ensures { result ≡ is_side (option_map (λ v. view v.now) value.entry) }
{
    match value {
        Some(Value::String(text)) => text.as_str() == "a" || text.as_str() == "b",
        _ => false,
    }
}

/// The side that is there.
pub fn side_of(value: Option<&Value>) -> Side
    ensures { result ≡ side_of (option_map (λ v. view v.now) value.entry) }
{
    match value {
        Some(Value::String(text)) => {
            if text.as_str() == "b" {
                Side::B
            } else {
                Side::A
            }
        }
        _ => Side::A,
    }
}

/// The whole number that is there.
pub fn whole_of(value: Option<&Value>) -> i64
    ensures { result ≡ whole_of (option_map (λ v. view v.now) value.entry) }
{
    match value {
        Some(Value::Integer(number)) => *number,
        _ => 0,
    }
}

/// A whole number.
impl<'a> Item<'a> for i64 {
    ghost Parsed = { ℤ };

    ghost seen = { λ number. number };

    ghost has_form = { λ value. is_whole (Some value) };

    ghost parsed = { λ value. whole_of (Some value) };

    fn is_item(value: &Value) -> bool
        ensures { result ≡ is_whole (Some (view value.now)) }
    {
        matches!(value, Value::Integer(_))
    }

    fn item(_alloc: Global, value: &'a Value) -> Result<Self, AllocError>
        ensures { IfOk result (λ number. number ≡ whole_of (Some (view value.now))) }
    {
        Ok(whole_of(Some(value)))
    }
}

fn is_wholes(value: Option<&Value>) -> bool
    ensures { result ≡ is_wholes (option_map (λ v. view v.now) value.entry) }
{
    match value {
        Some(Value::Array(values)) => are_items::<i64>(values.as_slice()),
        _ => false,
    }
}

/// The whole numbers of the array that is there.
pub fn wholes_of(alloc: Global, value: Option<&Value>) -> Result<Option<Vec<i64>>, AllocError>
    ensures { IfOk result (λ v. option_map (λ numbers. numbers.items) v
        ≡ wholes_of (option_map (λ v. view v.now) value.entry)) }
{
    match value {
        Some(Value::Array(values)) => Ok(Some(items_of(alloc, values.as_slice())?)),
        _ => Ok(None),
    }
}

/// The truth value that is there.
pub fn flag_of(value: Option<&Value>) -> bool
    ensures { result ≡ flag_of (option_map (λ v. view v.now) value.entry) }
{
    match value {
        Some(Value::Boolean(flag)) => *flag,
        _ => false,
    }
}

// ---- arrays of names

fn is_names(value: Option<&Value>) -> bool
    ensures { result ≡ is_names (option_map (λ v. view v.now) value.entry) }
{
    match value {
        Some(Value::Array(values)) => are_items::<&str>(values.as_slice()),
        _ => false,
    }
}

/// The names of the array that is there.
pub fn names_of<'a>(alloc: Global, value: Option<&'a Value>) -> Result<Vec<&'a str>, AllocError>
    ensures { IfOk result (λ v. texts v.items ≡ names_of (option_map (λ v. view v.now) value.entry)) }
{
    match value {
        Some(Value::Array(values)) => items_of(alloc, values.as_slice()),
        _ => Ok(Vec::new(alloc)),
    }
}

// ---- visits

/// The names of the nodes of one visit.
impl<'a> Item<'a> for Vec<&'a str> {
    ghost Parsed = { List (List ℕ) };

    ghost seen = { λ visit. texts visit.items };

    ghost has_form = { is_visit };

    ghost parsed = { visit_of };

    fn is_item(value: &Value) -> bool
        ensures { result ≡ is_visit (view value.now) }
    {
        is_names(Some(value))
    }

    fn item(alloc: Global, value: &'a Value) -> Result<Self, AllocError>
        ensures { IfOk result (λ visit. texts visit.items ≡ visit_of (view value.now)) }
    {
        names_of(alloc, Some(value))
    }
}

fn is_visits(value: Option<&Value>) -> bool
    ensures { result ≡ is_visits (option_map (λ v. view v.now) value.entry) }
{
    match value {
        Some(Value::Array(values)) => are_items::<Vec<&str>>(values.as_slice()),
        _ => false,
    }
}

/// The visits that are there: the names of the nodes of each.
pub fn visits_of<'a>(
    alloc: Global,
    value: Option<&'a Value>,
) -> Result<Vec<Vec<&'a str>>, AllocError>
    ensures { IfOk result (λ v. visits_seen v.items ≡ visits_of (option_map (λ v. view v.now) value.entry)) }
{
    match value {
        Some(Value::Array(values)) => items_of(alloc, values.as_slice()),
        _ => Ok(Vec::new(alloc)),
    }
}
