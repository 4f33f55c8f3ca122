//! Places in the text of a design.

ghost use Rattle.std.specs.Prelude.{◌≡◌, option_map, IfOk};
ghost use Rattle.std.specs.List.{find};
ghost use Rattle.design_places.specs.Places.{begins_as, begins_otherwise, entry_at, field_at, place_at, place_in};
ghost use Rattle.design_places.specs.Seen.{is_wanted, matches, now};
ghost use Rattle.toml_places.specs.Finding.{top_lines};
ghost use Rattle.toml_places.specs.Texts.{texts};

use design_table::{EntryKind, Key, Place, columns_of, is_known, top_columns};
use std::alloc::{AllocError, Global};
use toml_places::{document_lines, entries_of, name_at, top_lines};

/// The key that is looked for: this one, or any that an entry of a kind, or the document itself, may not have in a
/// version.
#[derive(Clone, Copy)]
enum Wanted {
    Key(Key),
    UnknownAt(EntryKind, u64),
    UnknownAtTop(u64),
}

/// Whether a line, or a key of a table, begins with the key that is looked for.
fn is_wanted(alloc: Global, text: &str, wanted: Wanted) -> Result<bool, AllocError>
    ensures { IfOk result (λ answer. answer ≡ is_wanted wanted text.now) }
{
    match name_at(alloc, text)? {
        Some(name) => Ok(matches(wanted, name.as_str())),
        None => Ok(false),
    }
}

/// Whether the name is the key that is looked for.
fn matches(wanted: Wanted, name: &str) -> bool
    ensures { result ≡ matches wanted name.now }
{
    match wanted {
        Wanted::Key(key) => name == key.text(),
        Wanted::UnknownAt(kind, version) => !is_known(columns_of(kind), version, name),
        Wanted::UnknownAtTop(version) => !is_known(top_columns(), version, name),
    }
}

/// The first text that begins with the key that is looked for.
fn find_wanted<'a>(
    alloc: Global,
    begun: &[&'a str],
    wanted: Wanted,
) -> Result<Option<&'a str>, AllocError>
    ensures { IfOk result (λ found. now found ≡ find (is_wanted wanted) (texts begun.now)) }
{
    for text in begun {
        if is_wanted(alloc, text, wanted)? {
            return Ok(Some(*text));
        }
    }
    Ok(None)
}

/// The entry of this number, counted from 1, of a document with these lines.
fn entry_at<'a>(
    alloc: Global,
    lines: &[&'a str],
    kind: EntryKind,
    number: u64,
) -> Result<Option<&'a str>, AllocError>
    ensures { IfOk result (λ found. now found ≡ entry_at (texts lines.now) kind number) }
{
    let entries = entries_of(alloc, lines, kind.key().text())?;
    Ok(entries.get(number.saturating_sub(1) as usize).copied())
}

/// The key that is looked for in an entry, or where there is none the entry itself.
fn field_at<'a>(
    alloc: Global,
    lines: &[&'a str],
    kind: EntryKind,
    number: u64,
    wanted: Wanted,
) -> Result<Option<&'a str>, AllocError>
    ensures { IfOk result (λ found. now found ≡ field_at (texts lines.now) kind number (is_wanted wanted)) }
{
    let Some(entry) = entry_at(alloc, lines, kind, number)? else {
        return Ok(None);
    };
    let keys = toml_places::keys_of(alloc, entry)?;
    let found = find_wanted(alloc, keys.as_slice(), wanted)?;
    Ok(Some(found.unwrap_or(entry)))
}

/// The line at the top that begins with the key that is looked for.
fn top_at<'a>(
    alloc: Global,
    lines: &[&'a str],
    wanted: Wanted,
) -> Result<Option<&'a str>, AllocError>
    ensures { IfOk result (λ found. now found ≡ find (is_wanted wanted) (top_lines (texts lines.now))) }
{
    let top = top_lines(alloc, lines)?;
    find_wanted(alloc, top.as_slice(), wanted)
}

/// Where the place stands in the text of a design of a version: the text from there on. It is the key or the entry
/// that the place names; of a key that is missing in an entry, the entry; and nothing where the text does not have it,
/// or for the file as a whole and its routes. An error is want of memory.
pub fn place_in<'a>(
    alloc: Global,
    version: u64,
    text: &'a str,
    place: Place,
) -> Result<Option<&'a str>, AllocError>
    ensures { IfOk result (λ found. now found ≡ place_in version text.now place) }
{
    let lines = document_lines(alloc, text)?;
    let lines = lines.as_slice();
    match place {
        Place::File | Place::Routes => Ok(None),
        Place::Top(key) => top_at(alloc, lines, Wanted::Key(key)),
        Place::Entry(kind, number) => entry_at(alloc, lines, kind, number),
        Place::Field(kind, number, key) => {
            field_at(alloc, lines, kind, number, Wanted::Key(key))
        }
        Place::UnknownField(kind, number) => {
            field_at(alloc, lines, kind, number, Wanted::UnknownAt(kind, version))
        }
        Place::Unknown => top_at(alloc, lines, Wanted::UnknownAtTop(version)),
    }
}
