//! What is wrong at a place of a sheet, in words. An error is want of memory; then a part of what is appended may stand
//! there.

ghost use Rattle.std.specs.Prelude.{◌≡◌, IfOk, OnOk};
ghost use Rattle.design_table.specs.Texts.{texts, visits_seen};
ghost use Rattle.design_table.specs.Parsed.{sheet_seen};
ghost use Rattle.rail_text.specs.Added.{AddsText};
ghost use Rattle.fault_words.specs.Entries.{visits_at};
ghost use Rattle.fault_words.specs.Faults.{boundary_words, circle_words, count_visits, crowded_words, edges_of};
ghost use Rattle.fault_words.specs.Faults.{entry_fault, fault_sentence, fault_words, field_fault, first_nodes};
ghost use Rattle.fault_words.specs.Faults.{loop_words, missing_words, named_key, node_words, repeated_words};
ghost use Rattle.fault_words.specs.Faults.{routes_fault, side_text, sides_words, signal_place_words, signal_words};
ghost use Rattle.fault_words.specs.Faults.{beside_words, first_words, is_signal, named_words, nothing_text, nothing_words};
ghost use Rattle.fault_words.specs.Faults.{second_words};
ghost use Rattle.fault_words.specs.Faults.{start_words, top_fault, train_key, unknown_words, zero_words};
ghost use Rattle.fault_words.specs.Tracks.{inner_node};

use crate::entries::{entry, number_at, text_at, top_number, toward_at};
use crate::limits::{put_field, put_top};
use crate::names::{first_number, unknown_name};
use crate::tracks::{edges_at, inner_node, is_boundary, signal_beside, visits_of};
use crate::words::{end_line, put_edges, put_is, put_kind, put_text, put_whole};
use design_table::{Code, EntryKind, Key, Place, Sheet, Side};
use rail_text::put_number;
use std::alloc::{AllocError, Global};

// ---- D03

/// Appends which entry has first what this one has at a key.
fn put_first(
    alloc: Global,
    text: &mut Vec<u8>,
    sheet: &Sheet,
    kind: EntryKind,
    number: u64,
    key: Key,
) -> Result<(), AllocError>
    ensures { OnOk result (AddsText text.old text.new (first_words (sheet_seen sheet.now) kind number key)) }
{
    put_kind(text, kind)?;
    put_text(text, " ")?;
    put_number(text, first_number(alloc, sheet, kind, number, key)?)?;
    Ok(())
}

/// Appends which name stands twice, and where it stands first.
fn put_named(
    alloc: Global,
    text: &mut Vec<u8>,
    sheet: &Sheet,
    kind: EntryKind,
    number: u64,
    key: Key,
) -> Result<(), AllocError>
    ensures { OnOk result (AddsText text.old text.new (named_words (sheet_seen sheet.now) kind number key)) }
{
    put_text(text, "the name ")?;
    put_text(text, text_at(sheet, kind, number, key))?;
    put_text(text, " stands already at ")?;
    put_first(alloc, text, sheet, kind, number, key)?;
    Ok(())
}

/// Appends which signal has two overlaps, and which is the first.
fn put_second(
    alloc: Global,
    text: &mut Vec<u8>,
    sheet: &Sheet,
    kind: EntryKind,
    number: u64,
    key: Key,
) -> Result<(), AllocError>
    ensures { OnOk result (AddsText text.old text.new (second_words (sheet_seen sheet.now) kind number key)) }
{
    put_text(text, "signal ")?;
    put_text(text, text_at(sheet, kind, number, key))?;
    put_text(text, " has ")?;
    put_first(alloc, text, sheet, kind, number, key)?;
    put_text(text, " already, and is to have one at most")?;
    Ok(())
}

/// Whether the key is that of a signal.
fn is_signal(key: Key) -> bool
    ensures { result ≡ is_signal key }
{
    matches!(key, Key::Signal)
}

/// Appends which name stands twice, or which signal has two overlaps.
fn put_repeated(
    alloc: Global,
    text: &mut Vec<u8>,
    sheet: &Sheet,
    kind: EntryKind,
    number: u64,
    key: Key,
) -> Result<(), AllocError>
    ensures { OnOk result (AddsText text.old text.new (repeated_words (sheet_seen sheet.now) kind number key)) }
{
    if is_signal(key) {
        put_second(alloc, text, sheet, kind, number, key)
    } else {
        put_named(alloc, text, sheet, kind, number, key)
    }
}

// ---- D04

/// The key by whose word the thing is called of which a key has the name.
fn named_key(key: Key) -> Key
    ensures { result ≡ named_key key }
{
    match key {
        Key::Vehicle => Key::Vehicle,
        Key::FirstTrain | Key::ThenTrain | Key::FromTrain | Key::ToTrain => Key::Train,
        Key::Signal => Key::Signal,
        Key::Sections => Key::Section,
        _ => Key::Node,
    }
}

/// Appends which name nothing has.
fn put_unknown(
    text: &mut Vec<u8>,
    sheet: &Sheet,
    kind: EntryKind,
    number: u64,
    key: Key,
) -> Result<(), AllocError>
    ensures { OnOk result (AddsText text.old text.new (unknown_words (sheet_seen sheet.now) kind number key)) }
{
    put_text(text, "there is no ")?;
    put_text(text, named_key(key).text())?;
    put_text(text, " ")?;
    put_text(text, unknown_name(sheet, kind, number, key))?;
    Ok(())
}

// ---- D06

/// Appends the edges at both sides of a node.
fn put_sides(alloc: Global, text: &mut Vec<u8>, sheet: &Sheet, node: &str) -> Result<(), AllocError>
    ensures { OnOk result (AddsText text.old text.new (sides_words (sheet_seen sheet.now) node.now)) }
{
    put_edges(text, edges_at(alloc, sheet, node, Side::A)?.as_slice())?;
    put_text(text, " at side a and ")?;
    put_edges(text, edges_at(alloc, sheet, node, Side::B)?.as_slice())?;
    put_text(text, " at side b")
}

/// Appends the edges of a node that has too many.
fn put_node(alloc: Global, text: &mut Vec<u8>, sheet: &Sheet, number: u64) -> Result<(), AllocError>
    ensures { OnOk result (AddsText text.old text.new (node_words (sheet_seen sheet.now) number)) }
{
    let node = text_at(sheet, EntryKind::Node, number, Key::Name);
    put_text(text, "node ")?;
    put_text(text, node)?;
    put_text(text, " has ")?;
    put_sides(alloc, text, sheet, node)?;
    put_text(
        text,
        ": at most two may be at one side, and then one at the other",
    )
}

/// Appends which edge has both ends at one node.
fn put_loop(text: &mut Vec<u8>, sheet: &Sheet, number: u64) -> Result<(), AllocError>
    ensures { OnOk result (AddsText text.old text.new (loop_words (sheet_seen sheet.now) number)) }
{
    put_text(text, "edge ")?;
    put_text(text, text_at(sheet, EntryKind::Edge, number, Key::Name))?;
    put_text(text, " joins node ")?;
    put_text(text, text_at(sheet, EntryKind::Edge, number, Key::From))?;
    put_text(text, " to itself")
}

/// Appends what is wrong with a node that has too many edges, or with an edge that joins a node to itself.
fn put_crowded(
    alloc: Global,
    text: &mut Vec<u8>,
    sheet: &Sheet,
    kind: EntryKind,
    number: u64,
) -> Result<(), AllocError>
    ensures { OnOk result (AddsText text.old text.new (crowded_words (sheet_seen sheet.now) kind number)) }
{
    match kind {
        EntryKind::Node => put_node(alloc, text, sheet, number),
        EntryKind::Edge => put_loop(text, sheet, number),
        _ => Ok(()),
    }
}

// ---- D07

/// The edges at a node, those at side a first.
fn edges_of<'a>(alloc: Global, sheet: &Sheet<'a>, node: &str) -> Result<Vec<&'a str>, AllocError>
    ensures { IfOk result (λ names. texts names.items ≡ edges_of (sheet_seen sheet.now) node.now) }
{
    let mut names = edges_at(alloc, sheet, node, Side::A)?;
    names.extend_from_slice(edges_at(alloc, sheet, node, Side::B)?.as_slice())?;
    Ok(names)
}

/// Appends how many edges a boundary has that is to have one.
fn put_boundary(
    alloc: Global,
    text: &mut Vec<u8>,
    sheet: &Sheet,
    number: u64,
) -> Result<(), AllocError>
    ensures { OnOk result (AddsText text.old text.new (boundary_words (sheet_seen sheet.now) number)) }
{
    let node = text_at(sheet, EntryKind::Node, number, Key::Name);
    put_text(text, "boundary ")?;
    put_text(text, node)?;
    put_text(text, " has ")?;
    put_edges(text, edges_of(alloc, sheet, node)?.as_slice())?;
    put_text(text, ", and is to have one")
}

// ---- D08

/// The word for a side.
fn side_text(side: Side) -> &'static str
    ensures { result.now ≡ side_text side }
{
    match side {
        Side::A => "a",
        Side::B => "b",
    }
}

/// Appends at which side of a node a signal stands, and which one stands there already.
fn put_beside(text: &mut Vec<u8>, sheet: &Sheet, node: &str, side: Side) -> Result<(), AllocError>
    ensures { OnOk result (AddsText text.old text.new (beside_words (sheet_seen sheet.now) node.now side)) }
{
    put_text(text, "node ")?;
    put_text(text, node)?;
    put_text(text, " toward ")?;
    put_text(text, side_text(side))?;
    put_text(text, ", as signal ")?;
    put_text(text, signal_beside(sheet, node, side))?;
    put_text(text, " does")?;
    Ok(())
}

/// Appends where a signal stands.
fn put_signal_place(
    text: &mut Vec<u8>,
    sheet: &Sheet,
    node: &str,
    side: Side,
) -> Result<(), AllocError>
    ensures { OnOk result (AddsText text.old text.new (signal_place_words (sheet_seen sheet.now) node.now side)) }
{
    if is_boundary(sheet, node) {
        put_text(text, "boundary ")?;
        put_text(text, node)
    } else {
        put_beside(text, sheet, node, side)
    }
}

/// Appends where a signal stands that may not stand there.
fn put_signal(text: &mut Vec<u8>, sheet: &Sheet, number: u64) -> Result<(), AllocError>
    ensures { OnOk result (AddsText text.old text.new (signal_words (sheet_seen sheet.now) number)) }
{
    let node = text_at(sheet, EntryKind::Signal, number, Key::Node);
    put_text(text, "signal ")?;
    put_text(text, text_at(sheet, EntryKind::Signal, number, Key::Name))?;
    put_text(text, " stands at ")?;
    put_signal_place(text, sheet, node, toward_at(sheet, number))
}

// ---- D09

/// What there is none of in a tick.
fn nothing_text(key: Key) -> &'static str
    ensures { result.now ≡ nothing_text key }
{
    match key {
        Key::HorizonMs => ", which is 0 ticks of ",
        Key::SpeedMmS => ", which is 0 mm in a tick of ",
        _ => ", which is 0 mm per tick in a tick of ",
    }
}

/// Appends what there is none of in a tick, and how long a tick is.
fn put_nothing(text: &mut Vec<u8>, key: Key, tick_ms: i64) -> Result<(), AllocError>
    ensures { OnOk result (AddsText text.old text.new (nothing_words key tick_ms)) }
{
    put_text(text, nothing_text(key))?;
    put_whole(text, tick_ms)?;
    put_text(text, " ms")?;
    Ok(())
}

/// Appends which number is 0 in a tick.
fn put_zero(text: &mut Vec<u8>, sheet: &Sheet, key: Key, number: i64) -> Result<(), AllocError>
    ensures { OnOk result (AddsText text.old text.new (zero_words (sheet_seen sheet.now) key number)) }
{
    put_is(text, key, number)?;
    put_nothing(text, key, sheet.tick_ms)
}

// ---- D10

/// The first node of these visits' first one that is no boundary.
fn inner_start<'a>(sheet: &Sheet, visits: &[Vec<&'a str>]) -> &'a str
    ensures { result.now ≡ inner_node (sheet_seen sheet.now) (first_nodes (visits_seen visits.now)) }
{
    match visits.first() {
        Some(visit) => inner_node(sheet, visit.as_slice()),
        None => "",
    }
}

/// The first node of the first visit of the train of a number that is no boundary.
#[tactic(auto, using(crate::proofs::Seen::seen_at))]
fn inner_start_at<'a>(sheet: &Sheet<'a>, number: u64) -> &'a str
    ensures { let seen = sheet_seen sheet.now in
        result.now ≡ inner_node seen (first_nodes (visits_at seen number)) }
{
    match entry(sheet.trains.as_slice(), number) {
        Some(train) => inner_start(sheet, train.visits.as_slice()),
        None => "",
    }
}

/// Appends where a train begins that may not begin there.
fn put_start(text: &mut Vec<u8>, sheet: &Sheet, number: u64) -> Result<(), AllocError>
    ensures { OnOk result (AddsText text.old text.new (start_words (sheet_seen sheet.now) number)) }
{
    put_text(text, "train ")?;
    put_text(text, text_at(sheet, EntryKind::Train, number, Key::Name))?;
    put_text(text, " begins at ")?;
    put_text(text, inner_start_at(sheet, number))?;
    put_text(text, ", which is no boundary")
}

// ---- D11

/// The key of the train whose visit a key counts.
fn train_key(key: Key) -> Key
    ensures { result ≡ train_key key }
{
    match key {
        Key::FirstVisit => Key::FirstTrain,
        Key::ThenVisit => Key::ThenTrain,
        Key::FromVisit => Key::FromTrain,
        _ => Key::ToTrain,
    }
}

/// Appends a number of visits.
fn put_visit_count(text: &mut Vec<u8>, count: usize) -> Result<(), AllocError>
    ensures { OnOk result (AddsText text.old text.new (count_visits count)) }
{
    put_number(text, count as u64)?;
    put_text(text, if count == 1 { " visit" } else { " visits" })
}

/// Appends how many visits a train has, and which one it has not.
fn put_missing(text: &mut Vec<u8>, sheet: &Sheet, train: &str, visit: i64) -> Result<(), AllocError>
    ensures { OnOk result (AddsText text.old text.new (missing_words (sheet_seen sheet.now) train.now visit)) }
{
    put_text(text, "train ")?;
    put_text(text, train)?;
    put_text(text, " has ")?;
    put_visit_count(text, visits_of(sheet, train))?;
    put_text(text, ", and no visit ")?;
    put_whole(text, visit)?;
    Ok(())
}

// ---- D12

/// Appends to which edge a way round comes back.
fn put_circle(text: &mut Vec<u8>, sheet: &Sheet, number: u64) -> Result<(), AllocError>
    ensures { OnOk result (AddsText text.old text.new (circle_words (sheet_seen sheet.now) number)) }
{
    put_text(text, "a way round comes back to edge ")?;
    put_text(text, text_at(sheet, EntryKind::Edge, number, Key::Name))?;
    Ok(())
}

// ---- each code at its places

/// Appends what is wrong at a key of the top.
fn put_top_fault(text: &mut Vec<u8>, sheet: &Sheet, code: Code, key: Key) -> Result<(), AllocError>
    ensures { OnOk result (AddsText text.old text.new (top_fault (sheet_seen sheet.now) code key)) }
{
    match code {
        Code::D05 => put_top(text, sheet, key),
        Code::D09 => put_zero(text, sheet, key, top_number(sheet, key)),
        _ => Ok(()),
    }
}

/// Appends what is wrong with an entry.
fn put_entry_fault(
    alloc: Global,
    text: &mut Vec<u8>,
    sheet: &Sheet,
    code: Code,
    kind: EntryKind,
    number: u64,
) -> Result<(), AllocError>
    ensures { OnOk result (AddsText text.old text.new (entry_fault (sheet_seen sheet.now) code kind number)) }
{
    match code {
        Code::D06 => put_crowded(alloc, text, sheet, kind, number),
        Code::D07 => put_boundary(alloc, text, sheet, number),
        Code::D08 => put_signal(text, sheet, number),
        Code::D12 => put_circle(text, sheet, number),
        _ => Ok(()),
    }
}

/// Appends what is wrong at a key of an entry.
fn put_field_fault(
    alloc: Global,
    text: &mut Vec<u8>,
    sheet: &Sheet,
    code: Code,
    kind: EntryKind,
    number: u64,
    key: Key,
) -> Result<(), AllocError>
    ensures { OnOk result (AddsText text.old text.new (field_fault (sheet_seen sheet.now) code kind number key)) }
{
    match code {
        Code::D03 => put_repeated(alloc, text, sheet, kind, number, key),
        Code::D04 => put_unknown(text, sheet, kind, number, key),
        Code::D05 => put_field(text, sheet, kind, number, key),
        Code::D09 => put_zero(text, sheet, key, number_at(sheet, kind, number, key)),
        Code::D10 => put_start(text, sheet, number),
        Code::D11 => {
            let train = text_at(sheet, kind, number, train_key(key));
            put_missing(text, sheet, train, number_at(sheet, kind, number, key))
        }
        _ => Ok(()),
    }
}

/// Appends what is wrong with the routes.
fn put_routes_fault(text: &mut Vec<u8>, code: Code) -> Result<(), AllocError>
    ensures { OnOk result (AddsText text.old text.new (routes_fault code)) }
{
    match code {
        Code::D13 => put_text(text, "the track has more than 2000 routes"),
        _ => Ok(()),
    }
}

/// What is wrong at a place, in words.
fn fault_words(
    alloc: Global,
    sheet: &Sheet,
    code: Code,
    place: Place,
) -> Result<Vec<u8>, AllocError>
    ensures { IfOk result (λ text. text.items ≡ fault_words (sheet_seen sheet.now) code place) }
{
    let mut text = Vec::new(alloc);
    match place {
        Place::Top(key) => put_top_fault(&mut text, sheet, code, key)?,
        Place::Entry(kind, number) => {
            put_entry_fault(alloc, &mut text, sheet, code, kind, number)?;
        }
        Place::Field(kind, number, key) => {
            put_field_fault(alloc, &mut text, sheet, code, kind, number, key)?;
        }
        Place::Routes => put_routes_fault(&mut text, code)?,
        Place::File | Place::UnknownField(..) | Place::Unknown => {}
    }
    Ok(text)
}

/// The sentence that says what is wrong with a sheet that is refused with one of D03 to D13 at this place, with its LF.
/// It has no byte where the code is another one, or is given at no place of this form. An error is want of memory.
pub fn fault_sentence(
    alloc: Global,
    sheet: &Sheet,
    code: Code,
    place: Place,
) -> Result<Vec<u8>, AllocError>
    ensures { IfOk result (λ text. text.items ≡ fault_sentence (sheet_seen sheet.now) code place) }
{
    let mut text = fault_words(alloc, sheet, code, place)?;
    end_line(&mut text)?;
    Ok(text)
}
