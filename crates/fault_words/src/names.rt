//! Names that stand twice, or nowhere. An error is want of memory.

ghost use Rattle.std.specs.Prelude.{◌≡◌, map, option_map, IfOk};
ghost use Rattle.std.specs.List.{find};
ghost use Rattle.design_table.specs.Texts.{texts, visits_seen};
ghost use Rattle.design_table.specs.Parsed.{sheet_seen};
ghost use Rattle.infra_reader.specs.Names.{is_among, node_names, number_in, section_names};
ghost use Rattle.fault_words.specs.Names.{first_number, first_place, is_unknown, names_of, unknown_in_visits};
ghost use Rattle.fault_words.specs.Names.{is_nowhere, unknown_name, unknown_section};

use crate::entries::{entry, text_at};
use design_table::{
    EdgeEntry, EntryKind, Key, NodeEntry, OverlapEntry, Place, Sheet, SignalEntry, TrainEntry,
    VehicleEntry,
};
use std::alloc::{AllocError, Global};

/// The names of nodes.
fn node_names<'a>(alloc: Global, nodes: &[NodeEntry<'a>]) -> Result<Vec<&'a str>, AllocError>
    ensures { IfOk result (λ names. names.items ≡ map (λ node. node.name) nodes.now) }
{
    nodes.iter().map(|node| node.name).collect(alloc)
}

/// The names of edges.
fn edge_names<'a>(alloc: Global, edges: &[EdgeEntry<'a>]) -> Result<Vec<&'a str>, AllocError>
    ensures { IfOk result (λ names. names.items ≡ map (λ edge. edge.name) edges.now) }
{
    edges.iter().map(|edge| edge.name).collect(alloc)
}

/// The names of signals.
fn signal_names<'a>(alloc: Global, signals: &[SignalEntry<'a>]) -> Result<Vec<&'a str>, AllocError>
    ensures { IfOk result (λ names. names.items ≡ map (λ signal. signal.name) signals.now) }
{
    signals.iter().map(|signal| signal.name).collect(alloc)
}

/// The names of vehicles.
fn vehicle_names<'a>(
    alloc: Global,
    vehicles: &[VehicleEntry<'a>],
) -> Result<Vec<&'a str>, AllocError>
    ensures { IfOk result (λ names. names.items ≡ map (λ vehicle. vehicle.name) vehicles.now) }
{
    vehicles.iter().map(|vehicle| vehicle.name).collect(alloc)
}

/// The names of trains.
fn train_names<'a>(alloc: Global, trains: &[TrainEntry<'a>]) -> Result<Vec<&'a str>, AllocError>
    ensures { IfOk result (λ names. names.items ≡ map (λ train. train.name) trains.now) }
{
    trains.iter().map(|train| train.name).collect(alloc)
}

/// The names of the signals at which overlaps are.
fn overlap_signals<'a>(
    alloc: Global,
    overlaps: &[OverlapEntry<'a>],
) -> Result<Vec<&'a str>, AllocError>
    ensures { IfOk result (λ names. names.items ≡ map (λ overlap. overlap.signal) overlaps.now) }
{
    overlaps.iter().map(|overlap| overlap.signal).collect(alloc)
}

/// The names of the entries of a kind; those of overlaps are their signals'.
fn names_of<'a>(
    alloc: Global,
    sheet: &Sheet<'a>,
    kind: EntryKind,
) -> Result<Vec<&'a str>, AllocError>
    ensures { IfOk result (λ names. texts names.items ≡ names_of (sheet_seen sheet.now) kind) }
{
    match kind {
        EntryKind::Node => node_names(alloc, sheet.nodes.as_slice()),
        EntryKind::Edge => edge_names(alloc, sheet.edges.as_slice()),
        EntryKind::Signal => signal_names(alloc, sheet.signals.as_slice()),
        EntryKind::Vehicle => vehicle_names(alloc, sheet.vehicles.as_slice()),
        EntryKind::Train => train_names(alloc, sheet.trains.as_slice()),
        EntryKind::Order | EntryKind::Within => Ok(Vec::new(alloc)),
        EntryKind::Overlap => overlap_signals(alloc, sheet.overlaps.as_slice()),
    }
}

/// Whether a node has this name.
fn is_node(sheet: &Sheet, name: &str) -> bool
    ensures { result ≡ is_among (node_names (sheet_seen sheet.now)) name.now }
{
    for node in sheet.nodes.as_slice() {
        if name == node.name {
            return true;
        }
    }
    false
}

/// The first of these names that is no node's.
fn unknown_among<'a>(sheet: &Sheet, names: &[&'a str]) -> Option<&'a str>
    ensures { option_map (λ name. name.now) result
        ≡ find (is_unknown (sheet_seen sheet.now)) (texts names.now) }
{
    for name in names {
        if !is_node(sheet, name) {
            return Some(*name);
        }
    }
    None
}

/// The first name in these visits that is no node's.
fn unknown_in_visits<'a>(sheet: &Sheet, visits: &[Vec<&'a str>]) -> &'a str
    ensures { result.now ≡ unknown_in_visits (sheet_seen sheet.now) (visits_seen visits.now) }
{
    for visit in visits {
        if let Some(name) = unknown_among(sheet, visit.as_slice()) {
            return name;
        }
    }
    ""
}

/// Whether an edge has a section of this name.
fn is_section(sheet: &Sheet, name: &str) -> bool
    ensures { result ≡ is_among (section_names (sheet_seen sheet.now)) name.now }
{
    for edge in sheet.edges.as_slice() {
        if name == edge.section {
            return true;
        }
    }
    false
}

/// The first of these names that is no section's.
fn unknown_section<'a>(sheet: &Sheet, names: &[&'a str]) -> &'a str
    ensures { result.now ≡ unknown_section (sheet_seen sheet.now) (texts names.now) }
{
    for name in names {
        if !is_section(sheet, name) {
            return name;
        }
    }
    ""
}

/// The name at a place that nothing has.
#[tactic(auto, using(crate::proofs::Seen::seen_at))]
pub(crate) fn unknown_name<'a>(sheet: &Sheet<'a>, kind: EntryKind, number: u64, key: Key) -> &'a str
    ensures { result.now ≡ unknown_name (sheet_seen sheet.now) kind number key }
{
    match (kind, key) {
        (EntryKind::Train, Key::Visits) => match entry(sheet.trains.as_slice(), number) {
            Some(train) => unknown_in_visits(sheet, train.visits.as_slice()),
            None => "",
        },
        (EntryKind::Overlap, Key::Sections) => match entry(sheet.overlaps.as_slice(), number) {
            Some(overlap) => unknown_section(sheet, overlap.sections.as_slice()),
            None => "",
        },
        _ => text_at(sheet, kind, number, key),
    }
}

/// The number of the first of these names that is this one.
fn number_in(names: &[&str], name: &str) -> u64
    ensures { result ≡ number_in (texts names.now) name.now }
{
    for (index, other) in names.iter().enumerate() {
        if name == *other {
            return index as u64 + 1;
        }
    }
    names.len() as u64 + 1
}

/// The number of the first entry that has the name that this one has at a key.
pub(crate) fn first_number(
    alloc: Global,
    sheet: &Sheet,
    kind: EntryKind,
    number: u64,
    key: Key,
) -> Result<u64, AllocError>
    ensures { IfOk result (λ first. first ≡ first_number (sheet_seen sheet.now) kind number key) }
{
    let names = names_of(alloc, sheet, kind)?;
    Ok(number_in(names.as_slice(), text_at(sheet, kind, number, key)))
}

/// Where a name that stands twice, and is refused at its second place, stands first.
pub fn first_place(alloc: Global, sheet: &Sheet, place: Place) -> Result<Option<Place>, AllocError>
    ensures { IfOk result (λ first. first ≡ first_place (sheet_seen sheet.now) place) }
{
    match place {
        Place::Field(kind, number, Key::Name) => {
            let first = first_number(alloc, sheet, kind, number, Key::Name)?;
            Ok(Some(Place::Field(kind, first, Key::Name)))
        }
        Place::Field(kind, number, Key::Signal) => {
            let first = first_number(alloc, sheet, kind, number, Key::Signal)?;
            Ok(Some(Place::Field(kind, first, Key::Signal)))
        }
        _ => Ok(None),
    }
}
