//! The names of a sheet, and the numbers that they have.

ghost use Rattle.std.specs.Prelude.{◌≡◌, ◌+◌, ◌&&◌, map, not, position, bytes_eq, IfOk, IfErr};
ghost use Rattle.design_table.specs.Reads.{ReadsOrRefuses, Fails, at};
ghost use Rattle.design_table.specs.Parsed.{sheet_seen};
ghost use Rattle.design_table.specs.declared.fault.DesignFault.TheVariants.{Memory};
ghost use Rattle.infra_reader.specs.Unknown.{unless_among};
ghost use Rattle.infra_reader.specs.Names.{is_among, number_in, each_once, node_names, edge_names, section_names};
ghost use Rattle.infra_reader.specs.Names.{signal_names, vehicle_names, train_names, repeated, repeated_names};
ghost use Rattle.infra_reader.specs.Names.{names_of, ReadsDistinct, overlap_signals, overlaps_repeated};
ghost use Rattle.design_table.specs.Texts.{texts};
ghost use Rattle.infra_reader.specs.Seen.{names_seen};

use design_table::{
    Code, DesignFault, EdgeEntry, EntryKind, Key, NodeEntry, OverlapEntry, Place, Sheet,
    SignalEntry, TrainEntry, VehicleEntry,
};
use indexmap::IndexSet;
use std::alloc::{AllocError, Global};

/// The names by which entries are known, in the order of their numbers.
#[derive(Drop)]
pub struct Names<'a> {
    pub nodes: IndexSet<&'a str>,
    pub sections: IndexSet<&'a str>,
    pub signals: IndexSet<&'a str>,
    pub vehicles: IndexSet<&'a str>,
    pub trains: IndexSet<&'a str>,
}

/// The names of a sheet, or the refusal of the first that stands already in an earlier entry of its array, or of the
/// first overlap at a signal that has one already.
#[tactic(auto, using(crate::proofs::Places::walk), unfolding(crate::specs::Names::repeated_names))]
pub fn read_names<'a>(alloc: Global, sheet: &Sheet<'a>) -> Result<Names<'a>, DesignFault>
    ensures { let parsed = sheet_seen sheet.now in
        ReadsOrRefuses names_seen result Code.D03 (repeated_names parsed) (names_of parsed) }
{
    let nodes = node_names(alloc, sheet)?;
    edge_names(alloc, sheet)?;
    let signals = signal_names(alloc, sheet)?;
    let vehicles = vehicle_names(alloc, sheet)?;
    let trains = train_names(alloc, sheet)?;
    refuse_overlaps(alloc, &signals, sheet)?;
    let sections = section_names(alloc, sheet)?;
    Ok(Names {
        nodes,
        sections,
        signals,
        vehicles,
        trains,
    })
}

/// The number of a name, or the refusal of the place where it is none of these.
pub fn number_at(names: &IndexSet<&str>, name: &str, place: Place) -> Result<u32, DesignFault>
    ensures { let known = texts names.now.keys in
        ReadsOrRefuses (λ x. x) result Code.D04 (unless_among known name.now place) (number_in known name.now) }
{
    match place_of(names, name) {
        Some(index) => number_after(index),
        None => Err(DesignFault::Refused {
            code: Code::D04,
            place,
        }),
    }
}

/// The number of a name, or the number after the last where it is none of these.
pub fn number_of(names: &IndexSet<&str>, name: &str) -> Result<u32, DesignFault>
    ensures ok { IfOk result (λ number. number ≡ number_in (texts names.now.keys) name.now) }
    ensures err { IfErr result (λ fault. fault ≡ Memory) }
{
    match place_of(names, name) {
        Some(index) => number_after(index),
        None => number_after(names.len()),
    }
}

/// The names of an array, or the refusal of the first that stands already in an earlier entry.
#[tactic(auto, unfolding(crate::specs::Names::repeated))]
fn distinct<'a>(
    alloc: Global,
    kind: EntryKind,
    names: &[&'a str],
) -> Result<IndexSet<&'a str>, DesignFault>
    ensures { ReadsOrRefuses (λ s. texts s.keys) result Code.D03 (repeated kind (texts names.now)) (texts names.now) }
{
    let mut seen = IndexSet::new(alloc);
    for (index, name) in names.iter().enumerate() {
        let (_, is_new) = seen.insert_full(*name)?;
        if !is_new {
            return Err(DesignFault::Refused {
                code: Code::D03,
                place: Place::Field(kind, index as u64 + 1, Key::Name),
            });
        }
    }
    Ok(seen)
}

/// The names of nodes in the order of the file.
fn node_texts<'a>(alloc: Global, nodes: &[NodeEntry<'a>]) -> Result<Vec<&'a str>, AllocError>
    ensures { IfOk result (λ v. v.items ≡ map (λ node. node.name) nodes.now) }
{
    nodes.iter().map(|node| node.name).collect(alloc)
}

/// The names of the nodes.
fn node_names<'a>(alloc: Global, sheet: &Sheet<'a>) -> Result<IndexSet<&'a str>, DesignFault>
    ensures { ReadsDistinct (λ s. texts s.keys) result EntryKind.Node (node_names (sheet_seen sheet.now)) }
{
    let names = node_texts(alloc, sheet.nodes.as_slice())?;
    distinct(alloc, EntryKind::Node, names.as_slice())
}

/// The names of vehicles in the order of the file.
fn vehicle_texts<'a>(
    alloc: Global,
    vehicles: &[VehicleEntry<'a>],
) -> Result<Vec<&'a str>, AllocError>
    ensures { IfOk result (λ v. v.items ≡ map (λ vehicle. vehicle.name) vehicles.now) }
{
    vehicles.iter().map(|vehicle| vehicle.name).collect(alloc)
}

/// The names of the vehicles.
fn vehicle_names<'a>(alloc: Global, sheet: &Sheet<'a>) -> Result<IndexSet<&'a str>, DesignFault>
    ensures { ReadsDistinct (λ s. texts s.keys) result EntryKind.Vehicle (vehicle_names (sheet_seen sheet.now)) }
{
    let names = vehicle_texts(alloc, sheet.vehicles.as_slice())?;
    distinct(alloc, EntryKind::Vehicle, names.as_slice())
}

/// The names of trains in the order of the file.
fn train_texts<'a>(alloc: Global, trains: &[TrainEntry<'a>]) -> Result<Vec<&'a str>, AllocError>
    ensures { IfOk result (λ v. v.items ≡ map (λ train. train.name) trains.now) }
{
    trains.iter().map(|train| train.name).collect(alloc)
}

/// The names of the trains.
fn train_names<'a>(alloc: Global, sheet: &Sheet<'a>) -> Result<IndexSet<&'a str>, DesignFault>
    ensures { ReadsDistinct (λ s. texts s.keys) result EntryKind.Train (train_names (sheet_seen sheet.now)) }
{
    let names = train_texts(alloc, sheet.trains.as_slice())?;
    distinct(alloc, EntryKind::Train, names.as_slice())
}

/// The names of edges in the order of the file.
fn edge_texts<'a>(alloc: Global, edges: &[EdgeEntry<'a>]) -> Result<Vec<&'a str>, AllocError>
    ensures { IfOk result (λ v. v.items ≡ map (λ edge. edge.name) edges.now) }
{
    edges.iter().map(|edge| edge.name).collect(alloc)
}

/// The names of the edges.
fn edge_names<'a>(alloc: Global, sheet: &Sheet<'a>) -> Result<IndexSet<&'a str>, DesignFault>
    ensures { ReadsDistinct (λ s. texts s.keys) result EntryKind.Edge (edge_names (sheet_seen sheet.now)) }
{
    let names = edge_texts(alloc, sheet.edges.as_slice())?;
    distinct(alloc, EntryKind::Edge, names.as_slice())
}

/// The names of signals in the order of the file.
fn signal_texts<'a>(alloc: Global, signals: &[SignalEntry<'a>]) -> Result<Vec<&'a str>, AllocError>
    ensures { IfOk result (λ v. v.items ≡ map (λ signal. signal.name) signals.now) }
{
    signals.iter().map(|signal| signal.name).collect(alloc)
}

/// The names of the signals.
fn signal_names<'a>(alloc: Global, sheet: &Sheet<'a>) -> Result<IndexSet<&'a str>, DesignFault>
    ensures { ReadsDistinct (λ s. texts s.keys) result EntryKind.Signal (signal_names (sheet_seen sheet.now)) }
{
    let names = signal_texts(alloc, sheet.signals.as_slice())?;
    distinct(alloc, EntryKind::Signal, names.as_slice())
}

/// The sections of edges in the order of the file.
fn section_texts<'a>(alloc: Global, edges: &[EdgeEntry<'a>]) -> Result<Vec<&'a str>, AllocError>
    ensures { IfOk result (λ v. v.items ≡ map (λ edge. edge.section) edges.now) }
{
    edges.iter().map(|edge| edge.section).collect(alloc)
}

/// Each name once, in order of first occurrence.
fn each_once<'a>(alloc: Global, names: &[&'a str]) -> Result<IndexSet<&'a str>, AllocError>
    ensures { IfOk result (λ s. texts s.keys ≡ each_once (texts names.now)) }
{
    let mut seen = IndexSet::new(alloc);
    for name in names {
        seen.insert_full(*name)?;
    }
    Ok(seen)
}

/// The names of the sections, by the first edges that name them.
fn section_names<'a>(alloc: Global, sheet: &Sheet<'a>) -> Result<IndexSet<&'a str>, AllocError>
    ensures { IfOk result (λ s. texts s.keys ≡ each_once (section_names (sheet_seen sheet.now))) }
{
    let names = section_texts(alloc, sheet.edges.as_slice())?;
    each_once(alloc, names.as_slice())
}

/// The signals of overlaps in the order of the file.
fn overlap_texts<'a>(
    alloc: Global,
    overlaps: &[OverlapEntry<'a>],
) -> Result<Vec<&'a str>, AllocError>
    ensures { IfOk result (λ v. v.items ≡ map (λ overlap. overlap.signal) overlaps.now) }
{
    overlaps.iter().map(|overlap| overlap.signal).collect(alloc)
}

/// Refuses an overlap at a signal that has one already.
fn refuse_overlaps(
    alloc: Global,
    signals: &IndexSet<&str>,
    sheet: &Sheet,
) -> Result<(), DesignFault>
    ensures { let known = texts signals.now.keys in let names = overlap_signals (sheet_seen sheet.now) in
        ReadsOrRefuses (λ x. x) result Code.D03 (overlaps_repeated known names) tt }
{
    let names = overlap_texts(alloc, sheet.overlaps.as_slice())?;
    refuse_second(alloc, signals, names.as_slice())
}

/// Whether a name that is not new is one of these.
#[tactic(auto, using(crate::proofs::Repeats::any_text))]
fn is_again(names: &IndexSet<&str>, name: &str, is_new: bool) -> bool
    ensures { result ≡ (not is_new && is_among (texts names.now.keys) name.now) }
{
    !is_new && names.contains(name)
}

/// Refuses the second overlap at a signal; `names` are those of the overlaps.
#[tactic(auto, unfolding(crate::specs::Names::overlaps_repeated))]
fn refuse_second(alloc: Global, signals: &IndexSet<&str>, names: &[&str]) -> Result<(), DesignFault>
    ensures { ReadsOrRefuses (λ x. x) result Code.D03
        (overlaps_repeated (texts signals.now.keys) (texts names.now)) tt }
{
    let mut seen = IndexSet::new(alloc);
    for (index, name) in names.iter().enumerate() {
        let (_, is_new) = seen.insert_full(*name)?;
        if is_again(signals, name, is_new) {
            return Err(DesignFault::Refused {
                code: Code::D03,
                place: Place::Field(EntryKind::Overlap, index as u64 + 1, Key::Signal),
            });
        }
    }
    Ok(())
}

/// The place of a name, counted from 0.
#[tactic(auto, using(crate::proofs::Repeats::position_text))]
fn place_of(names: &IndexSet<&str>, name: &str) -> Option<usize>
    ensures { result ≡ position (bytes_eq name.now) (texts names.now.keys) }
{
    names.get_index_of(name)
}

/// The number after so many. A number past 32 bits would count more names than any memory holds.
fn number_after(count: usize) -> Result<u32, DesignFault>
    ensures ok { IfOk result (λ number. number ≡ count + 1) }
    ensures err { IfErr result (λ fault. fault ≡ Memory) }
{
    match u32::try_from(count) {
        Ok(before) => before.checked_add(1).ok_or(DesignFault::Memory),
        Err(_) => Err(DesignFault::Memory),
    }
}
