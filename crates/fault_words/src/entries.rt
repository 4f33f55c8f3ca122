//! What the entries of a sheet say at a key. Entries are counted from 1, and what is not there is empty.

ghost use Rattle.std.specs.Prelude.{◌≡◌, ◌-◌, option_map, slice_get};
ghost use Rattle.std.specs.Option.{option_copied};
ghost use Rattle.design_table.specs.Parsed.{node_seen, edge_seen, signal_seen, vehicle_seen, train_seen, order_seen};
ghost use Rattle.design_table.specs.Parsed.{within_seen, overlap_seen, sheet_seen};
ghost use Rattle.fault_words.specs.Entries.{node_text, edge_text, signal_text, vehicle_text, train_text, order_text};
ghost use Rattle.fault_words.specs.Entries.{within_text, text_at, edge_number, vehicle_number, order_number};
ghost use Rattle.fault_words.specs.Entries.{within_number, overlap_text, overlap_number, number_at, top_number};
ghost use Rattle.fault_words.specs.Entries.{toward_at};

use design_table::{
    EdgeEntry, EntryKind, Key, NodeEntry, OrderEntry, OverlapEntry, Sheet, Side, SignalEntry,
    TrainEntry, VehicleEntry, WithinEntry,
};

/// The entry of a number.
pub(crate) fn entry<E>(entries: &[E], number: u64) -> Option<&E>
    ensures { option_copied result ≡ slice_get entries.now (number - 1) }
{
    entries.get(number.saturating_sub(1) as usize)
}

/// The name that a node has at a key.
fn node_text<'a>(node: &NodeEntry<'a>, key: Key) -> &'a str
    ensures { result.now ≡ node_text key (node_seen node.now) }
{
    match key {
        Key::Name => node.name,
        _ => "",
    }
}

/// The name that an edge has at a key.
fn edge_text<'a>(edge: &EdgeEntry<'a>, key: Key) -> &'a str
    ensures { result.now ≡ edge_text key (edge_seen edge.now) }
{
    match key {
        Key::Name => edge.name,
        Key::From => edge.from,
        Key::To => edge.to,
        _ => "",
    }
}

/// The name that a signal has at a key.
fn signal_text<'a>(signal: &SignalEntry<'a>, key: Key) -> &'a str
    ensures { result.now ≡ signal_text key (signal_seen signal.now) }
{
    match key {
        Key::Name => signal.name,
        Key::Node => signal.node,
        _ => "",
    }
}

/// The name that a vehicle has at a key.
fn vehicle_text<'a>(vehicle: &VehicleEntry<'a>, key: Key) -> &'a str
    ensures { result.now ≡ vehicle_text key (vehicle_seen vehicle.now) }
{
    match key {
        Key::Name => vehicle.name,
        _ => "",
    }
}

/// The name that a train has at a key.
fn train_text<'a>(train: &TrainEntry<'a>, key: Key) -> &'a str
    ensures { result.now ≡ train_text key (train_seen train.now) }
{
    match key {
        Key::Name => train.name,
        Key::Vehicle => train.vehicle,
        _ => "",
    }
}

/// The name that an order has at a key.
fn order_text<'a>(order: &OrderEntry<'a>, key: Key) -> &'a str
    ensures { result.now ≡ order_text key (order_seen order.now) }
{
    match key {
        Key::FirstTrain => order.first_train,
        Key::ThenTrain => order.then_train,
        _ => "",
    }
}

/// The name that a within has at a key.
fn within_text<'a>(within: &WithinEntry<'a>, key: Key) -> &'a str
    ensures { result.now ≡ within_text key (within_seen within.now) }
{
    match key {
        Key::FromTrain => within.from_train,
        Key::ToTrain => within.to_train,
        _ => "",
    }
}

/// The name that an overlap has at a key.
fn overlap_text<'a>(overlap: &OverlapEntry<'a>, key: Key) -> &'a str
    ensures { result.now ≡ overlap_text key (overlap_seen overlap.now) }
{
    match key {
        Key::Signal => overlap.signal,
        _ => "",
    }
}

/// The name that an entry has at a key.
#[tactic(auto, using(crate::proofs::Seen::seen_at))]
pub(crate) fn text_at<'a>(sheet: &Sheet<'a>, kind: EntryKind, number: u64, key: Key) -> &'a str
    ensures { result.now ≡ text_at (sheet_seen sheet.now) kind number key }
{
    match kind {
        EntryKind::Node => match entry(sheet.nodes.as_slice(), number) {
            Some(node) => node_text(node, key),
            None => "",
        },
        EntryKind::Edge => match entry(sheet.edges.as_slice(), number) {
            Some(edge) => edge_text(edge, key),
            None => "",
        },
        EntryKind::Signal => match entry(sheet.signals.as_slice(), number) {
            Some(signal) => signal_text(signal, key),
            None => "",
        },
        EntryKind::Vehicle => match entry(sheet.vehicles.as_slice(), number) {
            Some(vehicle) => vehicle_text(vehicle, key),
            None => "",
        },
        EntryKind::Train => match entry(sheet.trains.as_slice(), number) {
            Some(train) => train_text(train, key),
            None => "",
        },
        EntryKind::Order => match entry(sheet.orders.as_slice(), number) {
            Some(order) => order_text(order, key),
            None => "",
        },
        EntryKind::Within => match entry(sheet.withins.as_slice(), number) {
            Some(within) => within_text(within, key),
            None => "",
        },
        EntryKind::Overlap => match entry(sheet.overlaps.as_slice(), number) {
            Some(overlap) => overlap_text(overlap, key),
            None => "",
        },
    }
}

/// The whole number that an edge has at a key.
fn edge_number(edge: &EdgeEntry, key: Key) -> i64
    ensures { result ≡ edge_number key (edge_seen edge.now) }
{
    match key {
        Key::LengthMm => edge.length_mm,
        Key::SpeedMmS => edge.speed_mm_s,
        _ => 0,
    }
}

/// The whole number that a vehicle has at a key.
fn vehicle_number(vehicle: &VehicleEntry, key: Key) -> i64
    ensures { result ≡ vehicle_number key (vehicle_seen vehicle.now) }
{
    match key {
        Key::LengthMm => vehicle.length_mm,
        Key::AccelMmS2 => vehicle.accel_mm_s2,
        Key::BrakeMmS2 => vehicle.brake_mm_s2,
        Key::SpeedMmS => vehicle.speed_mm_s,
        _ => 0,
    }
}

/// The whole number that an order has at a key.
fn order_number(order: &OrderEntry, key: Key) -> i64
    ensures { result ≡ order_number key (order_seen order.now) }
{
    match key {
        Key::FirstVisit => order.first_visit,
        Key::ThenVisit => order.then_visit,
        _ => 0,
    }
}

/// The whole number that a within has at a key.
fn within_number(within: &WithinEntry, key: Key) -> i64
    ensures { result ≡ within_number key (within_seen within.now) }
{
    match key {
        Key::FromVisit => within.from_visit,
        Key::ToVisit => within.to_visit,
        Key::MaxMs => within.max_ms,
        _ => 0,
    }
}

/// The whole number that an overlap has at a key.
fn overlap_number(overlap: &OverlapEntry, key: Key) -> i64
    ensures { result ≡ overlap_number key (overlap_seen overlap.now) }
{
    match key {
        Key::HoldMs => overlap.hold_ms,
        _ => 0,
    }
}

/// The whole number that an entry has at a key.
#[tactic(auto, using(crate::proofs::Seen::seen_at))]
pub(crate) fn number_at(sheet: &Sheet, kind: EntryKind, number: u64, key: Key) -> i64
    ensures { result ≡ number_at (sheet_seen sheet.now) kind number key }
{
    match kind {
        EntryKind::Edge => match entry(sheet.edges.as_slice(), number) {
            Some(edge) => edge_number(edge, key),
            None => 0,
        },
        EntryKind::Vehicle => match entry(sheet.vehicles.as_slice(), number) {
            Some(vehicle) => vehicle_number(vehicle, key),
            None => 0,
        },
        EntryKind::Order => match entry(sheet.orders.as_slice(), number) {
            Some(order) => order_number(order, key),
            None => 0,
        },
        EntryKind::Within => match entry(sheet.withins.as_slice(), number) {
            Some(within) => within_number(within, key),
            None => 0,
        },
        EntryKind::Overlap => match entry(sheet.overlaps.as_slice(), number) {
            Some(overlap) => overlap_number(overlap, key),
            None => 0,
        },
        _ => 0,
    }
}

/// The whole number at a key of the top.
pub(crate) fn top_number(sheet: &Sheet, key: Key) -> i64
    ensures { result ≡ top_number (sheet_seen sheet.now) key }
{
    match key {
        Key::Version => sheet.version,
        Key::TickMs => sheet.tick_ms,
        Key::HorizonMs => sheet.horizon_ms,
        _ => 0,
    }
}

/// The side for which the signal of a number stands.
#[tactic(auto, using(crate::proofs::Seen::seen_at))]
pub(crate) fn toward_at(sheet: &Sheet, number: u64) -> Side
    ensures { result ≡ toward_at (sheet_seen sheet.now) number }
{
    match entry(sheet.signals.as_slice(), number) {
        Some(signal) => signal.toward,
        None => Side::A,
    }
}
