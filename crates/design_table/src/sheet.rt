//! The entries of a design as its document has them, borrowed from the table that was read, and how each kind is read.

ghost use Rattle.std.specs.Prelude.{◌≡◌, IfOk};
ghost use Rattle.design_table.specs.declared.place.EntryKind.TheVariants as kinds;
ghost use Rattle.design_table.specs.Parsed.{ParsedNode, ParsedEdge, ParsedSignal, ParsedVehicle, ParsedTrain};
ghost use Rattle.design_table.specs.Parsed.{ParsedOrder, ParsedWithin, ParsedOverlap, node_of, edge_of, signal_of};
ghost use Rattle.design_table.specs.Parsed.{vehicle_of, train_of, order_of, within_of, overlap_of, node_seen};
ghost use Rattle.design_table.specs.Parsed.{edge_seen, signal_seen, vehicle_seen, train_seen, order_seen};
ghost use Rattle.design_table.specs.Parsed.{within_seen, overlap_seen};
ghost use Rattle.design_table.specs.Places.{value_in};

use crate::entry::Entry;
use crate::field::{flag_of, name_of, names_of, side_of, visits_of, whole_of, wholes_of};
use crate::fields::Fields;
use crate::key::Key;
use crate::place::EntryKind;
use std::alloc::{AllocError, Global};

/// A side of a node.
#[derive(Clone, Copy, Debug, PartialEq, Eq)]
pub enum Side {
    A,
    B,
}

/// A node.
#[derive(Clone, Copy, Debug)]
pub struct NodeEntry<'a> {
    pub name: &'a str,
    /// Whether trains enter and exit there.
    pub boundary: bool,
}

impl<'a> Entry<'a> for NodeEntry<'a> {
    ghost Parsed = { ParsedNode };

    ghost seen = { node_seen };

    ghost parsed = { node_of };

    ghost kind = { kinds.Node };

    fn kind() -> EntryKind
        ensures { result ≡ kinds.Node }
    {
        EntryKind::Node
    }

    fn read(_alloc: Global, fields: Fields<'a>) -> Result<Self, AllocError>
        ensures { IfOk result (λ entry. node_seen entry ≡ node_of (value_in fields.entry)) }
    {
        Ok(NodeEntry {
            name: name_of(fields.value(Key::Name)),
            boundary: flag_of(fields.value(Key::Boundary)),
        })
    }
}

/// An edge between two sides of nodes. Lengths are in mm, speeds in mm/s.
#[derive(Clone, Copy, Debug)]
pub struct EdgeEntry<'a> {
    pub name: &'a str,
    pub from: &'a str,
    pub from_side: Side,
    pub to: &'a str,
    pub to_side: Side,
    pub length_mm: i64,
    pub speed_mm_s: i64,
    pub section: &'a str,
}

impl<'a> Entry<'a> for EdgeEntry<'a> {
    ghost Parsed = { ParsedEdge };

    ghost seen = { edge_seen };

    ghost parsed = { edge_of };

    ghost kind = { kinds.Edge };

    fn kind() -> EntryKind
        ensures { result ≡ kinds.Edge }
    {
        EntryKind::Edge
    }

    fn read(_alloc: Global, fields: Fields<'a>) -> Result<Self, AllocError>
        ensures { IfOk result (λ entry. edge_seen entry ≡ edge_of (value_in fields.entry)) }
    {
        Ok(EdgeEntry {
            name: name_of(fields.value(Key::Name)),
            from: name_of(fields.value(Key::From)),
            from_side: side_of(fields.value(Key::FromSide)),
            to: name_of(fields.value(Key::To)),
            to_side: side_of(fields.value(Key::ToSide)),
            length_mm: whole_of(fields.value(Key::LengthMm)),
            speed_mm_s: whole_of(fields.value(Key::SpeedMmS)),
            section: name_of(fields.value(Key::Section)),
        })
    }
}

/// A signal at a node, for trains that leave it by one side.
#[derive(Clone, Copy, Debug)]
pub struct SignalEntry<'a> {
    pub name: &'a str,
    pub node: &'a str,
    pub toward: Side,
}

impl<'a> Entry<'a> for SignalEntry<'a> {
    ghost Parsed = { ParsedSignal };

    ghost seen = { signal_seen };

    ghost parsed = { signal_of };

    ghost kind = { kinds.Signal };

    fn kind() -> EntryKind
        ensures { result ≡ kinds.Signal }
    {
        EntryKind::Signal
    }

    fn read(_alloc: Global, fields: Fields<'a>) -> Result<Self, AllocError>
        ensures { IfOk result (λ entry. signal_seen entry ≡ signal_of (value_in fields.entry)) }
    {
        Ok(SignalEntry {
            name: name_of(fields.value(Key::Name)),
            node: name_of(fields.value(Key::Node)),
            toward: side_of(fields.value(Key::Toward)),
        })
    }
}

/// A kind of vehicle: its length in mm, acceleration and braking in mm/s2, and top speed in mm/s.
#[derive(Clone, Copy, Debug)]
pub struct VehicleEntry<'a> {
    pub name: &'a str,
    pub length_mm: i64,
    pub accel_mm_s2: i64,
    pub brake_mm_s2: i64,
    pub speed_mm_s: i64,
}

impl<'a> Entry<'a> for VehicleEntry<'a> {
    ghost Parsed = { ParsedVehicle };

    ghost seen = { vehicle_seen };

    ghost parsed = { vehicle_of };

    ghost kind = { kinds.Vehicle };

    fn kind() -> EntryKind
        ensures { result ≡ kinds.Vehicle }
    {
        EntryKind::Vehicle
    }

    fn read(_alloc: Global, fields: Fields<'a>) -> Result<Self, AllocError>
        ensures { IfOk result (λ entry. vehicle_seen entry ≡ vehicle_of (value_in fields.entry)) }
    {
        Ok(VehicleEntry {
            name: name_of(fields.value(Key::Name)),
            length_mm: whole_of(fields.value(Key::LengthMm)),
            accel_mm_s2: whole_of(fields.value(Key::AccelMmS2)),
            brake_mm_s2: whole_of(fields.value(Key::BrakeMmS2)),
            speed_mm_s: whole_of(fields.value(Key::SpeedMmS)),
        })
    }
}

/// A train: its vehicle, and for each visit in order the names of the nodes that make it, and how long it stands there
/// in ms, where the document says it.
#[derive(Debug, Drop)]
pub struct TrainEntry<'a> {
    pub name: &'a str,
    pub vehicle: &'a str,
    pub visits: Vec<Vec<&'a str>>,
    pub dwell_ms: Option<Vec<i64>>,
}

impl<'a> Entry<'a> for TrainEntry<'a> {
    ghost Parsed = { ParsedTrain };

    ghost seen = { train_seen };

    ghost parsed = { train_of };

    ghost kind = { kinds.Train };

    fn kind() -> EntryKind
        ensures { result ≡ kinds.Train }
    {
        EntryKind::Train
    }

    fn read(alloc: Global, fields: Fields<'a>) -> Result<Self, AllocError>
        ensures { IfOk result (λ entry. train_seen entry ≡ train_of (value_in fields.entry)) }
    {
        Ok(TrainEntry {
            name: name_of(fields.value(Key::Name)),
            vehicle: name_of(fields.value(Key::Vehicle)),
            visits: visits_of(alloc, fields.value(Key::Visits))?,
            dwell_ms: wholes_of(alloc, fields.value(Key::DwellMs))?,
        })
    }
}

/// One visit is to come before another. Visits are counted from 1.
#[derive(Clone, Copy, Debug)]
pub struct OrderEntry<'a> {
    pub first_train: &'a str,
    pub first_visit: i64,
    pub then_train: &'a str,
    pub then_visit: i64,
}

impl<'a> Entry<'a> for OrderEntry<'a> {
    ghost Parsed = { ParsedOrder };

    ghost seen = { order_seen };

    ghost parsed = { order_of };

    ghost kind = { kinds.Order };

    fn kind() -> EntryKind
        ensures { result ≡ kinds.Order }
    {
        EntryKind::Order
    }

    fn read(_alloc: Global, fields: Fields<'a>) -> Result<Self, AllocError>
        ensures { IfOk result (λ entry. order_seen entry ≡ order_of (value_in fields.entry)) }
    {
        Ok(OrderEntry {
            first_train: name_of(fields.value(Key::FirstTrain)),
            first_visit: whole_of(fields.value(Key::FirstVisit)),
            then_train: name_of(fields.value(Key::ThenTrain)),
            then_visit: whole_of(fields.value(Key::ThenVisit)),
        })
    }
}

/// One visit is to come at most `max_ms` milliseconds after another. Visits are counted from 1.
#[derive(Clone, Copy, Debug)]
pub struct WithinEntry<'a> {
    pub from_train: &'a str,
    pub from_visit: i64,
    pub to_train: &'a str,
    pub to_visit: i64,
    pub max_ms: i64,
}

impl<'a> Entry<'a> for WithinEntry<'a> {
    ghost Parsed = { ParsedWithin };

    ghost seen = { within_seen };

    ghost parsed = { within_of };

    ghost kind = { kinds.Within };

    fn kind() -> EntryKind
        ensures { result ≡ kinds.Within }
    {
        EntryKind::Within
    }

    fn read(_alloc: Global, fields: Fields<'a>) -> Result<Self, AllocError>
        ensures { IfOk result (λ entry. within_seen entry ≡ within_of (value_in fields.entry)) }
    {
        Ok(WithinEntry {
            from_train: name_of(fields.value(Key::FromTrain)),
            from_visit: whole_of(fields.value(Key::FromVisit)),
            to_train: name_of(fields.value(Key::ToTrain)),
            to_visit: whole_of(fields.value(Key::ToVisit)),
            max_ms: whole_of(fields.value(Key::MaxMs)),
        })
    }
}

/// The sections that are kept free behind a signal, and for how long after a train's arrival there, in ms.
#[derive(Debug, Drop)]
pub struct OverlapEntry<'a> {
    pub signal: &'a str,
    pub sections: Vec<&'a str>,
    pub hold_ms: i64,
}

impl<'a> Entry<'a> for OverlapEntry<'a> {
    ghost Parsed = { ParsedOverlap };

    ghost seen = { overlap_seen };

    ghost parsed = { overlap_of };

    ghost kind = { kinds.Overlap };

    fn kind() -> EntryKind
        ensures { result ≡ kinds.Overlap }
    {
        EntryKind::Overlap
    }

    fn read(alloc: Global, fields: Fields<'a>) -> Result<Self, AllocError>
        ensures { IfOk result (λ entry. overlap_seen entry ≡ overlap_of (value_in fields.entry)) }
    {
        Ok(OverlapEntry {
            signal: name_of(fields.value(Key::Signal)),
            sections: names_of(alloc, fields.value(Key::Sections))?,
            hold_ms: whole_of(fields.value(Key::HoldMs)),
        })
    }
}

/// A whole design as its document has it: keys of the right form, and any names and numbers. Entries stand in
/// the order of the document, and times are in milliseconds.
#[derive(Debug, Drop)]
pub struct Sheet<'a> {
    pub version: i64,
    pub tick_ms: i64,
    pub horizon_ms: i64,
    pub nodes: Vec<NodeEntry<'a>>,
    pub edges: Vec<EdgeEntry<'a>>,
    pub signals: Vec<SignalEntry<'a>>,
    pub vehicles: Vec<VehicleEntry<'a>>,
    pub trains: Vec<TrainEntry<'a>>,
    pub orders: Vec<OrderEntry<'a>>,
    pub withins: Vec<WithinEntry<'a>>,
    pub overlaps: Vec<OverlapEntry<'a>>,
}
