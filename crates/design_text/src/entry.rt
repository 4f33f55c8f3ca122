//! The line of each kind of entry.

ghost use Rattle.std.specs.Prelude.{◌≡◌, ℕ, List, IfOk};
ghost use Rattle.rail_base.specs.declared.station.Station.{Station};
ghost use Rattle.rail_base.specs.Stations.{vehicle_at};
ghost use Rattle.design_text.specs.Texts.{node_line, edge_line, signal_line, vehicle_line, train_line};
ghost use Rattle.design_text.specs.Texts.{order_line, overlap_line, side_name, within_line};

use crate::field::{Field, Value, entry_line};
use design_table::Key;
use rail_base::design::Design;
use rail_base::names::{entry, node_name, section_name, signal_name, train_name};
use rail_base::station::{
    Edge, Node, Order, Overlap, Side, Signal, Train, Vehicle, VehicleNo, Within,
};
use std::alloc::{AllocError, Global};

/// An entry of a design.
pub(crate) trait Entry {
    /// Its line.
    ghost line_of: { Station → Self → List ℕ };

    /// Its line, with its LF.
    fn line<'a>(&'a self, alloc: Global, design: &'a Design) -> Result<Vec<u8>, AllocError>
        ensures { IfOk result (λ line. line.items ≡ line_of design.now.station self.now) };
}

/// The word for a side of a node.
fn side_name(side: Side) -> &'static [u8]
    ensures { result.now ≡ side_name side }
{
    match side {
        Side::A => b"a",
        Side::B => b"b",
    }
}

/// The name of a vehicle.
fn vehicle_name(design: &Design, vehicle: VehicleNo) -> &[u8]
    ensures { result.now ≡ (vehicle_at design.now.station vehicle).name }
{
    match entry(design.station.vehicles.as_slice(), vehicle.0 as usize) {
        Some(vehicle) => vehicle.name.as_bytes(),
        None => &[],
    }
}

impl Entry for Node {
    ghost line_of = { λ d n. node_line n };

    fn line<'a>(&'a self, alloc: Global, design: &'a Design) -> Result<Vec<u8>, AllocError>
        ensures { IfOk result (λ line. line.items ≡ node_line self.now) }
    {
        let name = Field(Key::Name, Value::Name(self.name.as_bytes()));
        if self.boundary {
            let boundary = Field(Key::Boundary, Value::True);
            entry_line(alloc, design, &[name, boundary])
        } else {
            entry_line(alloc, design, &[name])
        }
    }
}

impl Entry for Edge {
    ghost line_of = { edge_line };

    fn line<'a>(&'a self, alloc: Global, design: &'a Design) -> Result<Vec<u8>, AllocError>
        ensures { IfOk result (λ line. line.items ≡ edge_line design.now.station self.now) }
    {
        entry_line(
            alloc,
            design,
            &[
                Field(Key::Name, Value::Name(self.name.as_bytes())),
                Field(Key::From, Value::Name(node_name(design, self.from.node))),
                Field(Key::FromSide, Value::Name(side_name(self.from.side))),
                Field(Key::To, Value::Name(node_name(design, self.to.node))),
                Field(Key::ToSide, Value::Name(side_name(self.to.side))),
                Field(Key::LengthMm, Value::Number(self.length_mm)),
                Field(Key::SpeedMmS, Value::Number(self.speed_mm_s)),
                Field(
                    Key::Section,
                    Value::Name(section_name(design, self.section)),
                ),
            ],
        )
    }
}

impl Entry for Signal {
    ghost line_of = { signal_line };

    fn line<'a>(&'a self, alloc: Global, design: &'a Design) -> Result<Vec<u8>, AllocError>
        ensures { IfOk result (λ line. line.items ≡ signal_line design.now.station self.now) }
    {
        entry_line(
            alloc,
            design,
            &[
                Field(Key::Name, Value::Name(self.name.as_bytes())),
                Field(Key::Node, Value::Name(node_name(design, self.node))),
                Field(Key::Toward, Value::Name(side_name(self.toward))),
            ],
        )
    }
}

impl Entry for Vehicle {
    ghost line_of = { λ d v. vehicle_line v };

    fn line<'a>(&'a self, alloc: Global, design: &'a Design) -> Result<Vec<u8>, AllocError>
        ensures { IfOk result (λ line. line.items ≡ vehicle_line self.now) }
    {
        entry_line(
            alloc,
            design,
            &[
                Field(Key::Name, Value::Name(self.name.as_bytes())),
                Field(Key::LengthMm, Value::Number(self.length_mm)),
                Field(Key::AccelMmS2, Value::Number(self.accel_mm_s2)),
                Field(Key::BrakeMmS2, Value::Number(self.brake_mm_s2)),
                Field(Key::SpeedMmS, Value::Number(self.speed_mm_s)),
            ],
        )
    }
}

impl Entry for Train {
    ghost line_of = { train_line };

    fn line<'a>(&'a self, alloc: Global, design: &'a Design) -> Result<Vec<u8>, AllocError>
        ensures { IfOk result (λ line. line.items ≡ train_line design.now.station self.now) }
    {
        let name = Field(Key::Name, Value::Name(self.name.as_bytes()));
        let vehicle = Field(
            Key::Vehicle,
            Value::Name(vehicle_name(design, self.vehicle)),
        );
        let visits = Field(Key::Visits, Value::Visits(self.visits.as_slice()));
        if design.station.version >= 3 {
            let dwells = Field(Key::DwellMs, Value::Numbers(self.dwell_ms.as_slice()));
            entry_line(alloc, design, &[name, vehicle, visits, dwells])
        } else {
            entry_line(alloc, design, &[name, vehicle, visits])
        }
    }
}

impl Entry for Order {
    ghost line_of = { order_line };

    fn line<'a>(&'a self, alloc: Global, design: &'a Design) -> Result<Vec<u8>, AllocError>
        ensures { IfOk result (λ line. line.items ≡ order_line design.now.station self.now) }
    {
        entry_line(
            alloc,
            design,
            &[
                Field(
                    Key::FirstTrain,
                    Value::Name(train_name(design, self.first_train)),
                ),
                Field(Key::FirstVisit, Value::Number(self.first_visit)),
                Field(
                    Key::ThenTrain,
                    Value::Name(train_name(design, self.then_train)),
                ),
                Field(Key::ThenVisit, Value::Number(self.then_visit)),
            ],
        )
    }
}

impl Entry for Within {
    ghost line_of = { within_line };

    fn line<'a>(&'a self, alloc: Global, design: &'a Design) -> Result<Vec<u8>, AllocError>
        ensures { IfOk result (λ line. line.items ≡ within_line design.now.station self.now) }
    {
        entry_line(
            alloc,
            design,
            &[
                Field(
                    Key::FromTrain,
                    Value::Name(train_name(design, self.from_train)),
                ),
                Field(Key::FromVisit, Value::Number(self.from_visit)),
                Field(Key::ToTrain, Value::Name(train_name(design, self.to_train))),
                Field(Key::ToVisit, Value::Number(self.to_visit)),
                Field(Key::MaxMs, Value::Number(self.max_ms)),
            ],
        )
    }
}

impl Entry for Overlap {
    ghost line_of = { overlap_line };

    fn line<'a>(&'a self, alloc: Global, design: &'a Design) -> Result<Vec<u8>, AllocError>
        ensures { IfOk result (λ line. line.items ≡ overlap_line design.now.station self.now) }
    {
        entry_line(
            alloc,
            design,
            &[
                Field(Key::Signal, Value::Name(signal_name(design, self.signal))),
                Field(Key::Sections, Value::Sections(self.sections.as_slice())),
                Field(Key::HoldMs, Value::Number(self.hold_ms)),
            ],
        )
    }
}
