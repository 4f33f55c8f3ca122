//! The station of a sheet, by the numbers of its names: D04.

ghost use Rattle.std.specs.Prelude.{◌≡◌, ◌+◌, map, replicate, not, IfOk, IfErr, [], ◌++◌};
ghost use Rattle.std.specs.List.{list_all};
ghost use Rattle.design_table.specs.Reads.{ReadsOrRefuses, at, in_each};
ghost use Rattle.design_table.specs.Parsed.{ParsedNode, ParsedEdge, ParsedSignal, ParsedVehicle, ParsedTrain};
ghost use Rattle.design_table.specs.Parsed.{ParsedOrder, ParsedWithin, ParsedOverlap};
ghost use Rattle.design_table.specs.Parsed.{node_seen, edge_seen, signal_seen, vehicle_seen, train_seen, order_seen};
ghost use Rattle.design_table.specs.Parsed.{within_seen, overlap_seen, sheet_seen};
ghost use Rattle.infra_reader.specs.Names.{is_among, number_in};
ghost use Rattle.infra_reader.specs.Unknown.{unless_among, edge_unknown, signal_unknown, train_unknown, order_unknown};
ghost use Rattle.infra_reader.specs.Unknown.{within_unknown, overlap_unknown, track_unknown, traffic_unknown};
ghost use Rattle.infra_reader.specs.Stations.{number_32, nodes_in, side_of, node_in, edge_in, signal_in, vehicle_in};
ghost use Rattle.infra_reader.specs.Stations.{dwells_in, train_in, order_in, within_in, overlap_in, sections_in};
ghost use Rattle.infra_reader.specs.Stations.{station_in};
ghost use Rattle.design_table.specs.declared.fault.DesignFault.TheVariants.{Memory};
ghost use Rattle.infra_reader.specs.Parts.{track_in, traffic_in};
ghost use Rattle.design_table.specs.Texts.{texts, visits_seen};
ghost use Rattle.infra_reader.specs.Seen.{names_seen};

use crate::names::{Names, number_at, number_of};
use crate::walk::{Resolve, resolve_each};
use design_table::{
    Code, DesignFault, EdgeEntry, EntryKind, Key, NodeEntry, OrderEntry, OverlapEntry, Place,
    Sheet, SignalEntry, TrainEntry, VehicleEntry, WithinEntry,
};
use indexmap::IndexSet;
use rail_base::list::{List, Name};
use rail_base::station::{
    Edge, End, Node, NodeNo, Order, Overlap, SectionNo, Side, Signal, SignalNo, Station, Train,
    TrainNo, Vehicle, VehicleNo, Within,
};
use std::alloc::{AllocError, Global};

/// The station, or the refusal of a name that is not there.
#[tactic(auto, using(crate::proofs::Places::walk))]
pub fn resolve(alloc: Global, names: &Names, sheet: &Sheet) -> Result<Station, DesignFault>
    ensures { let known = names_seen names.now in let parsed = sheet_seen sheet.now in
        ReadsOrRefuses (λ x. x) result Code.D04 (track_unknown known parsed ++ traffic_unknown known parsed)
        (station_in known parsed) }
{
    let track = resolve_track(alloc, names, sheet)?;
    let traffic = resolve_traffic(alloc, names, sheet)?;
    Ok(Station {
        version: number_32(sheet.version),
        tick_ms: number_32(sheet.tick_ms),
        horizon_ms: number_32(sheet.horizon_ms),
        nodes: track.nodes,
        edges: track.edges,
        sections: track.sections,
        signals: track.signals,
        vehicles: traffic.vehicles,
        trains: traffic.trains,
        orders: traffic.orders,
        withins: traffic.withins,
        overlaps: traffic.overlaps,
    })
}

/// The number, or 0 where it is none of 32 bits.
fn number_32(whole: i64) -> u32
    ensures { result ≡ number_32 whole }
{
    u32::try_from(whole).unwrap_or(0)
}

/// The side of a node.
fn side_of(side: design_table::Side) -> Side
    ensures { result ≡ side_of side }
{
    match side {
        design_table::Side::A => Side::A,
        design_table::Side::B => Side::B,
    }
}

impl<'a> Resolve for NodeEntry<'a> {
    type Resolved = Node;

    ghost Parsed = { ParsedNode };

    ghost seen = { λ n. node_seen n };

    ghost unknown = { λ names i n. [] };

    ghost resolved = { λ names n. node_in names n };

    fn resolve(&self, alloc: Global, _names: &Names, _number: u64) -> Result<Node, DesignFault> {
        Ok(Node {
            name: own_name(alloc, self.name)?,
            boundary: self.boundary,
        })
    }
}

impl<'a> Resolve for EdgeEntry<'a> {
    type Resolved = Edge;

    ghost Parsed = { ParsedEdge };

    ghost seen = { λ e. edge_seen e };

    ghost unknown = { λ names i e. edge_unknown names i e };

    ghost resolved = { λ names e. edge_in names e };

    fn resolve(&self, alloc: Global, names: &Names, number: u64) -> Result<Edge, DesignFault> {
        let kind = EntryKind::Edge;
        let from = number_at(
            &names.nodes,
            self.from,
            Place::Field(kind, number, Key::From),
        )?;
        let to = number_at(&names.nodes, self.to, Place::Field(kind, number, Key::To))?;
        let section = number_of(&names.sections, self.section)?;
        let name = own_name(alloc, self.name)?;
        Ok(Edge {
            name,
            from: End {
                node: NodeNo(from),
                side: side_of(self.from_side),
            },
            to: End {
                node: NodeNo(to),
                side: side_of(self.to_side),
            },
            length_mm: number_32(self.length_mm),
            speed_mm_s: number_32(self.speed_mm_s),
            section: SectionNo(section),
        })
    }
}

impl<'a> Resolve for SignalEntry<'a> {
    type Resolved = Signal;

    ghost Parsed = { ParsedSignal };

    ghost seen = { λ s. signal_seen s };

    ghost unknown = { λ names i s. signal_unknown names i s };

    ghost resolved = { λ names s. signal_in names s };

    fn resolve(&self, alloc: Global, names: &Names, number: u64) -> Result<Signal, DesignFault> {
        let place = Place::Field(EntryKind::Signal, number, Key::Node);
        let node = number_at(&names.nodes, self.node, place)?;
        let name = own_name(alloc, self.name)?;
        Ok(Signal {
            name,
            node: NodeNo(node),
            toward: side_of(self.toward),
        })
    }
}

impl<'a> Resolve for VehicleEntry<'a> {
    type Resolved = Vehicle;

    ghost Parsed = { ParsedVehicle };

    ghost seen = { λ v. vehicle_seen v };

    ghost unknown = { λ names i v. [] };

    ghost resolved = { λ names v. vehicle_in names v };

    fn resolve(&self, alloc: Global, _names: &Names, _number: u64) -> Result<Vehicle, DesignFault> {
        let name = own_name(alloc, self.name)?;
        Ok(Vehicle {
            name,
            length_mm: number_32(self.length_mm),
            accel_mm_s2: number_32(self.accel_mm_s2),
            brake_mm_s2: number_32(self.brake_mm_s2),
            speed_mm_s: number_32(self.speed_mm_s),
        })
    }
}

/// A name of its own.
fn own_name(alloc: Global, text: &str) -> Result<Name, AllocError>
    ensures { IfOk result (λ name. name ≡ text.now) }
{
    Ok(Name::from_vec(Vec::from_slice(alloc, text.as_bytes())?))
}

/// The nodes of a visit, or the refusal of the place where one of them is not there.
fn visit_nodes(
    alloc: Global,
    nodes: &IndexSet<&str>,
    visit: &[&str],
    place: Place,
) -> Result<List<NodeNo>, DesignFault>
    ensures { let names = texts nodes.now.keys in let parsed = texts visit.now in
        ReadsOrRefuses (λ x. x) result Code.D04 (at (not (list_all (is_among names) parsed)) place)
        (nodes_in names parsed) }
{
    let mut numbers = Vec::new(alloc);
    for name in visit {
        numbers.push(NodeNo(number_at(nodes, name, place)?))?;
    }
    Ok(List::from_vec(numbers))
}

impl<'a> Resolve for TrainEntry<'a> {
    type Resolved = Train;

    ghost Parsed = { ParsedTrain };

    ghost seen = { λ t. train_seen t };

    ghost unknown = { λ names i t. train_unknown names i t };

    ghost resolved = { λ names t. train_in names t };

    fn resolve(&self, alloc: Global, names: &Names, number: u64) -> Result<Train, DesignFault> {
        let kind = EntryKind::Train;
        let vehicle_place = Place::Field(kind, number, Key::Vehicle);
        let visits_place = Place::Field(kind, number, Key::Visits);
        let vehicle = number_at(&names.vehicles, self.vehicle, vehicle_place)?;
        let visits = visits_nodes(alloc, &names.nodes, self.visits.as_slice(), visits_place)?;
        let name = own_name(alloc, self.name)?;
        let dwell_ms = dwells_of(alloc, self)?;
        Ok(Train {
            name,
            vehicle: VehicleNo(vehicle),
            visits,
            dwell_ms,
        })
    }
}

/// How long a train stands at each visit in ms: what is said, or else 0 at each.
#[tactic(auto, using(crate::proofs::Visits::zeros_seen))]
fn dwells_of(alloc: Global, train: &TrainEntry) -> Result<List<u32>, AllocError>
    ensures { let parsed = train_seen train.now in
        IfOk result (λ dwells. dwells ≡ dwells_in parsed.visits parsed.dwell_ms) }
{
    match &train.dwell_ms {
        Some(dwells) => numbers_32(alloc, dwells.as_slice()),
        None => zeros(alloc, train.visits.len()),
    }
}

/// Each number, or 0 where it is none of 32 bits.
fn numbers_32(alloc: Global, wholes: &[i64]) -> Result<List<u32>, AllocError>
    ensures { IfOk result (λ numbers. numbers ≡ map number_32 wholes.now) }
{
    let numbers = wholes.iter().map(|whole| number_32(*whole)).collect(alloc)?;
    Ok(List::from_vec(numbers))
}

/// So many times 0.
fn zeros(alloc: Global, count: usize) -> Result<List<u32>, AllocError>
    ensures { IfOk result (λ zeros. zeros ≡ replicate count 0) }
{
    Ok(List::from_vec(vec![in alloc; 0; count]?))
}

impl<'a> Resolve for OrderEntry<'a> {
    type Resolved = Order;

    ghost Parsed = { ParsedOrder };

    ghost seen = { λ o. order_seen o };

    ghost unknown = { λ names i o. order_unknown names i o };

    ghost resolved = { λ names o. order_in names o };

    fn resolve(&self, _alloc: Global, names: &Names, number: u64) -> Result<Order, DesignFault> {
        let kind = EntryKind::Order;
        let first_place = Place::Field(kind, number, Key::FirstTrain);
        let then_place = Place::Field(kind, number, Key::ThenTrain);
        let first = number_at(&names.trains, self.first_train, first_place)?;
        let then = number_at(&names.trains, self.then_train, then_place)?;
        Ok(Order {
            first_train: TrainNo(first),
            first_visit: number_32(self.first_visit),
            then_train: TrainNo(then),
            then_visit: number_32(self.then_visit),
        })
    }
}

impl<'a> Resolve for WithinEntry<'a> {
    type Resolved = Within;

    ghost Parsed = { ParsedWithin };

    ghost seen = { λ w. within_seen w };

    ghost unknown = { λ names i w. within_unknown names i w };

    ghost resolved = { λ names w. within_in names w };

    fn resolve(&self, _alloc: Global, names: &Names, number: u64) -> Result<Within, DesignFault> {
        let kind = EntryKind::Within;
        let from_place = Place::Field(kind, number, Key::FromTrain);
        let to_place = Place::Field(kind, number, Key::ToTrain);
        let from = number_at(&names.trains, self.from_train, from_place)?;
        let to = number_at(&names.trains, self.to_train, to_place)?;
        Ok(Within {
            from_train: TrainNo(from),
            from_visit: number_32(self.from_visit),
            to_train: TrainNo(to),
            to_visit: number_32(self.to_visit),
            max_ms: number_32(self.max_ms),
        })
    }
}

/// The sections of an overlap, or the refusal of the place where one of them stands on no edge.
fn overlap_sections(
    alloc: Global,
    known: &IndexSet<&str>,
    sections: &[&str],
    place: Place,
) -> Result<List<SectionNo>, DesignFault>
    ensures { let names = texts known.now.keys in let parsed = texts sections.now in
        ReadsOrRefuses (λ x. x) result Code.D04 (at (not (list_all (is_among names) parsed)) place)
        (sections_in names parsed) }
{
    let mut numbers = Vec::new(alloc);
    for name in sections {
        numbers.push(SectionNo(number_at(known, name, place)?))?;
    }
    Ok(List::from_vec(numbers))
}

impl<'a> Resolve for OverlapEntry<'a> {
    type Resolved = Overlap;

    ghost Parsed = { ParsedOverlap };

    ghost seen = { λ o. overlap_seen o };

    ghost unknown = { λ names i o. overlap_unknown names i o };

    ghost resolved = { λ names o. overlap_in names o };

    fn resolve(&self, alloc: Global, names: &Names, number: u64) -> Result<Overlap, DesignFault> {
        let kind = EntryKind::Overlap;
        let signal_place = Place::Field(kind, number, Key::Signal);
        let sections_place = Place::Field(kind, number, Key::Sections);
        let signal = number_at(&names.signals, self.signal, signal_place)?;
        let listed = self.sections.as_slice();
        let sections = overlap_sections(alloc, &names.sections, listed, sections_place)?;
        Ok(Overlap {
            signal: SignalNo(signal),
            sections,
            hold_ms: number_32(self.hold_ms),
        })
    }
}

/// The nodes of each visit, or the refusal of the place where one of them is not there.
fn visits_nodes(
    alloc: Global,
    nodes: &IndexSet<&str>,
    visits: &[Vec<&str>],
    place: Place,
) -> Result<List<List<NodeNo>>, DesignFault>
    ensures { let names = texts nodes.now.keys in let parsed = visits_seen visits.now in
        ReadsOrRefuses (λ x. x) result Code.D04 (at (not (list_all (list_all (is_among names)) parsed)) place)
        (map (nodes_in names) parsed) }
{
    let mut numbers = Vec::new(alloc);
    for visit in visits {
        numbers.push(visit_nodes(alloc, nodes, visit.as_slice(), place)?)?;
    }
    Ok(List::from_vec(numbers))
}

/// Names of their own.
fn owned_each(alloc: Global, names: &[&str]) -> Result<List<Name>, AllocError>
    ensures { IfOk result (λ own_name. own_name ≡ texts names.now) }
{
    let mut copies = Vec::new(alloc);
    for name in names {
        copies.push(own_name(alloc, name)?)?;
    }
    Ok(List::from_vec(copies))
}

/// The nodes of the station.
fn resolve_nodes(alloc: Global, names: &Names, sheet: &Sheet) -> Result<List<Node>, DesignFault>
    ensures ok { IfOk result (λ nodes. nodes ≡ map (node_in (names_seen names.now)) (sheet_seen sheet.now).nodes) }
    ensures err { IfErr result (λ fault. fault ≡ Memory) }
{
    resolve_each(alloc, names, sheet.nodes.as_slice())
}

/// The edges of the station.
fn resolve_edges(alloc: Global, names: &Names, sheet: &Sheet) -> Result<List<Edge>, DesignFault>
    ensures { let known = names_seen names.now in let edges = (sheet_seen sheet.now).edges in
        ReadsOrRefuses (λ x. x) result Code.D04 (in_each (edge_unknown known) edges) (map (edge_in known) edges) }
{
    resolve_each(alloc, names, sheet.edges.as_slice())
}

/// The signals of the station.
fn resolve_signals(alloc: Global, names: &Names, sheet: &Sheet) -> Result<List<Signal>, DesignFault>
    ensures { let known = names_seen names.now in let signals = (sheet_seen sheet.now).signals in
        ReadsOrRefuses (λ x. x) result Code.D04 (in_each (signal_unknown known) signals)
        (map (signal_in known) signals) }
{
    resolve_each(alloc, names, sheet.signals.as_slice())
}

/// The vehicles of the station.
fn resolve_vehicles(
    alloc: Global,
    names: &Names,
    sheet: &Sheet,
) -> Result<List<Vehicle>, DesignFault>
    ensures ok { IfOk result (λ vehicles.
        vehicles ≡ map (vehicle_in (names_seen names.now)) (sheet_seen sheet.now).vehicles) }
    ensures err { IfErr result (λ fault. fault ≡ Memory) }
{
    resolve_each(alloc, names, sheet.vehicles.as_slice())
}

/// The trains of the station.
fn resolve_trains(alloc: Global, names: &Names, sheet: &Sheet) -> Result<List<Train>, DesignFault>
    ensures { let known = names_seen names.now in let trains = (sheet_seen sheet.now).trains in
        ReadsOrRefuses (λ x. x) result Code.D04 (in_each (train_unknown known) trains) (map (train_in known) trains) }
{
    resolve_each(alloc, names, sheet.trains.as_slice())
}

/// The orders of the station.
fn resolve_orders(alloc: Global, names: &Names, sheet: &Sheet) -> Result<List<Order>, DesignFault>
    ensures { let known = names_seen names.now in let orders = (sheet_seen sheet.now).orders in
        ReadsOrRefuses (λ x. x) result Code.D04 (in_each (order_unknown known) orders) (map (order_in known) orders) }
{
    resolve_each(alloc, names, sheet.orders.as_slice())
}

/// The track of a station.
#[derive(Drop)]
struct Track {
    nodes: List<Node>,
    edges: List<Edge>,
    sections: List<Name>,
    signals: List<Signal>,
}

/// The traffic of a station.
#[derive(Drop)]
struct Traffic {
    vehicles: List<Vehicle>,
    trains: List<Train>,
    orders: List<Order>,
    withins: List<Within>,
    overlaps: List<Overlap>,
}

/// The withins of the station.
fn resolve_withins(alloc: Global, names: &Names, sheet: &Sheet) -> Result<List<Within>, DesignFault>
    ensures { let known = names_seen names.now in let withins = (sheet_seen sheet.now).withins in
        ReadsOrRefuses (λ x. x) result Code.D04 (in_each (within_unknown known) withins)
        (map (within_in known) withins) }
{
    resolve_each(alloc, names, sheet.withins.as_slice())
}

/// The overlaps of the station.
fn resolve_overlaps(
    alloc: Global,
    names: &Names,
    sheet: &Sheet,
) -> Result<List<Overlap>, DesignFault>
    ensures { let known = names_seen names.now in let overlaps = (sheet_seen sheet.now).overlaps in
        ReadsOrRefuses (λ x. x) result Code.D04 (in_each (overlap_unknown known) overlaps)
        (map (overlap_in known) overlaps) }
{
    resolve_each(alloc, names, sheet.overlaps.as_slice())
}

/// The track, or the refusal of a name that is not there.
#[tactic(auto, using(crate::proofs::Places::walk), unfolding(crate::specs::Unknown::track_unknown))]
fn resolve_track(alloc: Global, names: &Names, sheet: &Sheet) -> Result<Track, DesignFault>
    ensures { let known = names_seen names.now in let parsed = sheet_seen sheet.now in
        ReadsOrRefuses (λ x. x) result Code.D04 (track_unknown known parsed) (track_in known parsed) }
{
    let nodes = resolve_nodes(alloc, names, sheet)?;
    let edges = resolve_edges(alloc, names, sheet)?;
    let signals = resolve_signals(alloc, names, sheet)?;
    let sections = owned_each(alloc, names.sections.as_slice())?;
    Ok(Track {
        nodes,
        edges,
        sections,
        signals,
    })
}

/// The traffic, or the refusal of a name that is not there.
#[tactic(auto, using(crate::proofs::Places::walk), unfolding(crate::specs::Unknown::traffic_unknown))]
fn resolve_traffic(alloc: Global, names: &Names, sheet: &Sheet) -> Result<Traffic, DesignFault>
    ensures { let known = names_seen names.now in let parsed = sheet_seen sheet.now in
        ReadsOrRefuses (λ x. x) result Code.D04 (traffic_unknown known parsed) (traffic_in known parsed) }
{
    let vehicles = resolve_vehicles(alloc, names, sheet)?;
    let trains = resolve_trains(alloc, names, sheet)?;
    let orders = resolve_orders(alloc, names, sheet)?;
    let withins = resolve_withins(alloc, names, sheet)?;
    let overlaps = resolve_overlaps(alloc, names, sheet)?;
    Ok(Traffic {
        vehicles,
        trains,
        orders,
        withins,
        overlaps,
    })
}
