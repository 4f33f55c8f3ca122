//! Rules on the station: D06 to D11.

ghost use Rattle.std.specs.Prelude.{◌≡◌, ◌+◌, ◌*◌, ◌/◌, ◌-◌, ◌<◌, ◌&&◌, ◌||◌, ◌==◌, [], ◌∷◌, if◌then◌else◌, Some, None};
ghost use Rattle.std.specs.Prelude.{length, not, take, count_by};
ghost use Rattle.std.specs.List.{list_all, list_any};
ghost use Rattle.std.specs.Option.{option_copied};
ghost use Rattle.design_table.specs.Reads.{ReadsOrRefuses, at, in_each};
ghost use Rattle.design_table.specs.declared.place.Place.TheVariants.{Entry, Field, Top};
ghost use Rattle.design_table.specs.declared.place.EntryKind.TheVariants as kinds;
ghost use Rattle.design_table.specs.declared.key.Key.TheVariants as keys;
ghost use Rattle.design_table.specs.declared.fault.Code.TheVariants as code;
ghost use Rattle.rail_base.specs.Stations.{is_side, is_end, node_of, train_of, first_visit, horizon, per_tick_speed};
ghost use Rattle.rail_base.specs.Stations.{per_tick_accel};
ghost use Rattle.rail_base.specs.Admission.{is_from, is_visit};
ghost use Rattle.rail_base.specs.declared.station.Side.TheVariants.{A, B};
ghost use Rattle.infra_reader.specs.Track.{edge_ends, ends_at, is_crowded, is_loop, is_open, is_beside, is_misplaced};
ghost use Rattle.infra_reader.specs.Track.{crowded, open_boundaries, misplaced_signals, end_at, both_ends};
ghost use Rattle.infra_reader.specs.Traffic.{if_zero, unless_visit, vehicle_zeros, zeros, can_enter, inner_starts};
ghost use Rattle.infra_reader.specs.Traffic.{order_missing, within_missing, missing_visits, edge_zeros};

use crate::walk::{Rule, refuse_each};
use design_table::{Code, DesignFault, EntryKind, Key, Place};
use rail_base::station::{
    Edge, End, Node, NodeNo, Order, Side, Signal, Station, Train, TrainNo, Vehicle, Within,
};

/// Refuses nodes with too many edge ends, and then edges with both ends at one node.
#[tactic(auto, using(crate::proofs::Places::walk), unfolding(crate::specs::Track::crowded))]
pub fn refuse_crowded(station: &Station) -> Result<(), DesignFault>
    ensures { ReadsOrRefuses (λ x. x) result Code.D06 (crowded station.now) tt }
{
    refuse_crowded_nodes(station)?;
    refuse_loops(station)
}

// ---- edge ends

/// Refuses boundaries that have not one edge end.
#[tactic(auto, unfolding(crate::specs::Track::open_boundaries))]
pub fn refuse_open_boundaries(station: &Station) -> Result<(), DesignFault>
    ensures { ReadsOrRefuses (λ x. x) result Code.D07 (open_boundaries station.now) tt }
{
    refuse_each::<OpenBoundaries, Node>(station, station.nodes.as_slice())
}

/// Refuses signals at boundaries, and later ones for a node and side that have one.
#[tactic(auto, unfolding(crate::specs::Track::misplaced_signals))]
pub fn refuse_misplaced_signals(station: &Station) -> Result<(), DesignFault>
    ensures { ReadsOrRefuses (λ x. x) result Code.D08 (misplaced_signals station.now) tt }
{
    refuse_each::<Misplaced, Signal>(station, station.signals.as_slice())
}

/// Refuses numbers that are 0 in a tick.
#[tactic(auto, using(crate::proofs::Places::walk), unfolding(crate::specs::Traffic::zeros))]
pub fn refuse_zeros(station: &Station) -> Result<(), DesignFault>
    ensures { ReadsOrRefuses (λ x. x) result Code.D09 (zeros station.now) tt }
{
    refuse_no_tick(station)?;
    refuse_edge_zeros(station)?;
    refuse_vehicle_zeros(station)
}

/// Nodes with too many edge ends.
struct Crowded;

impl Rule<Node> for Crowded {
    ghost code = { code.D06 };

    ghost places = { λ d i n. at (is_crowded d i) (Entry kinds.Node i) };

    fn check(station: &Station, number: u64, _node: &Node) -> Result<(), DesignFault> {
        let ends_a = ends_at(station, number, Side::A);
        let ends_b = ends_at(station, number, Side::B);
        let is_crowded = 3 <= ends_a || 3 <= ends_b || (2 <= ends_a && 2 <= ends_b);
        refuse_if(is_crowded, Code::D06, Place::Entry(EntryKind::Node, number))
    }
}

/// Edges with both ends at one node.
struct Loops;

impl Rule<Edge> for Loops {
    ghost code = { code.D06 };

    ghost places = { λ d i e. at (is_loop e) (Entry kinds.Edge i) };

    fn check(_station: &Station, number: u64, edge: &Edge) -> Result<(), DesignFault> {
        let is_loop = edge.from.node.0 == edge.to.node.0;
        refuse_if(is_loop, Code::D06, Place::Entry(EntryKind::Edge, number))
    }
}

/// Refuses trains whose first visit names a node that is no boundary.
#[tactic(auto, unfolding(crate::specs::Traffic::inner_starts))]
pub fn refuse_inner_starts(station: &Station) -> Result<(), DesignFault>
    ensures { ReadsOrRefuses (λ x. x) result Code.D10 (inner_starts station.now) tt }
{
    refuse_each::<InnerStarts, Train>(station, station.trains.as_slice())
}

/// Refuses visit numbers that are none of that train's.
#[tactic(auto, using(crate::proofs::Places::walk), unfolding(crate::specs::Traffic::missing_visits))]
pub fn refuse_missing_visits(station: &Station) -> Result<(), DesignFault>
    ensures { ReadsOrRefuses (λ x. x) result Code.D11 (missing_visits station.now) tt }
{
    refuse_orders_missing(station)?;
    refuse_withins_missing(station)
}

/// Refuses a place where a rule is broken.
fn refuse_if(is_broken: bool, code: Code, place: Place) -> Result<(), DesignFault>
    ensures { ReadsOrRefuses (λ x. x) result code (at is_broken place) tt }
{
    if is_broken {
        Err(DesignFault::Refused { code, place })
    } else {
        Ok(())
    }
}

/// Boundaries that have not one edge end.
struct OpenBoundaries;

impl Rule<Node> for OpenBoundaries {
    ghost code = { code.D07 };

    ghost places = { λ d i n. at (is_open d i n) (Entry kinds.Node i) };

    fn check(station: &Station, number: u64, node: &Node) -> Result<(), DesignFault> {
        let is_open = node.boundary && has_not_one_end(station, number);
        refuse_if(is_open, Code::D07, Place::Entry(EntryKind::Node, number))
    }
}

/// Whether an end is at this side of the node of this number.
fn is_at(end: End, node: u64, side: Side) -> bool
    ensures { result ≡ is_end end (end_at node side) }
{
    u64::from(end.node.0) == node && end.side == side
}

/// How many ends of an edge are at this side of a node.
fn ends_of(edge: &Edge, node: u64, side: Side) -> usize
    ensures { result ≡ count_by (λ end. is_end end (end_at node side)) (both_ends edge.now) }
{
    usize::from(is_at(edge.from, node, side)) + usize::from(is_at(edge.to, node, side))
}

// ---- signals

/// How many edge ends are at this side of a node.
#[tactic(auto, unfolding(crate::specs::Track::ends_at))]
fn ends_at(station: &Station, node: u64, side: Side) -> usize
    ensures { result ≡ ends_at station.now node side }
{
    let mut count = 0;
    for edge in station.edges.as_slice() {
        count += ends_of(edge, node, side);
    }
    count
}

/// Refuses nodes with too many edge ends.
fn refuse_crowded_nodes(station: &Station) -> Result<(), DesignFault>
    ensures { ReadsOrRefuses (λ x. x) result Code.D06
        (in_each (λ i n. at (is_crowded station.now i) (Entry kinds.Node i)) station.now.nodes) tt }
{
    refuse_each::<Crowded, Node>(station, station.nodes.as_slice())
}

/// Refuses edges with both ends at one node.
fn refuse_loops(station: &Station) -> Result<(), DesignFault>
    ensures { ReadsOrRefuses (λ x. x) result Code.D06
        (in_each (λ i e. at (is_loop e) (Entry kinds.Edge i)) station.now.edges) tt }
{
    refuse_each::<Loops, Edge>(station, station.edges.as_slice())
}

/// Signals at boundaries, and later ones for a node and side that have one.
struct Misplaced;

impl Rule<Signal> for Misplaced {
    ghost code = { code.D08 };

    ghost places = { λ d i s. at (is_misplaced d i s) (Entry kinds.Signal i) };

    fn check(station: &Station, number: u64, signal: &Signal) -> Result<(), DesignFault> {
        let earlier = number.saturating_sub(1) as usize;
        let is_misplaced = is_boundary(station, signal.node)
            || is_beside_earlier(station.signals.as_slice(), earlier, signal);
        refuse_if(
            is_misplaced,
            Code::D08,
            Place::Entry(EntryKind::Signal, number),
        )
    }
}

/// Whether a node has no edge end, or more than one.
fn has_not_one_end(station: &Station, node: u64) -> bool
    ensures { result ≡ not (ends_at station.now node A + ends_at station.now node B == 1) }
{
    let ends_a = ends_at(station, node, Side::A);
    let ends_b = ends_at(station, node, Side::B);
    !((ends_a == 0 && ends_b == 1) || (ends_a == 1 && ends_b == 0))
}

// ---- numbers per tick

/// Whether the node of a number is a boundary.
fn is_boundary(station: &Station, node: NodeNo) -> bool
    ensures { result ≡ (node_of station.now node).boundary }
{
    match node.0 {
        0 => false,
        number => match station.nodes.as_slice().get(number as usize - 1) {
            Some(node) => node.boundary,
            None => false,
        },
    }
}

/// Whether two signals are at one node, for one side.
fn is_beside(signal: &Signal, other: &Signal) -> bool
    ensures { result ≡ is_beside signal.now other.now }
{
    signal.node.0 == other.node.0 && signal.toward == other.toward
}

/// Edges whose speed is 0 in a tick.
struct EdgeZeros;

#[tactic(auto, unfolding(crate::specs::Traffic::if_zero))]
impl Rule<Edge> for EdgeZeros {
    ghost code = { code.D09 };

    ghost places = { λ d i e. if_zero (per_tick_speed d e.speed_mm_s) (Field kinds.Edge i keys.SpeedMmS) };

    fn check(station: &Station, number: u64, edge: &Edge) -> Result<(), DesignFault> {
        let place = Place::Field(EntryKind::Edge, number, Key::SpeedMmS);
        refuse_zero(is_still(edge.speed_mm_s, station.tick_ms), place)
    }
}

/// Whether one of so many first signals is at the node and for the side of this one.
fn is_beside_earlier(signals: &[Signal], count: usize, signal: &Signal) -> bool
    ensures { result ≡ list_any (λ q. is_beside q signal.now) (take count signals.now) }
{
    signals
        .iter()
        .take(count)
        .any(|other| is_beside(other, signal))
}

/// Vehicles whose acceleration, braking or speed is 0 in a tick.
struct VehicleZeros;

#[tactic(auto, using(crate::proofs::Places::walk), unfolding(crate::specs::Traffic::if_zero))]
impl Rule<Vehicle> for VehicleZeros {
    ghost code = { code.D09 };

    ghost places = { λ d i v. vehicle_zeros d i v };

    fn check(station: &Station, number: u64, vehicle: &Vehicle) -> Result<(), DesignFault> {
        let kind = EntryKind::Vehicle;
        let tick_ms = station.tick_ms;
        let accel_place = Place::Field(kind, number, Key::AccelMmS2);
        let brake_place = Place::Field(kind, number, Key::BrakeMmS2);
        let speed_place = Place::Field(kind, number, Key::SpeedMmS);
        refuse_zero(is_constant(vehicle.accel_mm_s2, tick_ms), accel_place)?;
        refuse_zero(is_constant(vehicle.brake_mm_s2, tick_ms), brake_place)?;
        refuse_zero(is_still(vehicle.speed_mm_s, tick_ms), speed_place)
    }
}

/// Whether a speed in mm/s is 0 mm in a tick.
fn is_still(speed_mm_s: u32, tick_ms: u32) -> bool
    ensures { result ≡ (speed_mm_s * tick_ms / 1000 == 0) }
{
    u64::from(speed_mm_s) * u64::from(tick_ms) / 1000 == 0
}

/// Whether a rate in mm/s² is 0 mm per tick in a tick. Where the product is past 64 bits it is not.
#[tactic(auto, using(crate::proofs::MotorSeen::below_whole))]
fn is_constant(rate_mm_s2: u32, tick_ms: u32) -> bool
    ensures { result ≡ (rate_mm_s2 * tick_ms * tick_ms / 1000000 == 0) }
{
    match (u64::from(rate_mm_s2) * u64::from(tick_ms)).checked_mul(u64::from(tick_ms)) {
        Some(product) => product < 1_000_000,
        None => false,
    }
}

/// Refuses a number that is 0 in a tick.
fn refuse_zero(is_zero: bool, place: Place) -> Result<(), DesignFault>
    ensures { ReadsOrRefuses (λ x. x) result Code.D09 (at is_zero place) tt }
{
    refuse_if(is_zero, Code::D09, place)
}

/// Refuses a horizon of no tick.
#[tactic(auto, unfolding(crate::specs::Traffic::if_zero))]
fn refuse_no_tick(station: &Station) -> Result<(), DesignFault>
    ensures { ReadsOrRefuses (λ x. x) result Code.D09 (if_zero (horizon station.now) (Top keys.HorizonMs)) tt }
{
    let is_zero = match station.horizon_ms.checked_div(station.tick_ms) {
        Some(ticks) => ticks == 0,
        None => true,
    };
    refuse_zero(is_zero, Place::Top(Key::HorizonMs))
}

// ---- visits

/// Refuses edges whose speed is 0 in a tick.
fn refuse_edge_zeros(station: &Station) -> Result<(), DesignFault>
    ensures { ReadsOrRefuses (λ x. x) result Code.D09 (in_each (edge_zeros station.now) station.now.edges) tt }
{
    refuse_each::<EdgeZeros, Edge>(station, station.edges.as_slice())
}

/// Refuses vehicles whose acceleration, braking or speed is 0 in a tick.
fn refuse_vehicle_zeros(station: &Station) -> Result<(), DesignFault>
    ensures { ReadsOrRefuses (λ x. x) result Code.D09 (in_each (vehicle_zeros station.now) station.now.vehicles) tt }
{
    refuse_each::<VehicleZeros, Vehicle>(station, station.vehicles.as_slice())
}

/// Trains whose first visit names a node that is no boundary.
struct InnerStarts;

impl Rule<Train> for InnerStarts {
    ghost code = { code.D10 };

    ghost places = { λ d i t. at (not (can_enter d t)) (Field kinds.Train i keys.Visits) };

    fn check(station: &Station, number: u64, train: &Train) -> Result<(), DesignFault> {
        let place = Place::Field(EntryKind::Train, number, Key::Visits);
        refuse_if(!can_enter(station, train), Code::D10, place)
    }
}

/// Whether these nodes are boundaries.
fn are_boundaries(station: &Station, nodes: &[NodeNo]) -> bool
    ensures { result ≡ list_all (λ n. (node_of station.now n).boundary) nodes.now }
{
    nodes.iter().all(|node| is_boundary(station, *node))
}

/// Whether the nodes of a train's first visit are boundaries.
fn can_enter(station: &Station, train: &Train) -> bool
    ensures { result ≡ can_enter station.now train.now }
{
    match train.visits.as_slice().first() {
        Some(visit) => are_boundaries(station, visit.as_slice()),
        None => true,
    }
}

/// The train of a number.
fn train_at(station: &Station, train: TrainNo) -> Option<&Train>
    ensures { option_copied result
        ≡ (if is_from 1 (length station.now.trains) train.0 then Some (train_of station.now train) else None) }
{
    match train.0 {
        0 => None,
        number => station.trains.as_slice().get(number as usize - 1),
    }
}

/// Whether a train has a visit of this number.
fn is_visit(station: &Station, train: TrainNo, visit: u32) -> bool
    ensures { result ≡ is_visit station.now train visit }
{
    match train_at(station, train) {
        Some(train) => 1 <= visit && visit as usize <= train.visits.len(),
        None => false,
    }
}

/// Orders of visits that are not there.
struct OrdersMissing;

#[tactic(auto, using(crate::proofs::Places::walk))]
impl Rule<Order> for OrdersMissing {
    ghost code = { code.D11 };

    ghost places = { λ d i o. order_missing d i o };

    fn check(station: &Station, number: u64, order: &Order) -> Result<(), DesignFault> {
        let first_place = Place::Field(EntryKind::Order, number, Key::FirstVisit);
        let then_place = Place::Field(EntryKind::Order, number, Key::ThenVisit);
        refuse_missing(station, order.first_train, order.first_visit, first_place)?;
        refuse_missing(station, order.then_train, order.then_visit, then_place)
    }
}

/// Withins of visits that are not there.
struct WithinsMissing;

#[tactic(auto, using(crate::proofs::Places::walk))]
impl Rule<Within> for WithinsMissing {
    ghost code = { code.D11 };

    ghost places = { λ d i w. within_missing d i w };

    fn check(station: &Station, number: u64, within: &Within) -> Result<(), DesignFault> {
        let from_place = Place::Field(EntryKind::Within, number, Key::FromVisit);
        let to_place = Place::Field(EntryKind::Within, number, Key::ToVisit);
        refuse_missing(station, within.from_train, within.from_visit, from_place)?;
        refuse_missing(station, within.to_train, within.to_visit, to_place)
    }
}

/// Refuses a visit number that is none of that train's.
#[tactic(auto, unfolding(crate::specs::Traffic::unless_visit))]
fn refuse_missing(
    station: &Station,
    train: TrainNo,
    visit: u32,
    place: Place,
) -> Result<(), DesignFault>
    ensures { ReadsOrRefuses (λ x. x) result Code.D11 (unless_visit station.now train visit place) tt }
{
    refuse_if(!is_visit(station, train, visit), Code::D11, place)
}

/// Refuses orders of visits that are not there.
fn refuse_orders_missing(station: &Station) -> Result<(), DesignFault>
    ensures { ReadsOrRefuses (λ x. x) result Code.D11 (in_each (order_missing station.now) station.now.orders) tt }
{
    refuse_each::<OrdersMissing, Order>(station, station.orders.as_slice())
}

/// Refuses withins of visits that are not there.
fn refuse_withins_missing(station: &Station) -> Result<(), DesignFault>
    ensures { ReadsOrRefuses (λ x. x) result Code.D11 (in_each (within_missing station.now) station.now.withins) tt }
{
    refuse_each::<WithinsMissing, Within>(station, station.withins.as_slice())
}
