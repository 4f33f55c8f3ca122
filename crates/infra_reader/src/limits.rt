//! Numbers and counts that are out of range: D05.

ghost use Rattle.std.specs.Prelude.{◌≡◌, ◌≤◌, ◌<◌, ◌&&◌, ◌==◌, ◌/◌, pos, nat_abs, nat_le, int_le, not, length, map};
ghost use Rattle.std.specs.Prelude.{IfOk};
ghost use Rattle.std.specs.Ordering.{int_eq};
ghost use Rattle.std.specs.List.{find, list_all};
ghost use Rattle.design_table.specs.Reads.{ReadsOrRefuses, at};
ghost use Rattle.design_table.specs.Parsed.{ParsedEdge, ParsedVehicle, ParsedTrain, ParsedWithin, ParsedOverlap};
ghost use Rattle.design_table.specs.Parsed.{edge_seen, vehicle_seen, train_seen, within_seen, overlap_seen};
ghost use Rattle.design_table.specs.Parsed.{sheet_seen};
ghost use Rattle.rail_base.specs.Admission.{is_from};
ghost use Rattle.rail_base.specs.Numbering.{entry};
ghost use Rattle.infra_reader.specs.Limits.{unless_from, edge_outside, vehicle_outside, train_outside, within_outside};
ghost use Rattle.infra_reader.specs.Limits.{are_few_visits, is_horizon, times_outside, track_outside, traffic_outside};
ghost use Rattle.infra_reader.specs.Limits.{out_of_range, count_outside, array_outside, limit, is_kept, limits_outside};
ghost use Rattle.infra_reader.specs.Limits.{are_good_dwells, overlap_outside};
ghost use Rattle.infra_reader.specs.Seen.{limit_seen};
ghost use Rattle.design_table.specs.Texts.{visits_seen};

use crate::walk::{Limited, refuse_array, refuse_count};
use design_table::{
    Code, DesignFault, EdgeEntry, EntryKind, Key, OverlapEntry, Place, Sheet, TrainEntry,
    VehicleEntry, WithinEntry,
};

/// Refuses numbers and counts that are out of range. Visit numbers are excepted.
#[tactic(auto, using(crate::proofs::Places::walk), unfolding(crate::specs::Limits::out_of_range))]
pub fn refuse_outside(sheet: &Sheet) -> Result<(), DesignFault>
    ensures { ReadsOrRefuses (λ x. x) result Code.D05 (out_of_range (sheet_seen sheet.now)) tt }
{
    refuse_times(sheet)?;
    refuse_track(sheet)?;
    refuse_traffic(sheet)
}

/// Refuses a place where a number or a count is out of range.
fn refuse_unless(is_good: bool, place: Place) -> Result<(), DesignFault>
    ensures { ReadsOrRefuses (λ x. x) result Code.D05 (at (not is_good) place) tt }
{
    if is_good {
        Ok(())
    } else {
        Err(DesignFault::Refused {
            code: Code::D05,
            place,
        })
    }
}

/// A key of an entry, the least and the greatest number that are allowed there, and the numbers that stand there.
#[derive(Clone, Copy)]
struct Limit<'a> {
    key: Key,
    least: u32,
    greatest: u32,
    numbers: &'a [i64],
}

impl<'a> Limit<'a> {
    /// Whether all its numbers are allowed.
    fn is_kept(self) -> bool
        ensures { result ≡ is_kept (limit_seen self.entry) }
    {
        self.numbers.iter().all(|number| {
            i64::from(self.least) <= *number && *number <= i64::from(self.greatest)
        })
    }
}

/// The first whose numbers are not allowed.
fn first_broken<'a>(limits: &[Limit<'a>]) -> Option<Limit<'a>>
    ensures { result ≡ find (λ l. not (is_kept (limit_seen l))) limits.now }
{
    limits.iter().copied().find(|limit| !limit.is_kept())
}

/// Refuses the first key of an entry whose numbers are not allowed.
fn refuse_limits(kind: EntryKind, number: u64, limits: &[Limit]) -> Result<(), DesignFault>
    ensures { ReadsOrRefuses (λ x. x) result Code.D05
        (limits_outside kind number (map limit_seen limits.now)) tt }
{
    match first_broken(limits) {
        Some(limit) => Err(DesignFault::Refused {
            code: Code::D05,
            place: Place::Field(kind, number, limit.key),
        }),
        None => Ok(()),
    }
}

/// A row of the numbers of an entry.
macro_rules! row {
    ($key:ident, $least:literal, $greatest:literal, $numbers:expr) => {
        Limit {
            key: Key::$key,
            least: $least,
            greatest: $greatest,
            numbers: $numbers,
        }
    };
}

impl<'a> Limited for EdgeEntry<'a> {
    ghost Parsed = { ParsedEdge };

    ghost seen = { λ e. edge_seen e };

    ghost outside = { λ i e. edge_outside i e };

    fn refuse_outside(&self, number: u64) -> Result<(), DesignFault> {
        let limits = [
            row!(LengthMm, 1, 10_000_000, &[self.length_mm]),
            row!(SpeedMmS, 1, 100_000, &[self.speed_mm_s]),
        ];
        refuse_limits(EntryKind::Edge, number, &limits)
    }
}

impl<'a> Limited for VehicleEntry<'a> {
    ghost Parsed = { ParsedVehicle };

    ghost seen = { λ v. vehicle_seen v };

    ghost outside = { λ i v. vehicle_outside i v };

    fn refuse_outside(&self, number: u64) -> Result<(), DesignFault> {
        let limits = [
            row!(LengthMm, 1, 2_000_000, &[self.length_mm]),
            row!(AccelMmS2, 1, 100_000, &[self.accel_mm_s2]),
            row!(BrakeMmS2, 1, 100_000, &[self.brake_mm_s2]),
            row!(SpeedMmS, 1, 100_000, &[self.speed_mm_s]),
        ];
        refuse_limits(EntryKind::Vehicle, number, &limits)
    }
}

/// Refuses a number that is not from `low` to `high`.
#[tactic(auto, unfolding(crate::specs::Limits::unless_from))]
fn refuse_unless_from(low: u32, high: u32, number: i64, place: Place) -> Result<(), DesignFault>
    ensures { ReadsOrRefuses (λ x. x) result Code.D05 (unless_from low high number place) tt }
{
    refuse_unless(i64::from(low) <= number && number <= i64::from(high), place)
}

/// Whether a count is from the one to the other.
fn is_count(low: usize, high: usize, count: usize) -> bool
    ensures { result ≡ is_from low high count }
{
    low <= count && count <= high
}

/// Whether each visit has 1 to 64 nodes.
fn are_few_nodes(visits: &[Vec<&str>]) -> bool
    ensures { result ≡ list_all (λ visit. is_from 1 64 (length visit.items)) visits.now }
{
    visits.iter().all(|visit| is_count(1, 64, visit.len()))
}

#[tactic(auto, using(crate::proofs::Places::walk))]
impl<'a> Limited for TrainEntry<'a> {
    ghost Parsed = { ParsedTrain };

    ghost seen = { λ t. train_seen t };

    ghost outside = { λ i t. train_outside i t };

    fn refuse_outside(&self, number: u64) -> Result<(), DesignFault> {
        let visits_place = Place::Field(EntryKind::Train, number, Key::Visits);
        let dwells_place = Place::Field(EntryKind::Train, number, Key::DwellMs);
        refuse_unless(are_few_visits(self.visits.as_slice()), visits_place)?;
        refuse_unless(has_good_dwells(self), dwells_place)
    }
}

impl<'a> Limited for WithinEntry<'a> {
    ghost Parsed = { ParsedWithin };

    ghost seen = { λ w. within_seen w };

    ghost outside = { λ i w. within_outside i w };

    fn refuse_outside(&self, number: u64) -> Result<(), DesignFault> {
        let limits = [row!(MaxMs, 0, 86_400_000, &[self.max_ms])];
        refuse_limits(EntryKind::Within, number, &limits)
    }
}

/// Whether an overlap has 1 to 16 sections.
#[tactic(auto, using(crate::proofs::Visits::text_count))]
fn has_few_sections(overlap: &OverlapEntry) -> bool
    ensures { result ≡ is_from 1 16 (length (overlap_seen overlap.now).sections) }
{
    is_count(1, 16, overlap.sections.len())
}

#[tactic(auto, using(crate::proofs::Places::walk))]
impl<'a> Limited for OverlapEntry<'a> {
    ghost Parsed = { ParsedOverlap };

    ghost seen = { λ o. overlap_seen o };

    ghost outside = { λ i o. overlap_outside i o };

    fn refuse_outside(&self, number: u64) -> Result<(), DesignFault> {
        let sections_place = Place::Field(EntryKind::Overlap, number, Key::Sections);
        refuse_unless(has_few_sections(self), sections_place)?;
        let limits = [row!(HoldMs, 0, 600_000, &[self.hold_ms])];
        refuse_limits(EntryKind::Overlap, number, &limits)
    }
}

/// Whether there are 1 to 16 visits of 1 to 64 nodes.
#[tactic(auto, using(crate::proofs::Visits::few_visits))]
fn are_few_visits(visits: &[Vec<&str>]) -> bool
    ensures { result ≡ are_few_visits (visits_seen visits.now) }
{
    is_count(1, 16, visits.len()) && are_few_nodes(visits)
}

/// Whether there are numbers in range for so many visits, and 0 for the first.
fn are_good_dwells(visits: usize, dwells: &[i64]) -> bool
    ensures { result ≡ ((length dwells.now == visits) && is_kept (limit Key.DwellMs 0 3600000 dwells.now)
        && int_eq (entry (pos 0) dwells.now 1) (pos 0)) }
{
    dwells.len() == visits
        && row!(DwellMs, 0, 3_600_000, dwells).is_kept()
        && dwells.first().copied().unwrap_or(0) == 0
}

/// Whether a train stands long enough and not too long at each visit, where it is said how long.
fn has_good_dwells(train: &TrainEntry) -> bool
    ensures { let parsed = train_seen train.now in result ≡ are_good_dwells parsed.visits parsed.dwell_ms }
{
    match &train.dwell_ms {
        Some(dwells) => are_good_dwells(train.visits.len(), dwells.as_slice()),
        None => true,
    }
}

/// How many ticks a horizon gives; 0 where a tick has no length.
fn ticks_of(horizon_ms: i64, tick_ms: i64) -> u64
    ensures { result ≡ nat_abs horizon_ms / nat_abs tick_ms }
{
    match horizon_ms
        .unsigned_abs()
        .checked_div(tick_ms.unsigned_abs())
    {
        Some(ticks) => ticks,
        None => 0,
    }
}

/// Whether a horizon is 1 ms or more, and at most 86,400 ticks.
fn is_horizon(horizon_ms: i64, tick_ms: i64) -> bool
    ensures { result ≡ is_horizon horizon_ms tick_ms }
{
    1 <= horizon_ms && ticks_of(horizon_ms, tick_ms) <= 86_400
}

/// The version, the tick and the horizon.
#[tactic(auto, using(crate::proofs::Places::walk), unfolding(crate::specs::Limits::times_outside))]
fn refuse_times(sheet: &Sheet) -> Result<(), DesignFault>
    ensures { ReadsOrRefuses (λ x. x) result Code.D05 (times_outside (sheet_seen sheet.now)) tt }
{
    refuse_unless_from(1, 4, sheet.version, Place::Top(Key::Version))?;
    refuse_unless_from(100, 1000, sheet.tick_ms, Place::Top(Key::TickMs))?;
    let is_good = is_horizon(sheet.horizon_ms, sheet.tick_ms);
    refuse_unless(is_good, Place::Top(Key::HorizonMs))
}

/// Refuses too many nodes.
#[tactic(auto, using(crate::proofs::Visits::count_seen))]
fn refuse_nodes(sheet: &Sheet) -> Result<(), DesignFault>
    ensures { ReadsOrRefuses (λ x. x) result Code.D05 (count_outside 0 2000 Key.Node (sheet_seen sheet.now).nodes) tt }
{
    refuse_count(0, 2000, Key::Node, sheet.nodes.as_slice())
}

/// Refuses too many edges, and edges with numbers out of range.
fn refuse_edges(sheet: &Sheet) -> Result<(), DesignFault>
    ensures { ReadsOrRefuses (λ x. x) result Code.D05
        (array_outside edge_outside 0 4000 Key.Edge (sheet_seen sheet.now).edges) tt }
{
    refuse_array(0, 4000, Key::Edge, sheet.edges.as_slice())
}

/// Refuses too many signals.
#[tactic(auto, using(crate::proofs::Visits::count_seen))]
fn refuse_signals(sheet: &Sheet) -> Result<(), DesignFault>
    ensures { ReadsOrRefuses (λ x. x) result Code.D05
        (count_outside 0 1000 Key.Signal (sheet_seen sheet.now).signals) tt }
{
    refuse_count(0, 1000, Key::Signal, sheet.signals.as_slice())
}

/// Refuses too many vehicles, and vehicles with numbers out of range.
fn refuse_vehicles(sheet: &Sheet) -> Result<(), DesignFault>
    ensures { ReadsOrRefuses (λ x. x) result Code.D05
        (array_outside vehicle_outside 0 64 Key.Vehicle (sheet_seen sheet.now).vehicles) tt }
{
    refuse_array(0, 64, Key::Vehicle, sheet.vehicles.as_slice())
}

/// Refuses no train or too many, and trains with too few or too many visits, or that stand too long.
fn refuse_trains(sheet: &Sheet) -> Result<(), DesignFault>
    ensures { ReadsOrRefuses (λ x. x) result Code.D05
        (array_outside train_outside 1 128 Key.Train (sheet_seen sheet.now).trains) tt }
{
    refuse_array(1, 128, Key::Train, sheet.trains.as_slice())
}

/// Refuses too many orders.
#[tactic(auto, using(crate::proofs::Visits::count_seen))]
fn refuse_orders(sheet: &Sheet) -> Result<(), DesignFault>
    ensures { ReadsOrRefuses (λ x. x) result Code.D05 (count_outside 0 256 Key.Order (sheet_seen sheet.now).orders) tt }
{
    refuse_count(0, 256, Key::Order, sheet.orders.as_slice())
}

/// Refuses too many withins, and withins with numbers out of range.
fn refuse_withins(sheet: &Sheet) -> Result<(), DesignFault>
    ensures { ReadsOrRefuses (λ x. x) result Code.D05
        (array_outside within_outside 0 256 Key.Within (sheet_seen sheet.now).withins) tt }
{
    refuse_array(0, 256, Key::Within, sheet.withins.as_slice())
}

/// Refuses too many overlaps, and overlaps of too few or too many sections, or that are held too long.
fn refuse_overlaps(sheet: &Sheet) -> Result<(), DesignFault>
    ensures { ReadsOrRefuses (λ x. x) result Code.D05
        (array_outside overlap_outside 0 1000 Key.Overlap (sheet_seen sheet.now).overlaps) tt }
{
    refuse_array(0, 1000, Key::Overlap, sheet.overlaps.as_slice())
}

/// Refuses nodes, edges and signals.
#[tactic(auto, using(crate::proofs::Places::walk), unfolding(crate::specs::Limits::track_outside))]
fn refuse_track(sheet: &Sheet) -> Result<(), DesignFault>
    ensures { ReadsOrRefuses (λ x. x) result Code.D05 (track_outside (sheet_seen sheet.now)) tt }
{
    refuse_nodes(sheet)?;
    refuse_edges(sheet)?;
    refuse_signals(sheet)
}

/// Refuses vehicles and trains, orders, withins and overlaps.
#[tactic(auto, using(crate::proofs::Places::walk), unfolding(crate::specs::Limits::traffic_outside))]
fn refuse_traffic(sheet: &Sheet) -> Result<(), DesignFault>
    ensures { ReadsOrRefuses (λ x. x) result Code.D05 (traffic_outside (sheet_seen sheet.now)) tt }
{
    refuse_vehicles(sheet)?;
    refuse_trains(sheet)?;
    refuse_orders(sheet)?;
    refuse_withins(sheet)?;
    refuse_overlaps(sheet)
}
