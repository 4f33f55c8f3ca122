//! What is allowed of numbers and counts, and what is not. An error is want of memory; then a part of what is appended
//! may stand there.

ghost use Rattle.std.specs.Prelude.{◌≡◌, ◌≤◌, ◌==◌, OnOk, length, not, if◌then◌else◌};
ghost use Rattle.std.specs.List.{find};
ghost use Rattle.design_table.specs.Texts.{visits_seen};
ghost use Rattle.design_table.specs.Parsed.{sheet_seen, train_seen};
ghost use Rattle.rail_base.specs.Admission.{is_from};
ghost use Rattle.rail_text.specs.Added.{AddsText};
ghost use Rattle.fault_words.specs.Entries.{dwells_at, sections_at, visits_at};
ghost use Rattle.fault_words.specs.Limits.{count_of, count_words, fewest_of, field_words, first_crowded, greatest_of};
ghost use Rattle.fault_words.specs.Limits.{horizon_words, least_of, most_of, nodes_at, number_words, top_words};
ghost use Rattle.fault_words.specs.Limits.{begin_words, dwells_words, is_dwell, is_dwells, is_visits, lengths_words};
ghost use Rattle.fault_words.specs.Limits.{long_words, ticks_words, times_words, visit_words, visits_words};
ghost use Rattle.fault_words.specs.Limits.{is_sections, sections_words};

use crate::entries::{entry, number_at};
use crate::words::{put_allowed, put_is, put_kind, put_text, put_whole};
use design_table::{EntryKind, Key, Sheet, TrainEntry};
use rail_text::put_number;
use std::alloc::AllocError;

/// The least number that is allowed at a key of an entry.
fn least_of(key: Key) -> u64
    ensures { result ≡ least_of key }
{
    match key {
        Key::MaxMs | Key::HoldMs => 0,
        _ => 1,
    }
}

/// The greatest, in mm, mm/s, mm/s2 or ms.
fn greatest_of(kind: EntryKind, key: Key) -> u64
    ensures { result ≡ greatest_of kind key }
{
    match (kind, key) {
        (EntryKind::Edge, Key::LengthMm) => 10_000_000,
        (EntryKind::Vehicle, Key::LengthMm) => 2_000_000,
        (EntryKind::Within, Key::MaxMs) => 86_400_000,
        (EntryKind::Overlap, Key::HoldMs) => 600_000,
        _ => 100_000,
    }
}

/// Appends a number, and which ones are allowed.
fn put_number_words(
    text: &mut Vec<u8>,
    key: Key,
    number: i64,
    low: u64,
    high: u64,
) -> Result<(), AllocError>
    ensures { OnOk result (AddsText text.old text.new (number_words key number low high)) }
{
    put_is(text, key, number)?;
    put_allowed(text, low, high)
}

/// Appends how many ticks are allowed.
fn put_ticks(text: &mut Vec<u8>, tick_ms: i64) -> Result<(), AllocError>
    ensures { OnOk result (AddsText text.old text.new (ticks_words tick_ms)) }
{
    put_text(text, ", and 1 to 86400 ticks of ")?;
    put_whole(text, tick_ms)?;
    put_text(text, " ms are allowed")?;
    Ok(())
}

/// Appends the horizon, and how long it may be.
fn put_horizon(text: &mut Vec<u8>, sheet: &Sheet) -> Result<(), AllocError>
    ensures { OnOk result (AddsText text.old text.new (horizon_words (sheet_seen sheet.now))) }
{
    put_is(text, Key::HorizonMs, sheet.horizon_ms)?;
    put_ticks(text, sheet.tick_ms)
}

/// How many entries of a kind there are.
fn count_of(sheet: &Sheet, kind: EntryKind) -> usize
    ensures { result ≡ count_of (sheet_seen sheet.now) kind }
{
    match kind {
        EntryKind::Node => sheet.nodes.len(),
        EntryKind::Edge => sheet.edges.len(),
        EntryKind::Signal => sheet.signals.len(),
        EntryKind::Vehicle => sheet.vehicles.len(),
        EntryKind::Train => sheet.trains.len(),
        EntryKind::Order => sheet.orders.len(),
        EntryKind::Within => sheet.withins.len(),
        EntryKind::Overlap => sheet.overlaps.len(),
    }
}

/// How many there are to be at least.
fn fewest_of(kind: EntryKind) -> u64
    ensures { result ≡ fewest_of kind }
{
    match kind {
        EntryKind::Train => 1,
        _ => 0,
    }
}

/// How many there may be at most.
fn most_of(kind: EntryKind) -> u64
    ensures { result ≡ most_of kind }
{
    match kind {
        EntryKind::Node => 2000,
        EntryKind::Edge => 4000,
        EntryKind::Signal | EntryKind::Overlap => 1000,
        EntryKind::Vehicle => 64,
        EntryKind::Train => 128,
        EntryKind::Order | EntryKind::Within => 256,
    }
}

/// Appends how many entries of a kind there are, and how many are allowed.
fn put_count(text: &mut Vec<u8>, sheet: &Sheet, kind: EntryKind) -> Result<(), AllocError>
    ensures { OnOk result (AddsText text.old text.new (count_words (sheet_seen sheet.now) kind)) }
{
    put_text(text, "there are ")?;
    put_number(text, count_of(sheet, kind) as u64)?;
    put_text(text, " ")?;
    put_kind(text, kind)?;
    put_text(text, "s")?;
    put_allowed(text, fewest_of(kind), most_of(kind))
}

/// Whether a count is from the one to the other.
fn is_from(low: usize, high: usize, count: usize) -> bool
    ensures { result ≡ is_from low high count }
{
    low <= count && count <= high
}

/// The place of the first visit that has no node, or more than 64.
fn first_crowded(visits: &[Vec<&str>]) -> usize
    ensures value { result ≡ first_crowded (visits_seen visits.now) }
    ensures within { result ≤ length visits.now }
{
    for (place, visit) in visits.iter().enumerate() {
        if !is_from(1, 64, visit.len()) {
            return place;
        }
    }
    visits.len()
}

/// How many nodes the visit at a place has.
fn nodes_at(visits: &[Vec<&str>], place: usize) -> usize
    ensures { result ≡ nodes_at (visits_seen visits.now) place }
{
    match visits.get(place) {
        Some(visit) => visit.len(),
        None => 0,
    }
}

/// Appends how many nodes the visit at a place has, and how many are allowed.
fn put_visit(text: &mut Vec<u8>, visits: &[Vec<&str>], place: usize) -> Result<(), AllocError>
    requires { place ≤ length visits.now }
    ensures { OnOk result (AddsText text.old text.new (visit_words (visits_seen visits.now) place)) }
{
    put_text(text, "visit ")?;
    put_number(text, place as u64 + 1)?;
    put_text(text, " has ")?;
    put_number(text, nodes_at(visits, place) as u64)?;
    put_text(text, " nodes")?;
    put_allowed(text, 1, 64)
}

/// Appends how many visits there are, or how many nodes the first one has that is refused, and how many are allowed.
fn put_visits(text: &mut Vec<u8>, visits: &[Vec<&str>]) -> Result<(), AllocError>
    ensures { OnOk result (AddsText text.old text.new (visits_words (visits_seen visits.now))) }
{
    if is_from(1, 16, visits.len()) {
        put_visit(text, visits, first_crowded(visits))
    } else {
        put_text(text, "there are ")?;
        put_number(text, visits.len() as u64)?;
        put_text(text, " visits")?;
        put_allowed(text, 1, 16)
    }
}

/// Appends a number at the top, or how many entries there are, and what is allowed.
pub(crate) fn put_top(text: &mut Vec<u8>, sheet: &Sheet, key: Key) -> Result<(), AllocError>
    ensures { OnOk result (AddsText text.old text.new (top_words (sheet_seen sheet.now) key)) }
{
    match key {
        Key::Version => put_number_words(text, key, sheet.version, 1, 4),
        Key::TickMs => put_number_words(text, key, sheet.tick_ms, 100, 1000),
        Key::HorizonMs => put_horizon(text, sheet),
        Key::Node => put_count(text, sheet, EntryKind::Node),
        Key::Edge => put_count(text, sheet, EntryKind::Edge),
        Key::Signal => put_count(text, sheet, EntryKind::Signal),
        Key::Vehicle => put_count(text, sheet, EntryKind::Vehicle),
        Key::Train => put_count(text, sheet, EntryKind::Train),
        Key::Order => put_count(text, sheet, EntryKind::Order),
        Key::Within => put_count(text, sheet, EntryKind::Within),
        Key::Overlap => put_count(text, sheet, EntryKind::Overlap),
        _ => Ok(()),
    }
}

/// Appends the visits of the train of a number, and what is allowed.
#[tactic(auto, using(crate::proofs::Seen::seen_at))]
fn put_visits_at(text: &mut Vec<u8>, sheet: &Sheet, number: u64) -> Result<(), AllocError>
    ensures { OnOk result (AddsText text.old text.new (visits_words (visits_at (sheet_seen sheet.now) number))) }
{
    match entry(sheet.trains.as_slice(), number) {
        Some(train) => put_visits(text, train.visits.as_slice()),
        None => put_visits(text, &[]),
    }
}

/// Appends how many sections an overlap has, and how many are allowed.
fn put_sections(text: &mut Vec<u8>, count: usize) -> Result<(), AllocError>
    ensures { OnOk result (AddsText text.old text.new (sections_words count)) }
{
    put_text(text, "there are ")?;
    put_number(text, count as u64)?;
    put_text(text, " sections")?;
    put_allowed(text, 1, 16)
}

/// How many sections the overlap of a number has.
#[tactic(auto, using(crate::proofs::Seen::seen_at, crate::proofs::Seen::text_count))]
fn section_count(sheet: &Sheet, number: u64) -> usize
    ensures { result ≡ length (sections_at (sheet_seen sheet.now) number) }
{
    match entry(sheet.overlaps.as_slice(), number) {
        Some(overlap) => overlap.sections.len(),
        None => 0,
    }
}

/// Appends how many times to stand there are, and how many visits.
fn put_lengths(text: &mut Vec<u8>, dwells: usize, visits: usize) -> Result<(), AllocError>
    ensures { OnOk result (AddsText text.old text.new (lengths_words dwells visits)) }
{
    put_text(text, "dwell_ms has length ")?;
    put_number(text, dwells as u64)?;
    put_text(text, ", and is to have length ")?;
    put_number(text, visits as u64)?;
    put_text(text, ", as visits has")?;
    Ok(())
}

/// Appends a time to stand that is out of range, and which ones are allowed.
fn put_long(text: &mut Vec<u8>, dwell_ms: i64) -> Result<(), AllocError>
    ensures { OnOk result (AddsText text.old text.new (long_words dwell_ms)) }
{
    put_text(text, "dwell_ms has ")?;
    put_whole(text, dwell_ms)?;
    put_allowed(text, 0, 3_600_000)?;
    Ok(())
}

/// Appends the first time to stand, which is to be 0.
fn put_begin(text: &mut Vec<u8>, dwell_ms: i64) -> Result<(), AllocError>
    ensures { OnOk result (AddsText text.old text.new (begin_words dwell_ms)) }
{
    put_text(text, "dwell_ms begins with ")?;
    put_whole(text, dwell_ms)?;
    put_text(text, ", and is to begin with 0")?;
    Ok(())
}

/// Whether a time to stand is allowed.
fn is_dwell(dwell_ms: i64) -> bool
    ensures { result ≡ is_dwell dwell_ms }
{
    0 <= dwell_ms && dwell_ms <= 3_600_000
}

/// The first time to stand that is not allowed.
fn first_long(dwells: &[i64]) -> Option<i64>
    ensures { result ≡ find (λ ms. not (is_dwell ms)) dwells.now }
{
    dwells.iter().copied().find(|dwell_ms| !is_dwell(*dwell_ms))
}

/// Appends the first time to stand that is out of range, or what they begin with, and what is allowed.
fn put_times(text: &mut Vec<u8>, dwells: &[i64]) -> Result<(), AllocError>
    ensures { OnOk result (AddsText text.old text.new (times_words dwells.now)) }
{
    match first_long(dwells) {
        Some(dwell_ms) => put_long(text, dwell_ms),
        None => put_begin(text, dwells.first().copied().unwrap_or(0)),
    }
}

/// Appends what is wrong with a train's times to stand, and what is allowed.
fn put_dwells(text: &mut Vec<u8>, train: &TrainEntry) -> Result<(), AllocError>
    ensures { let parsed = train_seen train.now in
        OnOk result (AddsText text.old text.new (dwells_words parsed.visits parsed.dwell_ms)) }
{
    match &train.dwell_ms {
        Some(dwells) => put_dwell_list(text, train.visits.len(), dwells.as_slice()),
        None => Ok(()),
    }
}

/// Appends the same of the times of so many visits.
fn put_dwell_list(text: &mut Vec<u8>, visits: usize, dwells: &[i64]) -> Result<(), AllocError>
    ensures { OnOk result (AddsText text.old text.new
        (if length dwells.now == visits then times_words dwells.now else lengths_words (length dwells.now) visits)) }
{
    if dwells.len() == visits {
        put_times(text, dwells)
    } else {
        put_lengths(text, dwells.len(), visits)
    }
}

/// Appends what is wrong with the times to stand of the train of a number, and what is allowed.
#[tactic(auto, using(crate::proofs::Seen::seen_at))]
fn put_dwells_at(text: &mut Vec<u8>, sheet: &Sheet, number: u64) -> Result<(), AllocError>
    ensures { let seen = sheet_seen sheet.now in
        OnOk result (AddsText text.old text.new (dwells_words (visits_at seen number) (dwells_at seen number))) }
{
    match entry(sheet.trains.as_slice(), number) {
        Some(train) => put_dwells(text, train),
        None => Ok(()),
    }
}

/// Whether the key is that of visits.
fn is_visits(key: Key) -> bool
    ensures { result ≡ is_visits key }
{
    matches!(key, Key::Visits)
}

/// Whether it is that of times to stand.
fn is_dwells(key: Key) -> bool
    ensures { result ≡ is_dwells key }
{
    matches!(key, Key::DwellMs)
}

/// Whether it is that of the sections of an overlap.
fn is_sections(key: Key) -> bool
    ensures { result ≡ is_sections key }
{
    matches!(key, Key::Sections)
}

/// Appends the visits of an entry, its times to stand, its sections, or a number, and what is allowed.
pub(crate) fn put_field(
    text: &mut Vec<u8>,
    sheet: &Sheet,
    kind: EntryKind,
    number: u64,
    key: Key,
) -> Result<(), AllocError>
    ensures { OnOk result (AddsText text.old text.new (field_words (sheet_seen sheet.now) kind number key)) }
{
    if is_visits(key) {
        put_visits_at(text, sheet, number)
    } else if is_dwells(key) {
        put_dwells_at(text, sheet, number)
    } else if is_sections(key) {
        put_sections(text, section_count(sheet, number))
    } else {
        let found = number_at(sheet, kind, number, key);
        put_number_words(text, key, found, least_of(key), greatest_of(kind, key))
    }
}
