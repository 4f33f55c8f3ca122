//! The lines of a design.

ghost use Rattle.std.specs.Prelude.{◌≡◌, ◌++◌, ◌∷◌, [], codes, IfOk, OnOk, map};
ghost use Rattle.rail_text.specs.Added.{AddsLines};
ghost use Rattle.design_table.specs.declared.key.Key.TheVariants as keys;
ghost use Rattle.design_table.specs.Keys.{key_text};
ghost use Rattle.design_text.specs.Texts.{array_lines, design_lines, number_line};
ghost use Rattle.design_text.specs.Texts.{node_line, edge_line, signal_line, vehicle_line, train_line};
ghost use Rattle.design_text.specs.Texts.{order_line, overlap_line, within_line};

use crate::entry::Entry;
use design_table::Key;
use rail_base::design::Design;
use rail_text::put_number;
use std::alloc::{AllocError, Global};

/// The line of a number.
fn number_line(alloc: Global, key: Key, number: u32) -> Result<Vec<u8>, AllocError>
    ensures { IfOk result (λ line. line.items ≡ number_line key number) }
{
    let mut line = Vec::from_slice(alloc, key.text().as_bytes())?;
    line.extend_from_slice(b" = ")?;
    put_number(&mut line, u64::from(number))?;
    line.push(b'\n')?;
    Ok(line)
}

/// The line with which an array begins.
fn first_line(alloc: Global, key: Key) -> Result<Vec<u8>, AllocError>
    ensures { IfOk result (λ line. line.items ≡ key_text key ++ codes " = [\n") }
{
    let mut line = Vec::from_slice(alloc, key.text().as_bytes())?;
    line.extend_from_slice(b" = [\n")?;
    Ok(line)
}

/// Appends the line of each entry.
fn push_entries<E: Entry>(
    alloc: Global,
    design: &Design,
    entries: &[E],
    lines: &mut Vec<Vec<u8>>,
) -> Result<(), AllocError>
    ensures { OnOk result (AddsLines lines.old lines.new (map (E.line_of design.now.station) entries.now)) }
{
    for entry in entries {
        let line = entry.line(alloc, design)?;
        lines.push(line)?;
    }
    Ok(())
}

/// Appends the lines of an array, if it has entries.
fn push_array<E: Entry>(
    alloc: Global,
    design: &Design,
    key: Key,
    entries: &[E],
    lines: &mut Vec<Vec<u8>>,
) -> Result<(), AllocError>
    ensures { OnOk result (AddsLines lines.old lines.new
        (array_lines key (map (E.line_of design.now.station) entries.now))) }
{
    if entries.is_empty() {
        return Ok(());
    }
    lines.push(first_line(alloc, key)?)?;
    push_entries(alloc, design, entries, lines)?;
    lines.push(Vec::from_slice(alloc, b"]\n")?)?;
    Ok(())
}

/// Appends the lines of nodes, edges and signals.
fn push_track(alloc: Global, design: &Design, lines: &mut Vec<Vec<u8>>) -> Result<(), AllocError>
    ensures { OnOk result (AddsLines lines.old lines.new (let d = design.now.station in
        array_lines keys.Node (map node_line d.nodes)
        ++ (array_lines keys.Edge (map (edge_line d) d.edges)
        ++ array_lines keys.Signal (map (signal_line d) d.signals)))) }
{
    let station = &design.station;
    push_array(alloc, design, Key::Node, station.nodes.as_slice(), lines)?;
    push_array(alloc, design, Key::Edge, station.edges.as_slice(), lines)?;
    push_array(
        alloc,
        design,
        Key::Signal,
        station.signals.as_slice(),
        lines,
    )?;
    Ok(())
}

/// Appends the lines of vehicles and trains.
fn push_trains(alloc: Global, design: &Design, lines: &mut Vec<Vec<u8>>) -> Result<(), AllocError>
    ensures { OnOk result (AddsLines lines.old lines.new (let d = design.now.station in
        array_lines keys.Vehicle (map vehicle_line d.vehicles)
        ++ array_lines keys.Train (map (train_line d) d.trains))) }
{
    let station = &design.station;
    push_array(
        alloc,
        design,
        Key::Vehicle,
        station.vehicles.as_slice(),
        lines,
    )?;
    push_array(alloc, design, Key::Train, station.trains.as_slice(), lines)?;
    Ok(())
}

/// Appends the lines of orders and withins.
fn push_requirements(
    alloc: Global,
    design: &Design,
    lines: &mut Vec<Vec<u8>>,
) -> Result<(), AllocError>
    ensures { OnOk result (AddsLines lines.old lines.new (let d = design.now.station in
        array_lines keys.Order (map (order_line d) d.orders)
        ++ array_lines keys.Within (map (within_line d) d.withins))) }
{
    let station = &design.station;
    push_array(alloc, design, Key::Order, station.orders.as_slice(), lines)?;
    push_array(
        alloc,
        design,
        Key::Within,
        station.withins.as_slice(),
        lines,
    )?;
    Ok(())
}

/// Appends the lines of overlaps.
fn push_overlaps(alloc: Global, design: &Design, lines: &mut Vec<Vec<u8>>) -> Result<(), AllocError>
    ensures { OnOk result (AddsLines lines.old lines.new (let d = design.now.station in
        array_lines keys.Overlap (map (overlap_line d) d.overlaps))) }
{
    let overlaps = design.station.overlaps.as_slice();
    push_array(alloc, design, Key::Overlap, overlaps, lines)
}

/// The lines of its numbers.
fn numbers(alloc: Global, design: &Design) -> Result<Vec<Vec<u8>>, AllocError>
    ensures { IfOk result (λ lines. map (λ line. line.items) lines.items ≡ (let d = design.now.station in
        number_line keys.Version d.version
        ∷ number_line keys.TickMs d.tick_ms
        ∷ number_line keys.HorizonMs d.horizon_ms
        ∷ [])) }
{
    let station = &design.station;
    let mut lines = Vec::new(alloc);
    lines.push(number_line(alloc, Key::Version, station.version)?)?;
    lines.push(number_line(alloc, Key::TickMs, station.tick_ms)?)?;
    lines.push(number_line(alloc, Key::HorizonMs, station.horizon_ms)?)?;
    Ok(lines)
}

/// The lines of a design, each with its LF: its numbers, and then each array that has entries, with a line for each of
/// them. The reader of designs gives the design back. `Err` is want of memory.
pub fn design_lines(alloc: Global, design: &Design) -> Result<Vec<Vec<u8>>, AllocError>
    ensures { IfOk result (λ lines. map (λ line. line.items) lines.items ≡ design_lines design.now.station) }
{
    let mut lines = numbers(alloc, design)?;
    push_track(alloc, design, &mut lines)?;
    push_trains(alloc, design, &mut lines)?;
    push_requirements(alloc, design, &mut lines)?;
    push_overlaps(alloc, design, &mut lines)?;
    Ok(lines)
}
