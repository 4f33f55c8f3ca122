//! The lines that say what a design asks for.

ghost use Rattle.std.specs.Prelude.{◌≡◌, map, length, IfOk, OnOk};
ghost use Rattle.std.specs.List.{flat_map};
ghost use Rattle.rail_base.specs.Numbering.{one_to};
ghost use Rattle.rail_base.specs.Stations.{IsTrain, trains};
ghost use Rattle.rail_text.specs.Added.{AddsLines, AddsText};
ghost use Rattle.asked_words.specs.Asked.{asked_lines, counts_line, order_line, train_line, train_lines, vehicle_text};
ghost use Rattle.asked_words.specs.Asked.{count_text, dwell_of, stand_text, track_counts, traffic_counts, visit_line};
ghost use Rattle.asked_words.specs.Asked.{within_line};

use crate::quantities::{put_duration, put_metres, put_speed};
use cone_words::{order_of, put_makes, put_nodes, within_of};
use rail_base::design::Design;
use rail_base::names::{entry, train_name};
use rail_base::station::{TrainNo, Vehicle};
use rail_text::put_number;
use std::alloc::{AllocError, Global};

/// Appends a vehicle.
fn put_vehicle(text: &mut Vec<u8>, vehicle: &Vehicle) -> Result<(), AllocError>
    ensures { OnOk result (AddsText text.old text.new (vehicle_text vehicle.now)) }
{
    text.extend_from_slice(vehicle.name.as_bytes())?;
    text.extend_from_slice(b", ")?;
    put_metres(text, vehicle.length_mm)?;
    text.extend_from_slice(b", at most ")?;
    put_speed(text, vehicle.speed_mm_s)?;
    Ok(())
}

/// What runs.
fn train_line(alloc: Global, design: &Design, train: TrainNo) -> Result<Vec<u8>, AllocError>
    requires { IsTrain design.now.station train }
    ensures { IfOk result (λ line. line.items ≡ train_line design.now.station train) }
{
    let mut line = Vec::new(alloc);
    line.extend_from_slice(train_name(design, train))?;
    line.extend_from_slice(b": vehicle ")?;
    put_vehicle(&mut line, design.vehicle_of(train))?;
    line.push(b'\n')?;
    Ok(line)
}

/// For how many ms a train has to stand at a visit of a number, counted from 1; 0 where there is none.
pub fn dwell_of(design: &Design, train: TrainNo, visit: usize) -> u32
    ensures { result ≡ dwell_of design.now.station train visit }
{
    match entry(design.station.trains.as_slice(), train.0 as usize) {
        Some(train) => match entry(train.dwell_ms.as_slice(), visit) {
            Some(ms) => *ms,
            None => 0,
        },
        None => 0,
    }
}

/// Appends for how many ms a train is to stand, where it is.
fn put_stand(text: &mut Vec<u8>, ms: u32) -> Result<(), AllocError>
    ensures { OnOk result (AddsText text.old text.new (stand_text ms)) }
{
    if ms == 0 {
        return Ok(());
    }
    text.extend_from_slice(b", and stands there for ")?;
    put_duration(text, u64::from(ms))?;
    Ok(())
}

/// Where a train is to pass, and for how long it is to stand there.
fn visit_line(
    alloc: Global,
    design: &Design,
    train: TrainNo,
    visit: u32,
) -> Result<Vec<u8>, AllocError>
    ensures { IfOk result (λ line. line.items ≡ visit_line design.now.station train visit) }
{
    let mut line = Vec::new(alloc);
    put_makes(&mut line, design, train, visit)?;
    put_nodes(&mut line, design, train, visit)?;
    put_stand(&mut line, dwell_of(design, train, visit as usize))?;
    line.push(b'\n')?;
    Ok(line)
}

/// What is to come before what.
fn order_line(alloc: Global, design: &Design, number: u32) -> Result<Vec<u8>, AllocError>
    ensures { IfOk result (λ line. line.items ≡ order_line design.now.station number) }
{
    let order = order_of(design, number);
    let mut line = Vec::new(alloc);
    line.extend_from_slice(b"order ")?;
    put_number(&mut line, u64::from(number))?;
    line.extend_from_slice(b": ")?;
    put_makes(&mut line, design, order.first_train, order.first_visit)?;
    line.extend_from_slice(b" before ")?;
    put_makes(&mut line, design, order.then_train, order.then_visit)?;
    line.push(b'\n')?;
    Ok(line)
}

/// How soon what is to come after what.
fn within_line(alloc: Global, design: &Design, number: u32) -> Result<Vec<u8>, AllocError>
    ensures { IfOk result (λ line. line.items ≡ within_line design.now.station number) }
{
    let within = within_of(design, number);
    let mut line = Vec::new(alloc);
    line.extend_from_slice(b"within ")?;
    put_number(&mut line, u64::from(number))?;
    line.extend_from_slice(b": ")?;
    put_makes(&mut line, design, within.to_train, within.to_visit)?;
    line.extend_from_slice(b" at most ")?;
    put_duration(&mut line, u64::from(within.max_ms))?;
    line.extend_from_slice(b" after ")?;
    put_makes(&mut line, design, within.from_train, within.from_visit)?;
    line.push(b'\n')?;
    Ok(line)
}

/// Appends what runs, and where it is to pass and to stand.
fn push_train(
    alloc: Global,
    design: &Design,
    train: TrainNo,
    lines: &mut Vec<Vec<u8>>,
) -> Result<(), AllocError>
    requires { IsTrain design.now.station train }
    ensures { OnOk result (AddsLines lines.old lines.new (train_lines design.now.station train)) }
{
    let line = train_line(alloc, design, train)?;
    lines.push(line)?;
    let visits = design.train(train).visits.len() as u32;
    for visit in 1..visits + 1 {
        let line = visit_line(alloc, design, train, visit)?;
        lines.push(line)?;
    }
    Ok(())
}

/// Appends all trains.
fn push_trains(alloc: Global, design: &Design, lines: &mut Vec<Vec<u8>>) -> Result<(), AllocError>
    ensures { OnOk result (AddsLines lines.old lines.new (flat_map (train_lines design.now.station) (trains design.now.station))) }
{
    let trains = design.station.trains.len() as u32;
    for number in 1..trains + 1 {
        push_train(alloc, design, TrainNo(number), lines)?;
    }
    Ok(())
}

/// Appends all orders.
fn push_orders(alloc: Global, design: &Design, lines: &mut Vec<Vec<u8>>) -> Result<(), AllocError>
    ensures { let d = design.now.station in
        OnOk result (AddsLines lines.old lines.new (map (order_line d) (one_to (length d.orders)))) }
{
    let orders = design.station.orders.len() as u32;
    for number in 1..orders + 1 {
        let line = order_line(alloc, design, number)?;
        lines.push(line)?;
    }
    Ok(())
}

/// Appends all withins.
fn push_withins(alloc: Global, design: &Design, lines: &mut Vec<Vec<u8>>) -> Result<(), AllocError>
    ensures { let d = design.now.station in
        OnOk result (AddsLines lines.old lines.new (map (within_line d) (one_to (length d.withins)))) }
{
    let withins = design.station.withins.len() as u32;
    for number in 1..withins + 1 {
        let line = within_line(alloc, design, number)?;
        lines.push(line)?;
    }
    Ok(())
}

/// Appends how many there are of something.
fn put_count(text: &mut Vec<u8>, count: u64, word: &[u8]) -> Result<(), AllocError>
    ensures { OnOk result (AddsText text.old text.new (count_text count word.now)) }
{
    put_number(text, count)?;
    text.extend_from_slice(word)?;
    Ok(())
}

/// Appends how much track there is.
fn put_track_counts(text: &mut Vec<u8>, design: &Design) -> Result<(), AllocError>
    ensures { OnOk result (AddsText text.old text.new (track_counts design.now.station)) }
{
    let station = &design.station;
    put_count(text, station.nodes.len() as u64, b" nodes, ")?;
    put_count(text, station.edges.len() as u64, b" edges, ")?;
    put_count(text, station.sections.len() as u64, b" sections, ")?;
    put_count(text, station.signals.len() as u64, b" signals, ")?;
    Ok(())
}

/// Appends how much traffic there is.
fn put_traffic_counts(text: &mut Vec<u8>, design: &Design) -> Result<(), AllocError>
    ensures { OnOk result (AddsText text.old text.new (traffic_counts design.now.station)) }
{
    let station = &design.station;
    put_count(text, station.vehicles.len() as u64, b" vehicles, ")?;
    put_count(text, station.trains.len() as u64, b" trains, ")?;
    put_count(text, station.orders.len() as u64, b" orders, ")?;
    put_count(text, station.withins.len() as u64, b" withins, ")?;
    Ok(())
}

/// How much of everything there is.
fn counts_line(alloc: Global, design: &Design, routes: u64) -> Result<Vec<u8>, AllocError>
    ensures { IfOk result (λ line. line.items ≡ counts_line design.now.station routes) }
{
    let mut line = Vec::new(alloc);
    put_track_counts(&mut line, design)?;
    put_traffic_counts(&mut line, design)?;
    put_count(&mut line, routes, b" routes\n")?;
    Ok(line)
}

/// Appends what a design with so many routes asks for: its trains with their vehicles and visits, and how long they
/// stand there, its orders and its greatest times, and how much of everything there is. An error leaves a part of the
/// lines.
pub fn push_asked(
    alloc: Global,
    design: &Design,
    routes: u64,
    lines: &mut Vec<Vec<u8>>,
) -> Result<(), AllocError>
    ensures { OnOk result (AddsLines lines.old lines.new (asked_lines design.now.station routes)) }
{
    push_trains(alloc, design, lines)?;
    push_orders(alloc, design, lines)?;
    push_withins(alloc, design, lines)?;
    let line = counts_line(alloc, design, routes)?;
    lines.push(line)?;
    Ok(())
}
