//! Waits in words, and with them the stands. An error is want of memory; then a part of what is appended may stand
//! there.

ghost use Rattle.std.specs.Prelude.{◌≡◌, IfOk, OnOk};
ghost use Rattle.std.specs.List.{flat_map};
ghost use Rattle.rail_base.specs.Routes.{route_at};
ghost use Rattle.rail_base.specs.Stations.{trains};
ghost use Rattle.rail_text.specs.Added.{AddsLines, AddsText};
ghost use Rattle.interlocking.specs.Plans.{on};
ghost use Rattle.outcome_words.specs.Waits.{end_text, overlap_text, release_text, start_text, wait_text};
ghost use Rattle.outcome_words.specs.Waits.{waits_in};
ghost use Rattle.outcome_words.specs.Stands.{lines_in, train_lines};
ghost use Rattle.outcome_words.specs.Runs.{of_shown};

use crate::run::ShownRun;
use crate::stands::push_stands;
use crate::visits::put_time;
use crate::waits::{Wait, wait_of};
use cone_words::finish_name;
use interlocking::Interlocking;
use rail_base::design::Design;
use rail_base::history::TrainHistory;
use rail_base::names::{entry, node_name, section_name, signal_name, train_name};
use rail_base::plan::Command;
use rail_base::route::{Route, RouteNo, Start};
use rail_base::station::{SectionNo, TrainNo};
use std::alloc::{AllocError, Global};

/// Appends where a route starts.
fn put_start(text: &mut Vec<u8>, design: &Design, start: Start) -> Result<(), AllocError>
    ensures { OnOk result (AddsText text.old text.new (start_text design.now.station start)) }
{
    match start {
        Start::Boundary(node) => {
            text.extend_from_slice(b"outside ")?;
            text.extend_from_slice(node_name(design, node))
        }
        Start::Signal(signal) => {
            text.extend_from_slice(b"at ")?;
            text.extend_from_slice(signal_name(design, signal))
        }
    }
}

/// Appends that a wait or a stand goes on to the end, where it is not done before.
pub(crate) fn put_end(text: &mut Vec<u8>, is_done: bool) -> Result<(), AllocError>
    ensures { OnOk result (AddsText text.old text.new (end_text is_done)) }
{
    if is_done {
        return Ok(());
    }
    text.extend_from_slice(b", to the end")
}

/// Appends that a section is of the overlap at a route's end, and where that is; nothing of any other section.
fn put_overlap(
    text: &mut Vec<u8>,
    design: &Design,
    route: &Route,
    section: SectionNo,
) -> Result<(), AllocError>
    ensures { OnOk result (AddsText text.old text.new (overlap_text design.now.station route.now section)) }
{
    if !route.overlaps(section) {
        return Ok(());
    }
    text.extend_from_slice(b" of its overlap at ")?;
    text.extend_from_slice(finish_name(design, route.finish))?;
    Ok(())
}

/// The same of the route of a number.
fn put_overlap_at(
    text: &mut Vec<u8>,
    interlocking: &Interlocking,
    route: RouteNo,
    section: SectionNo,
) -> Result<(), AllocError>
    ensures { let i = interlocking.now in OnOk result (AddsText text.old text.new
        (overlap_text i.design.station (route_at i.routes route) section)) }
{
    match entry(interlocking.routes.as_slice(), route.0 as usize) {
        Some(route) => put_overlap(text, &interlocking.design, route, section),
        None => Ok(()),
    }
}

/// Appends which command is to release which section.
fn put_releasing(
    text: &mut Vec<u8>,
    interlocking: &Interlocking,
    command: Command,
    section: SectionNo,
) -> Result<(), AllocError>
    ensures { OnOk result (AddsText text.old text.new
        (on interlocking.now release_text (Some (command, section)))) }
{
    let design = &interlocking.design;
    text.extend_from_slice(b", for ")?;
    text.extend_from_slice(train_name(design, command.train))?;
    text.extend_from_slice(b" to release ")?;
    text.extend_from_slice(section_name(design, section))?;
    put_overlap_at(text, interlocking, command.route, section)?;
    Ok(())
}

/// Appends what is waited for, if there is something.
fn put_release(
    text: &mut Vec<u8>,
    interlocking: &Interlocking,
    release: Option<(Command, SectionNo)>,
) -> Result<(), AllocError>
    ensures { OnOk result (AddsText text.old text.new (on interlocking.now release_text release)) }
{
    match release {
        None => Ok(()),
        Some((command, section)) => put_releasing(text, interlocking, command, section),
    }
}

/// That a train waits.
fn wait_text(
    alloc: Global,
    interlocking: &Interlocking,
    train: TrainNo,
    wait: Wait,
) -> Result<Vec<u8>, AllocError>
    ensures { IfOk result (λ line. line.items ≡ on interlocking.now wait_text train wait) }
{
    let design = &interlocking.design;
    let mut line = Vec::from_slice(alloc, train_name(design, train))?;
    line.extend_from_slice(b" waits ")?;
    put_start(&mut line, design, wait.start)?;
    line.extend_from_slice(b" from ")?;
    put_time(&mut line, design, wait.from)?;
    line.extend_from_slice(b" for ")?;
    put_time(&mut line, design, wait.until.saturating_sub(wait.from))?;
    put_end(&mut line, wait.granted)?;
    put_release(&mut line, interlocking, wait.release)?;
    line.push(b'\n')?;
    Ok(line)
}

/// Appends the waits of a train of which this has happened.
fn push_waits(
    alloc: Global,
    run: &ShownRun,
    train: TrainNo,
    history: &TrainHistory,
    lines: &mut Vec<Vec<u8>>,
) -> Result<(), AllocError>
    ensures { OnOk result (AddsLines lines.old lines.new (of_shown run.now waits_in train history.now)) }
{
    for (index, grant) in history.grants.as_slice().iter().enumerate() {
        if let Some(wait) = wait_of(run, train, history, index, *grant) {
            let line = wait_text(alloc, run.interlocking, train, wait)?;
            lines.push(line)?;
        }
    }
    Ok(())
}

/// Appends the waits and the stands of a train of which this has happened.
fn push_lines(
    alloc: Global,
    run: &ShownRun,
    train: TrainNo,
    history: &TrainHistory,
    lines: &mut Vec<Vec<u8>>,
) -> Result<(), AllocError>
    ensures { OnOk result (AddsLines lines.old lines.new (of_shown run.now lines_in train history.now)) }
{
    let design = &run.interlocking.design;
    push_waits(alloc, run, train, history, lines)?;
    push_stands(alloc, design, run.last, train, history, lines)?;
    Ok(())
}

/// Appends the waits and the stands of a train.
fn push_train(
    alloc: Global,
    run: &ShownRun,
    train: TrainNo,
    lines: &mut Vec<Vec<u8>>,
) -> Result<(), AllocError>
    ensures { OnOk result (AddsLines lines.old lines.new (of_shown run.now train_lines train)) }
{
    match entry(run.history, train.0 as usize) {
        Some(history) => push_lines(alloc, run, train, history, lines),
        None => Ok(()),
    }
}

/// Appends the waits and the stands of all trains.
pub(crate) fn push_trains(
    alloc: Global,
    run: &ShownRun,
    lines: &mut Vec<Vec<u8>>,
) -> Result<(), AllocError>
    ensures { OnOk result (AddsLines lines.old lines.new
        (flat_map (of_shown run.now train_lines) (trains run.now.interlocking.now.design.station))) }
{
    let trains = run.interlocking.design.station.trains.len() as u32;
    for number in 1..trains + 1 {
        push_train(alloc, run, TrainNo(number), lines)?;
    }
    Ok(())
}
