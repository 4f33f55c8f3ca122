//! What happened to each train, line by line.

ghost use Rattle.std.specs.Prelude.{◌≡◌, ◌++◌, OnOk};
ghost use Rattle.timetable.specs.Lines.{lines_of};
ghost use Rattle.timetable.specs.Timetable.{grant_lines, pass_lines, visit_lines, dwell_lines, history_lines};
ghost use Rattle.rail_text.specs.Added.{AddsLines};
ghost use Rattle.timetable.specs.Parts.{numbered_lines};

use crate::events::{dwell_line, grant_line, pass_line, train_line, visit_line};
use rail_base::design::Design;
use rail_base::history::TrainHistory;
use rail_base::route::RouteNo;
use rail_base::station::NodeNo;
use std::alloc::{AllocError, Global};

/// Appends the lines of all trains.
pub fn push_history(
    alloc: Global,
    design: &Design,
    history: &[TrainHistory],
    lines: &mut Vec<Vec<u8>>,
) -> Result<(), AllocError>
    ensures { OnOk result (AddsLines lines.old lines.new (history_lines design.now.station history.now)) }
{
    for (index, train) in history.iter().enumerate() {
        push_train(alloc, design, index + 1, train, lines)?;
    }
    Ok(())
}

/// Appends the grants that have come.
fn push_grants(
    alloc: Global,
    grants: &[(RouteNo, Option<u64>)],
    lines: &mut Vec<Vec<u8>>,
) -> Result<(), AllocError>
    ensures { OnOk result (lines_of lines.new.items ≡ lines_of lines.old.items ++ grant_lines grants.now) }
{
    for (index, (route, tick)) in grants.iter().enumerate() {
        if let Some(tick) = tick {
            lines.push(grant_line(alloc, index as u64 + 1, *route, *tick)?)?;
        }
    }
    Ok(())
}

/// Appends the nodes that were passed.
fn push_passes(
    alloc: Global,
    design: &Design,
    passes: &[(NodeNo, Option<u64>)],
    lines: &mut Vec<Vec<u8>>,
) -> Result<(), AllocError>
    ensures { OnOk result (AddsLines lines.old lines.new (pass_lines design.now.station passes.now)) }
{
    for (node, tick) in passes {
        if let Some(tick) = tick {
            lines.push(pass_line(alloc, design, *node, *tick)?)?;
        }
    }
    Ok(())
}

/// Appends the visits that were made.
fn push_visits(
    alloc: Global,
    design: &Design,
    visits: &[Option<(NodeNo, u64)>],
    lines: &mut Vec<Vec<u8>>,
) -> Result<(), AllocError>
    ensures { OnOk result (AddsLines lines.old lines.new (visit_lines design.now.station visits.now)) }
{
    for (index, visit) in visits.iter().enumerate() {
        if let Some((node, tick)) = visit {
            lines.push(visit_line(alloc, design, index as u64 + 1, *node, *tick)?)?;
        }
    }
    Ok(())
}

/// Appends the stands that are done.
fn push_dwells(
    alloc: Global,
    design: &Design,
    visits: &[Option<(NodeNo, u64)>],
    dwells: &[Option<u64>],
    lines: &mut Vec<Vec<u8>>,
) -> Result<(), AllocError>
    ensures { OnOk result (AddsLines lines.old lines.new
        (dwell_lines design.now.station visits.now dwells.now)) }
{
    for (index, (visit, dwell)) in visits.iter().zip(dwells).enumerate() {
        if let Some((node, _)) = visit {
            if let Some(tick) = dwell {
                lines.push(dwell_line(alloc, design, index as u64 + 1, *node, *tick)?)?;
            }
        }
    }
    Ok(())
}

/// Appends the lines of the train of a number.
fn push_train(
    alloc: Global,
    design: &Design,
    number: usize,
    train: &TrainHistory,
    lines: &mut Vec<Vec<u8>>,
) -> Result<(), AllocError>
    ensures { OnOk result (AddsLines lines.old lines.new (numbered_lines design.now.station number train.now)) }
{
    lines.push(train_line(alloc, design, number)?)?;
    push_grants(alloc, train.grants.as_slice(), lines)?;
    push_passes(alloc, design, train.passes.as_slice(), lines)?;
    push_visits(alloc, design, train.visits.as_slice(), lines)?;
    push_dwells(
        alloc,
        design,
        train.visits.as_slice(),
        train.dwells.as_slice(),
        lines,
    )
}
