//! The lines on the ways of trains.

ghost use Rattle.std.specs.Prelude.{◌≡◌, IfOk, OnOk};
ghost use Rattle.rail_base.specs.Stations.{IsTrain};
ghost use Rattle.rail_text.specs.Added.{AddsLines, AddsText};
ghost use Rattle.interlocking.specs.Plans.{on};
ghost use Rattle.way_words.specs.Ways.{AddsSuch, AreNoWayLines, AreWayLines, fewest_line, most_line, no_way_line};
ghost use Rattle.way_words.specs.Ways.{no_way_lines, steps_lines, up_to_text};

use cone_words::put_nodes;
use interlocking::Interlocking;
use rail_base::design::Design;
use rail_base::names::train_name;
use rail_base::station::TrainNo;
use rail_text::put_number;
use std::alloc::{AllocError, Global};
use train_ways::OnwardRoutes;

/// Appends which visits of a train.
fn put_up_to(
    text: &mut Vec<u8>,
    design: &Design,
    train: TrainNo,
    visit: u32,
) -> Result<(), AllocError>
    ensures { OnOk result (AddsText text.old text.new (up_to_text design.now.station train visit)) }
{
    text.extend_from_slice(train_name(design, train))?;
    text.extend_from_slice(b" up to visit ")?;
    put_number(text, u64::from(visit))?;
    put_nodes(text, design, train, visit)?;
    Ok(())
}

/// That no way makes the visits of a train up to this one.
fn no_way_line(
    alloc: Global,
    design: &Design,
    train: TrainNo,
    visit: u32,
) -> Result<Vec<u8>, AllocError>
    ensures { IfOk result (λ line. line.items ≡ no_way_line design.now.station train visit) }
{
    let mut line = Vec::new(alloc);
    line.extend_from_slice(b"no way makes the visits of ")?;
    put_up_to(&mut line, design, train, visit)?;
    line.extend_from_slice(b": no plan meets the design\n")?;
    Ok(line)
}

/// Appends that, where there is such a visit.
fn push_no_way(
    alloc: Global,
    design: &Design,
    train: TrainNo,
    visit: Option<u32>,
    lines: &mut Vec<Vec<u8>>,
) -> Result<(), AllocError>
    ensures { OnOk result (AddsLines lines.old lines.new (no_way_lines design.now.station train visit)) }
{
    if let Some(visit) = visit {
        let line = no_way_line(alloc, design, train, visit)?;
        lines.push(line)?;
    }
    Ok(())
}

/// Appends the trains that have no way.
fn push_no_ways(
    alloc: Global,
    ways: &OnwardRoutes<'_>,
    lines: &mut Vec<Vec<u8>>,
) -> Result<(), AllocError>
    ensures { OnOk result (AddsSuch lines.old lines.new (on ways.now.interlocking.now AreNoWayLines)) }
{
    let design = &ways.interlocking.design;
    let trains = design.station.trains.len() as u32;
    for number in 1..trains + 1 {
        let train = TrainNo(number);
        let visit = ways.first_unmade(alloc, train)?;
        push_no_way(alloc, design, train, visit, lines)?;
    }
    Ok(())
}

/// How many steps a plan has at the least.
fn fewest_line(alloc: Global, fewest: u32) -> Result<Vec<u8>, AllocError>
    ensures { IfOk result (λ line. line.items ≡ fewest_line fewest) }
{
    let mut line = Vec::new(alloc);
    line.extend_from_slice(b"a plan that meets the design has ")?;
    put_number(&mut line, u64::from(fewest))?;
    line.extend_from_slice(b" steps or more\n")?;
    Ok(line)
}

/// How many steps are enough.
fn most_line(alloc: Global, most: u64) -> Result<Vec<u8>, AllocError>
    ensures { IfOk result (λ line. line.items ≡ most_line most) }
{
    let mut line = Vec::new(alloc);
    line.extend_from_slice(b"if any plan meets the design, one of at most ")?;
    put_number(&mut line, most)?;
    line.extend_from_slice(b" steps does\n")?;
    Ok(line)
}

/// Appends how many steps a plan has, where all trains have ways.
fn push_steps(
    alloc: Global,
    fewest: Option<u32>,
    most: u64,
    lines: &mut Vec<Vec<u8>>,
) -> Result<(), AllocError>
    ensures { OnOk result (AddsLines lines.old lines.new (steps_lines fewest most)) }
{
    if let Some(fewest) = fewest {
        let line = fewest_line(alloc, fewest)?;
        lines.push(line)?;
        let line = most_line(alloc, most)?;
        lines.push(line)?;
    }
    Ok(())
}

/// Appends which trains have no way, with the first visit that none makes, or how many steps plans have at the least,
/// and need at the most. An error leaves a part of the lines.
pub fn push_ways(
    alloc: Global,
    interlocking: &Interlocking,
    lines: &mut Vec<Vec<u8>>,
) -> Result<(), AllocError>
    ensures { OnOk result (AddsSuch lines.old lines.new (on interlocking.now AreWayLines)) }
{
    let ways = OnwardRoutes::of(alloc, interlocking)?;
    let fewest = ways.fewest_steps(alloc)?;
    let most = ways.most_steps(alloc)?;
    push_no_ways(alloc, &ways, lines)?;
    push_steps(alloc, fewest, most, lines)?;
    Ok(())
}
