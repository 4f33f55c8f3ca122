//! The lines on how quick trains can be.

ghost use Rattle.std.specs.Prelude.{◌≡◌, All, IfOk, OnOk};
ghost use Rattle.rail_text.specs.Added.{AddsLines};
ghost use Rattle.interlocking.specs.Plans.{on};
ghost use Rattle.way_words.specs.Ways.{AddsSuch};
ghost use Rattle.time_words.specs.Times.{AreLeastLines, AreLinesOn, is_of_one_train, least_line, least_lines};
ghost use Rattle.time_words.specs.Times.{own_withins};
ghost use Rattle.time_words.specs.Numbers.{IsWithin};

use asked_words::put_duration;
use cone_words::{ms_of, within_of};
use interlocking::Interlocking;
use rail_base::design::Design;
use rail_base::names::train_name;
use rail_base::station::Within;
use rail_text::put_number;
use std::alloc::{AllocError, Global};
use train_ways::OnwardRoutes;
use way_times::least_alone;

/// Of how many greatest times of one train it is said.
const MOST_LINES: usize = 16;

/// Whether a greatest time is between two visits of one train.
fn is_of_one_train(within: Within) -> bool
    ensures { result ≡ is_of_one_train within }
{
    within.from_train.0 == within.to_train.0
}

/// The numbers of the greatest times of one train.
fn own_withins(alloc: Global, design: &Design) -> Result<Vec<u32>, AllocError>
    ensures { IfOk result (λ numbers. numbers.items ≡ own_withins design.now.station) }
{
    let mut numbers = Vec::new(alloc);
    for number in 1..design.station.withins.len() as u32 + 1 {
        if is_of_one_train(within_of(design, number)) {
            numbers.push(number)?;
        }
    }
    Ok(numbers)
}

/// How quick a train is from the one visit of a greatest time to the other, in ticks.
fn least_line(
    alloc: Global,
    design: &Design,
    number: u32,
    ticks: u64,
) -> Result<Vec<u8>, AllocError>
    ensures { IfOk result (λ line. line.items ≡ least_line design.now.station number ticks) }
{
    let within = within_of(design, number);
    let mut line = Vec::new(alloc);
    line.extend_from_slice(b"within ")?;
    put_number(&mut line, u64::from(number))?;
    line.extend_from_slice(b": ")?;
    line.extend_from_slice(train_name(design, within.from_train))?;
    line.extend_from_slice(b" takes ")?;
    put_duration(&mut line, ms_of(design, ticks))?;
    line.extend_from_slice(b" of at most ")?;
    put_duration(&mut line, u64::from(within.max_ms))?;
    line.extend_from_slice(b" where it runs alone on its quickest way\n")?;
    Ok(line)
}

/// Appends that line, where the ticks are known.
fn push_least(
    alloc: Global,
    design: &Design,
    number: u32,
    ticks: Option<u64>,
    lines: &mut Vec<Vec<u8>>,
) -> Result<(), AllocError>
    ensures { OnOk result (AddsLines lines.old lines.new (least_lines design.now.station number ticks)) }
{
    if let Some(ticks) = ticks {
        let line = least_line(alloc, design, number, ticks)?;
        lines.push(line)?;
    }
    Ok(())
}

/// Appends how quick the trains of these greatest times are.
fn push_least_of(
    alloc: Global,
    onward: &OnwardRoutes<'_>,
    numbers: &[u32],
    lines: &mut Vec<Vec<u8>>,
) -> Result<(), AllocError>
    requires { All (IsWithin onward.now.interlocking.now.design.station) numbers.now }
    ensures { OnOk result (AddsSuch lines.old lines.new
        (on onward.now.interlocking.now AreLinesOn numbers.now)) }
{
    let design = &onward.interlocking.design;
    for number in numbers {
        let within = within_of(design, *number);
        let ticks = least_alone(
            alloc,
            onward,
            within.from_train,
            within.from_visit,
            within.to_visit,
        )?;
        push_least(alloc, design, *number, ticks, lines)?;
    }
    Ok(())
}

/// Appends how quick the trains are alone, for each of the first 16 greatest times between two visits of one train.
/// Nothing is said where a train has many ways, or makes the visits on none.
pub fn push_least_times(
    alloc: Global,
    interlocking: &Interlocking,
    lines: &mut Vec<Vec<u8>>,
) -> Result<(), AllocError>
    ensures { OnOk result (AddsSuch lines.old lines.new (on interlocking.now AreLeastLines)) }
{
    let onward = OnwardRoutes::of(alloc, interlocking)?;
    let numbers = own_withins(alloc, &interlocking.design)?;
    let count = numbers.len().min(MOST_LINES);
    push_least_of(alloc, &onward, &numbers[..count], lines)?;
    Ok(())
}
