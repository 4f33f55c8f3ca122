//! The lines that are printed of searches and of a trial, each with its LF. An error is want of memory.

ghost use Rattle.std.specs.Prelude.{◌≡◌, ◌++◌, length, decimal, IfOk, OnOk};
ghost use Rattle.rail_cli.specs.Texts.{plan_steps_line, infeasible_line, conflicts_spent_line, ticks_spent_line};
ghost use Rattle.rail_cli.specs.Texts.{log_spent_line, tightest_line, trial_line, counts_line, plan_tick_line};

use cli_shell::counted_line;
use interlocking::Interlocking;
use rail_base::plan::Plan;
use rail_text::put_number;
use std::alloc::{AllocError, Global};

/// `plan steps <number of steps>`
pub(crate) fn plan_steps_line(alloc: Global, plan: &Plan) -> Result<Vec<u8>, AllocError>
    ensures { IfOk result (λ line. line.items ≡ plan_steps_line (length plan.now.steps)) }
{
    counted_line(alloc, b"plan steps ", plan.steps.len() as u64)
}

/// `infeasible steps <n>`
pub(crate) fn infeasible_line(alloc: Global, steps: u32) -> Result<Vec<u8>, AllocError>
    ensures { IfOk result (λ line. line.items ≡ infeasible_line steps) }
{
    counted_line(alloc, b"infeasible steps ", u64::from(steps))
}

/// `conflicts spent <number>`
pub(crate) fn conflicts_spent_line(alloc: Global, conflicts: u64) -> Result<Vec<u8>, AllocError>
    ensures { IfOk result (λ line. line.items ≡ conflicts_spent_line conflicts) }
{
    counted_line(alloc, b"conflicts spent ", conflicts)
}

/// `ticks spent <sum> of <ticks>`
pub(crate) fn ticks_spent_line(alloc: Global, sum: u64, ticks: u64) -> Result<Vec<u8>, AllocError>
    ensures { IfOk result (λ line. line.items ≡ ticks_spent_line sum ticks) }
{
    let mut line = Vec::from_slice(alloc, b"ticks spent ")?;
    put_number(&mut line, sum)?;
    line.extend_from_slice(b" of ")?;
    put_number(&mut line, ticks)?;
    line.push(b'\n')?;
    Ok(line)
}

/// `log spent <bytes> next <bytes>`
pub(crate) fn log_spent_line(alloc: Global, bytes: u64, next: u64) -> Result<Vec<u8>, AllocError>
    ensures { IfOk result (λ line. line.items ≡ log_spent_line bytes next) }
{
    let mut line = Vec::from_slice(alloc, b"log spent ")?;
    put_number(&mut line, bytes)?;
    line.extend_from_slice(b" next ")?;
    put_number(&mut line, next)?;
    line.push(b'\n')?;
    Ok(line)
}

/// `tightest within <w> ms <ms>`
pub(crate) fn tightest_line(alloc: Global, within: u32, ms: u64) -> Result<Vec<u8>, AllocError>
    ensures { IfOk result (λ line. line.items ≡ tightest_line within ms) }
{
    let mut line = Vec::new(alloc);
    put_counted(&mut line, b"tightest within ", u64::from(within))?;
    put_counted(&mut line, b" ms ", ms)?;
    line.push(b'\n')?;
    Ok(line)
}

/// `trial seed <seed> size <size>`
pub(crate) fn trial_line(alloc: Global, seed: u64, size: u32) -> Result<Vec<u8>, AllocError>
    ensures { IfOk result (λ line. line.items ≡ trial_line seed size) }
{
    let mut line = Vec::new(alloc);
    put_counted(&mut line, b"trial seed ", seed)?;
    put_counted(&mut line, b" size ", u64::from(size))?;
    line.push(b'\n')?;
    Ok(line)
}

/// `nodes <n> edges <e> signals <g> trains <t> routes <r>`
pub(crate) fn counts_line(alloc: Global, interlocking: &Interlocking) -> Result<Vec<u8>, AllocError>
    ensures { IfOk result (λ line. line.items ≡ counts_line interlocking.now.design.station) }
{
    let mut line = Vec::new(alloc);
    put_counted(
        &mut line,
        b"nodes ",
        interlocking.design.station.nodes.len() as u64,
    )?;
    put_counted(
        &mut line,
        b" edges ",
        interlocking.design.station.edges.len() as u64,
    )?;
    put_counted(
        &mut line,
        b" signals ",
        interlocking.design.station.signals.len() as u64,
    )?;
    put_counted(
        &mut line,
        b" trains ",
        interlocking.design.station.trains.len() as u64,
    )?;
    put_counted(&mut line, b" routes ", interlocking.routes.len() as u64)?;
    line.push(b'\n')?;
    Ok(line)
}

/// `plan steps <number of steps> tick <k>`
pub(crate) fn plan_tick_line(alloc: Global, plan: &Plan, tick: u64) -> Result<Vec<u8>, AllocError>
    ensures { IfOk result (λ line. line.items ≡ plan_tick_line (length plan.now.steps) tick) }
{
    let mut line = Vec::new(alloc);
    put_counted(&mut line, b"plan steps ", plan.steps.len() as u64)?;
    put_counted(&mut line, b" tick ", tick)?;
    line.push(b'\n')?;
    Ok(line)
}

/// Appends words and a number.
fn put_counted(line: &mut Vec<u8>, words: &[u8], number: u64) -> Result<(), AllocError>
    ensures { OnOk result (line.new.items ≡ line.old.items ++ words.now ++ decimal number) }
{
    line.extend_from_slice(words)?;
    put_number(line, number)
}
