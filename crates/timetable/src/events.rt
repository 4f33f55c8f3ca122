//! The lines of what happened to a train.

ghost use Rattle.std.specs.Prelude.{◌≡◌, ◌*◌, ◌++◌, decimal, IfOk, OnOk};
ghost use Rattle.timetable.specs.Lines.{at_tick, train_line, grant_line, pass_line, visit_line, dwell_line};

use rail_base::design::Design;
use rail_base::names::{name_of_train, node_name};
use rail_base::route::RouteNo;
use rail_base::station::NodeNo;
use rail_text::put_number;
use std::alloc::{AllocError, Global};

/// Appends a tick.
pub fn put_tick(line: &mut Vec<u8>, tick: u64) -> Result<(), AllocError>
    ensures { OnOk result (line.new.items ≡ line.old.items ++ at_tick tick) }
{
    line.extend_from_slice(b" tick ")?;
    put_number(line, tick)
}

/// `train <name>`, of the train of a number.
pub fn train_line(alloc: Global, design: &Design, number: usize) -> Result<Vec<u8>, AllocError>
    ensures { IfOk result (λ line. line.items ≡ train_line design.now.station (record { 0 = number })) }
{
    let mut line = Vec::from_slice(alloc, b"train ")?;
    line.extend_from_slice(name_of_train(&design.station, number))?;
    line.push(b'\n')?;
    Ok(line)
}

/// `grant <j> route <r> tick <k>`
pub fn grant_line(
    alloc: Global,
    number: u64,
    route: RouteNo,
    tick: u64,
) -> Result<Vec<u8>, AllocError>
    ensures { IfOk result (λ line. line.items ≡ grant_line number route tick) }
{
    let mut line = Vec::from_slice(alloc, b"grant ")?;
    put_number(&mut line, number)?;
    line.extend_from_slice(b" route ")?;
    put_number(&mut line, u64::from(route.0))?;
    put_tick(&mut line, tick)?;
    line.push(b'\n')?;
    Ok(line)
}

/// `pass <node> tick <k>`
pub fn pass_line(
    alloc: Global,
    design: &Design,
    node: NodeNo,
    tick: u64,
) -> Result<Vec<u8>, AllocError>
    ensures { IfOk result (λ line. line.items ≡ pass_line design.now.station node tick) }
{
    let mut line = Vec::from_slice(alloc, b"pass ")?;
    line.extend_from_slice(node_name(design, node))?;
    put_tick(&mut line, tick)?;
    line.push(b'\n')?;
    Ok(line)
}

/// `visit <j> <node> tick <k> ms <time>`
pub fn visit_line(
    alloc: Global,
    design: &Design,
    number: u64,
    node: NodeNo,
    tick: u64,
) -> Result<Vec<u8>, AllocError>
    ensures { IfOk result (λ line. line.items ≡ visit_line design.now.station number node tick) }
{
    let mut line = Vec::from_slice(alloc, b"visit ")?;
    put_number(&mut line, number)?;
    line.push(b' ')?;
    line.extend_from_slice(node_name(design, node))?;
    put_tick(&mut line, tick)?;
    line.extend_from_slice(b" ms ")?;
    put_time(&mut line, tick, design.station.tick_ms)?;
    line.push(b'\n')?;
    Ok(line)
}

/// `dwell <j> <node> tick <k>`
pub fn dwell_line(
    alloc: Global,
    design: &Design,
    number: u64,
    node: NodeNo,
    tick: u64,
) -> Result<Vec<u8>, AllocError>
    ensures { IfOk result (λ line. line.items ≡ dwell_line design.now.station number node tick) }
{
    let mut line = Vec::from_slice(alloc, b"dwell ")?;
    put_number(&mut line, number)?;
    line.push(b' ')?;
    line.extend_from_slice(node_name(design, node))?;
    put_tick(&mut line, tick)?;
    line.push(b'\n')?;
    Ok(line)
}

/// Appends the time of a tick, in ms.
fn put_time(line: &mut Vec<u8>, tick: u64, tick_ms: u32) -> Result<(), AllocError>
    ensures { OnOk result (line.new.items ≡ line.old.items ++ decimal (tick * tick_ms)) }
{
    let mut buffer = itoa::Buffer::new();
    let time = u128::from(tick) * u128::from(tick_ms);
    line.extend_from_slice(buffer.format(time).as_bytes())
}
