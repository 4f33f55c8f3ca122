//! The line about a command whose train or route is not there.

ghost use Rattle.std.specs.Prelude.{◌≡◌, option_map, IfOk, OnOk};
ghost use Rattle.rail_text.specs.Added.{AddsLines};
ghost use Rattle.plan_reason_words.specs.Unknown.{route_line, train_line, unknown_line, unknown_lines};

use crate::names::is_name;
use interlocking::Interlocking;
use plan_values::train_named;
use rail_text::put_number;
use std::alloc::{AllocError, Global};

/// That there is no train of a name.
fn train_line(alloc: Global, name: &str) -> Result<Vec<u8>, AllocError>
    ensures { IfOk result (λ line. line.items ≡ train_line name.now) }
{
    let mut line = Vec::new(alloc);
    if !is_name(name) {
        line.extend_from_slice(b"there is no train of this name\n")?;
        return Ok(line);
    }
    line.extend_from_slice(b"there is no train ")?;
    line.extend_from_slice(name.as_bytes())?;
    line.push(b'\n')?;
    Ok(line)
}

/// That there is no route of a number.
fn route_line(alloc: Global, many: usize, number: u64) -> Result<Vec<u8>, AllocError>
    ensures { IfOk result (λ line. line.items ≡ route_line many number) }
{
    let mut line = Vec::new(alloc);
    line.extend_from_slice(b"there is no route ")?;
    put_number(&mut line, number)?;
    line.extend_from_slice(b": this design has ")?;
    put_number(&mut line, many as u64)?;
    line.extend_from_slice(b" routes, numbered from 1\n")?;
    Ok(line)
}

/// What of a command is not there.
fn unknown_line(
    alloc: Global,
    interlocking: &Interlocking,
    train: &str,
    route: u64,
) -> Result<Vec<u8>, AllocError>
    ensures { let i = interlocking.now in
        IfOk result (λ line. line.items ≡ unknown_line i.design.station i.routes (train.now, route)) }
{
    if train_named(&interlocking.design, train.as_bytes()).is_none() {
        train_line(alloc, train)
    } else {
        route_line(alloc, interlocking.routes.len(), route)
    }
}

/// Appends what of a command is not there, where there is a command.
pub fn push_unknown(
    alloc: Global,
    interlocking: &Interlocking,
    written: Option<(&str, u64)>,
    lines: &mut Vec<Vec<u8>>,
) -> Result<(), AllocError>
    ensures { let i = interlocking.now in OnOk result (AddsLines lines.old lines.new
        (unknown_lines i.design.station i.routes (option_map (λ p. (p.0.now, p.1)) written.entry))) }
{
    let Some((train, route)) = written else {
        return Ok(());
    };
    let line = unknown_line(alloc, interlocking, train, route)?;
    lines.push(line)?;
    Ok(())
}
