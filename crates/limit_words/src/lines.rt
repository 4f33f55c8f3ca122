//! The lines on how many steps can be asked for.

ghost use Rattle.std.specs.Prelude.{◌≡◌, ◌≤◌, IfOk, OnOk};
ghost use Rattle.interlocking.specs.Plans.{on};
ghost use Rattle.rail_text.specs.Added.{AddsLines, AddsText};
ghost use Rattle.rail_outside.specs.Lines.{lines_of};
ghost use Rattle.limit_words.specs.Lines.{AreLimitLines, excess_text, fits_line, kind_text, known_text, limit_line};
ghost use Rattle.limit_words.specs.Lines.{limits_said, unknown_text};

use crate::greatest::{Limit, limit_for};
use clause_spec::{BaseKind, Turns};
use interlocking::Interlocking;
use rail_text::put_number;
use std::alloc::{AllocError, Global};

/// Appends how a search is asked for.
fn put_kind(text: &mut Vec<u8>, kind: BaseKind) -> Result<(), AllocError>
    ensures { OnOk result (AddsText text.old text.new (kind_text kind)) }
{
    match kind {
        BaseKind::Plain => text.extend_from_slice(b"without --bounds"),
        BaseKind::Sorted | BaseKind::Live(_) => text.extend_from_slice(b"with --bounds"),
        BaseKind::Normal => text.extend_from_slice(b"with --normal"),
    }
}

/// Appends how many literals the clauses for so many steps have.
fn put_known(text: &mut Vec<u8>, steps: u32, literals: u64) -> Result<(), AllocError>
    ensures { OnOk result (AddsText text.old text.new (known_text steps literals)) }
{
    put_number(text, u64::from(steps))?;
    text.extend_from_slice(b" have ")?;
    put_number(text, literals)?;
    text.extend_from_slice(b" literals of at most 16000000\n")?;
    Ok(())
}

/// Appends for which steps the clauses have too many.
fn put_unknown(text: &mut Vec<u8>, steps: u64) -> Result<(), AllocError>
    ensures { OnOk result (AddsText text.old text.new (unknown_text steps)) }
{
    put_number(text, steps)?;
    text.extend_from_slice(b" have more than 16000000 literals\n")?;
    Ok(())
}

/// Appends which clauses have too many literals.
fn put_excess(text: &mut Vec<u8>, steps: u32, limit: Limit) -> Result<(), AllocError>
    ensures { OnOk result (AddsText text.old text.new (excess_text steps limit)) }
{
    match limit.literals {
        Some(literals) => put_known(text, steps, literals),
        None => put_unknown(text, u64::from(limit.steps) + 1),
    }
}

/// How many steps can be asked for, where so many were.
fn limit_line(
    alloc: Global,
    kind: BaseKind,
    steps: u32,
    limit: Limit,
) -> Result<Vec<u8>, AllocError>
    ensures { IfOk result (λ line. line.items ≡ limit_line kind steps limit) }
{
    let mut line = Vec::new(alloc);
    put_kind(&mut line, kind)?;
    line.extend_from_slice(b" at most ")?;
    put_number(&mut line, u64::from(limit.steps))?;
    line.extend_from_slice(b" steps can be asked for: the clauses for ")?;
    put_excess(&mut line, steps, limit)?;
    Ok(line)
}

/// That so many steps can be asked for with bounds.
fn fits_line(alloc: Global, steps: u32) -> Result<Vec<u8>, AllocError>
    ensures { IfOk result (λ line. line.items ≡ fits_line steps) }
{
    let mut line = Vec::new(alloc);
    put_kind(&mut line, BaseKind::Live(Turns::All))?;
    line.extend_from_slice(b" ")?;
    put_number(&mut line, u64::from(steps))?;
    line.extend_from_slice(b" steps can be asked for\n")?;
    Ok(line)
}

/// Appends the line on a limit, where fewer can; else, of the base of live commands, that so many can.
fn push_limit(
    alloc: Global,
    kind: BaseKind,
    steps: u32,
    limit: Option<Limit>,
    lines: &mut Vec<Vec<u8>>,
) -> Result<(), AllocError>
    ensures { OnOk result (AddsLines lines.old lines.new (limits_said kind steps limit)) }
{
    match limit {
        Some(limit) => {
            let line = limit_line(alloc, kind, steps, limit)?;
            lines.push(line)?;
        }
        None => match kind {
            BaseKind::Live(_) => {
                let line = fits_line(alloc, steps)?;
                lines.push(line)?;
            }
            BaseKind::Plain | BaseKind::Sorted | BaseKind::Normal => {}
        },
    }
    Ok(())
}

/// How many steps can be asked for without bounds, with them, and for normal plans alone, where they are fewer than
/// these, from 1 to 256; and that these can with bounds, where they are not.
pub fn limit_lines(
    alloc: Global,
    interlocking: &Interlocking,
    steps: u32,
) -> Result<Vec<Vec<u8>>, AllocError>
    requires at_least_one { 1 ≤ steps }
    requires at_most_256 { steps ≤ 256 }
    ensures { IfOk result (λ lines. on interlocking.now AreLimitLines steps (lines_of lines.items)) }
{
    let plain = limit_for(alloc, interlocking, BaseKind::Plain, steps)?;
    let bounds = limit_for(alloc, interlocking, BaseKind::Live(Turns::All), steps)?;
    let normal = limit_for(alloc, interlocking, BaseKind::Normal, steps)?;
    let mut lines = Vec::new(alloc);
    push_limit(alloc, BaseKind::Plain, steps, plain, &mut lines)?;
    push_limit(alloc, BaseKind::Live(Turns::All), steps, bounds, &mut lines)?;
    push_limit(alloc, BaseKind::Normal, steps, normal, &mut lines)?;
    Ok(lines)
}
