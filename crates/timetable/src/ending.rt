//! The first line: how a run ends.

ghost use Rattle.std.specs.Prelude.{◌≡◌, ◌++◌, decimal, IfOk};
ghost use Rattle.timetable.specs.Lines.{is_path_failure, met_line, failure, failure_line};
ghost use Rattle.rail_base.specs.Names.{train_name};
ghost use Rattle.timetable.specs.Parts.{failed_train};

use crate::events::put_tick;
use rail_base::design::Design;
use rail_base::names::train_name;
use rail_base::plan::Violation;
use rail_base::station::TrainNo;
use rail_text::put_number;
use std::alloc::{AllocError, Global};

/// `met tick <k>`
pub fn met_line(alloc: Global, tick: u64) -> Result<Vec<u8>, AllocError>
    ensures { IfOk result (λ line. line.items ≡ met_line tick) }
{
    let mut line = Vec::from_slice(alloc, b"met")?;
    put_tick(&mut line, tick)?;
    line.push(b'\n')?;
    Ok(line)
}

/// Whether a plan fails by a path, before a train moves.
pub fn is_path_failure(violation: Violation) -> bool
    ensures { result ≡ is_path_failure violation }
{
    matches!(violation, Violation::Path { .. })
}

/// How a plan fails, with the tick unless a path fails.
pub fn failure_line(
    alloc: Global,
    design: &Design,
    violation: Violation,
    tick: u64,
) -> Result<Vec<u8>, AllocError>
    ensures { IfOk result (λ line. line.items ≡ failure_line design.now.station tick violation) }
{
    let mut line = failure(alloc, design, violation)?;
    if !is_path_failure(violation) {
        put_tick(&mut line, tick)?;
    }
    line.push(b'\n')?;
    Ok(line)
}

/// A failure of a train: what, the train's name, and what of it by its number.
fn train_failure(
    alloc: Global,
    design: &Design,
    what: &[u8],
    train: TrainNo,
    counted: &[u8],
    number: u32,
) -> Result<Vec<u8>, AllocError>
    ensures { IfOk result (λ line. line.items ≡ failed_train design.now.station what.now train counted.now number) }
{
    let mut line = Vec::from_slice(alloc, what)?;
    line.extend_from_slice(train_name(design, train))?;
    line.extend_from_slice(counted)?;
    put_number(&mut line, u64::from(number))?;
    Ok(line)
}

/// A failure of an entry of the design, by its number.
fn entry_failure(alloc: Global, what: &[u8], number: u32) -> Result<Vec<u8>, AllocError>
    ensures { IfOk result (λ line. line.items ≡ what.now ++ decimal number) }
{
    let mut line = Vec::from_slice(alloc, what)?;
    put_number(&mut line, u64::from(number))?;
    Ok(line)
}

/// How a plan fails, without the tick.
fn failure(alloc: Global, design: &Design, violation: Violation) -> Result<Vec<u8>, AllocError>
    ensures { IfOk result (λ line. line.items ≡ failure design.now.station violation) }
{
    match violation {
        Violation::Path { train, visit } => {
            train_failure(
                alloc,
                design,
                b"fails path train ",
                train,
                b" visit ",
                visit,
            )
        }
        Violation::Within { within } => entry_failure(alloc, b"fails within ", within),
        Violation::Order { order } => entry_failure(alloc, b"fails order ", order),
        Violation::Grant { train, command } => {
            train_failure(
                alloc,
                design,
                b"fails grant train ",
                train,
                b" command ",
                command,
            )
        }
        Violation::Visit { train, visit } => {
            train_failure(
                alloc,
                design,
                b"fails visit train ",
                train,
                b" visit ",
                visit,
            )
        }
    }
}
