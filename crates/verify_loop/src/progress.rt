//! How far a search is, in a line.

ghost use Rattle.std.specs.Prelude.{◌≡◌, IfOk};
ghost use Rattle.verify_loop.specs.Telling.{none_before, none_text, progress_line};

use crate::outcome::Wanted;
use rail_text::put_number;
use std::alloc::{AllocError, Global};

/// How far a search is.
#[derive(Clone, Copy, Debug, PartialEq, Eq)]
pub(crate) struct Progress {
    /// No plan of so many steps is feasible, where that is known and one of the fewest is looked for.
    pub none_of: Option<u32>,
    /// How many clauses were derived.
    pub lines: u64,
    /// How many plans failed.
    pub failed: u64,
    /// How many ticks they took.
    pub ticks: u64,
}

/// Of how many steps no plan is feasible, where one of so many is asked for next.
pub(crate) fn none_before(wanted: Wanted, steps: u32) -> Option<u32>
    ensures { result ≡ none_before wanted steps }
{
    match wanted {
        Wanted::Fewest if 1 < steps => Some(steps - 1),
        _ => None,
    }
}

/// `none of <steps> steps; <lines> lines, <failed> plans failed, <ticks> ticks`, the part up to the semicolon only where
/// it is known of some number of steps.
pub(crate) fn progress_line(alloc: Global, progress: Progress) -> Result<Vec<u8>, AllocError>
    ensures { IfOk result (λ line. line.items ≡ progress_line progress) }
{
    let mut line = none_text(alloc, progress.none_of)?;
    put_number(&mut line, progress.lines)?;
    line.extend_from_slice(b" lines, ")?;
    put_number(&mut line, progress.failed)?;
    line.extend_from_slice(b" plans failed, ")?;
    put_number(&mut line, progress.ticks)?;
    line.extend_from_slice(b" ticks\n")?;
    Ok(line)
}

/// `none of <steps> steps; `, where it is known of some number of steps.
fn none_text(alloc: Global, none_of: Option<u32>) -> Result<Vec<u8>, AllocError>
    ensures { IfOk result (λ text. text.items ≡ none_text none_of) }
{
    let mut text = Vec::new(alloc);
    if let Some(steps) = none_of {
        text.extend_from_slice(b"none of ")?;
        put_number(&mut text, u64::from(steps))?;
        text.extend_from_slice(b" steps; ")?;
    }
    Ok(text)
}
