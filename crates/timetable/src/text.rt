//! The whole text.

ghost use Rattle.std.specs.Prelude.{◌≡◌, IfOk};
ghost use Rattle.timetable.specs.Lines.{lines_of};
ghost use Rattle.timetable.specs.Timetable.{timetable_of};

use crate::ending::{failure_line, is_path_failure, met_line};
use crate::trains::push_history;
use rail_base::design::Design;
use rail_base::history::Verdict;
use std::alloc::{AllocError, Global};

/// The lines that say what a run of a plan shows, each with its LF: how it ends, and then, unless a path fails, each
/// train of the history with its grants, the nodes that it passed, its visits, and its stands that are done, each with
/// its last tick. Ticks are counted from 1, and a visit has its time in ms too. There is no line where the verdict is
/// still undecided.
///
/// `Err` is want of memory.
pub fn timetable_lines(
    alloc: Global,
    design: &Design,
    verdict: &Verdict,
) -> Result<Vec<Vec<u8>>, AllocError>
    ensures { IfOk result (λ lines. lines_of lines.items ≡ timetable_of design.now.station verdict.now) }
{
    let mut lines = Vec::new(alloc);
    match verdict {
        Verdict::Met { history, tick } => {
            lines.push(met_line(alloc, *tick)?)?;
            push_history(alloc, design, history.as_slice(), &mut lines)?;
        }
        Verdict::Failed {
            history,
            tick,
            violation,
        } => {
            lines.push(failure_line(alloc, design, *violation, *tick)?)?;
            if !is_path_failure(*violation) {
                push_history(alloc, design, history.as_slice(), &mut lines)?;
            }
        }
        Verdict::Undecided => {}
    }
    Ok(lines)
}
