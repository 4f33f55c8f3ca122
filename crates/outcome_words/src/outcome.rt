//! What a verdict says of a plan. An error is want of memory; then a part of the lines may stand there.

ghost use Rattle.std.specs.Prelude.{◌≡◌, IfOk, None, OnOk};
ghost use Rattle.interlocking.specs.Plans.{on};
ghost use Rattle.rail_text.specs.Added.{AddsLines};
ghost use Rattle.outcome_words.specs.Outcome.{failed_lines, outcome_lines, path_line, run_lines, undecided_line};
ghost use Rattle.outcome_words.specs.Outcome.{unknown_lines};
ghost use Rattle.outcome_words.specs.Runs.{of_shown};

use crate::requirements::push_requirements;
use crate::run::ShownRun;
use crate::visits::put_visit_name;
use crate::waiting::push_trains;
use cone_words::put_nodes;
use interlocking::Interlocking;
use rail_base::design::Design;
use rail_base::history::Verdict;
use rail_base::plan::{Plan, Violation};
use rail_base::station::TrainNo;
use std::alloc::{AllocError, Global};

/// Appends the lines of a run.
fn push_run(alloc: Global, run: &ShownRun, lines: &mut Vec<Vec<u8>>) -> Result<(), AllocError>
    ensures { OnOk result (AddsLines lines.old lines.new (of_shown run.now run_lines)) }
{
    let design = &run.interlocking.design;
    push_requirements(alloc, design, run.history, Some(run.last), lines)?;
    push_trains(alloc, run, lines)?;
    Ok(())
}

/// Appends why no run shows anything, and what is asked for.
fn push_unknown(
    alloc: Global,
    design: &Design,
    why: Vec<u8>,
    lines: &mut Vec<Vec<u8>>,
) -> Result<(), AllocError>
    ensures { OnOk result (AddsLines lines.old lines.new (unknown_lines design.now.station why.items)) }
{
    lines.push(why)?;
    push_requirements(alloc, design, &[], None, lines)?;
    Ok(())
}

/// That a path does not make a visit.
fn path_line(
    alloc: Global,
    design: &Design,
    train: TrainNo,
    visit: u32,
) -> Result<Vec<u8>, AllocError>
    ensures { IfOk result (λ line. line.items ≡ path_line design.now.station train visit) }
{
    let mut line = Vec::from_slice(alloc, b"no run: the routes given do not make ")?;
    put_visit_name(&mut line, design, train, visit)?;
    put_nodes(&mut line, design, train, visit)?;
    line.push(b'\n')?;
    Ok(line)
}

/// Appends the lines of a plan that fails.
fn push_failed(
    alloc: Global,
    run: &ShownRun,
    violation: Violation,
    lines: &mut Vec<Vec<u8>>,
) -> Result<(), AllocError>
    ensures { OnOk result (AddsLines lines.old lines.new (of_shown run.now failed_lines violation)) }
{
    match violation {
        Violation::Path { train, visit } => {
            let design = &run.interlocking.design;
            let why = path_line(alloc, design, train, visit)?;
            push_unknown(alloc, design, why, lines)
        }
        Violation::Within { .. } => push_run(alloc, run, lines),
        Violation::Order { .. } => push_run(alloc, run, lines),
        Violation::Grant { .. } => push_run(alloc, run, lines),
        Violation::Visit { .. } => push_run(alloc, run, lines),
    }
}

/// That a run was ended too early.
fn undecided_line(alloc: Global) -> Result<Vec<u8>, AllocError>
    ensures { IfOk result (λ line. line.items ≡ undecided_line) }
{
    Vec::from_slice(
        alloc,
        b"undecided: the run was ended before it showed whether the plan meets the design\n",
    )
}

/// Appends that a run was ended too early, and what is asked for.
fn push_undecided(
    alloc: Global,
    design: &Design,
    lines: &mut Vec<Vec<u8>>,
) -> Result<(), AllocError>
    ensures { OnOk result (AddsLines lines.old lines.new (unknown_lines design.now.station undecided_line)) }
{
    let why = undecided_line(alloc)?;
    push_unknown(alloc, design, why, lines)?;
    Ok(())
}

/// Appends what a verdict says of a plan: what came of each order and each within, and by how much; and then, train by
/// train, where it waits, from when and for how long, and for which train to release which section; and where it stands
/// at its visits, from when and for how long. An error leaves a part of the lines.
pub fn push_outcome(
    alloc: Global,
    interlocking: &Interlocking,
    plan: &Plan,
    verdict: &Verdict,
    lines: &mut Vec<Vec<u8>>,
) -> Result<(), AllocError>
    ensures { OnOk result (AddsLines lines.old lines.new
        (on interlocking.now outcome_lines plan.now.steps verdict.now)) }
{
    match verdict {
        Verdict::Met { history, tick } => {
            let run = ShownRun {
                interlocking,
                plan,
                history: history.as_slice(),
                last: *tick,
            };
            push_run(alloc, &run, lines)
        }
        Verdict::Failed {
            history,
            tick,
            violation,
        } => {
            let run = ShownRun {
                interlocking,
                plan,
                history: history.as_slice(),
                last: *tick,
            };
            push_failed(alloc, &run, *violation, lines)
        }
        Verdict::Undecided => push_undecided(alloc, &interlocking.design, lines),
    }
}
