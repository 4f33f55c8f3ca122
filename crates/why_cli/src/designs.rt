//! What is said of a design alone. An error is want of memory.

ghost use Rattle.std.specs.Prelude.{◌≤◌, IfOk};
ghost use Rattle.cli_shell.specs.Replies.{reply_seen};
ghost use Rattle.why_words.specs.Wanted.{AreStepsInRange};
ghost use Rattle.why_cli.specs.Designs.{IsDesignSaid, IsRefusalSaid, IsSaidForSteps, IsTextSaid, IsTooLargeSaid};

use asked_words::push_asked;
use cli_shell::{Ending, Reply, Status, admit_design, design_refused};
use design_table::{Code, DesignFault, Place};
use interlocking::{Interlocking, Steps};
use limit_words::limit_lines;
use look_words::{push_dead_ends, push_looks, push_open_entries, push_slipped_sections};
use proof_shell::encode;
use refused_words::fault_lines;
use std::alloc::{AllocError, Global};
use time_words::push_least_times;
use way_words::push_ways;

/// What is said of a design that is refused with this code at this place.
fn refusal_said(alloc: Global, text: &[u8], code: Code, place: Place) -> Result<Reply, AllocError>
    ensures { IfOk result (λ reply. IsRefusalSaid text.now code place (reply_seen reply)) }
{
    let mut reply = design_refused(alloc, code, place)?;
    let mut more = fault_lines(alloc, text, code, place)?;
    reply.lines.append(&mut more)?;
    Ok(reply)
}

/// What is said of a design that is not refused.
fn design_said(alloc: Global, interlocking: &Interlocking) -> Result<Reply, AllocError>
    ensures { IfOk result (λ reply. IsDesignSaid interlocking.now.design.station (reply_seen reply)) }
{
    let mut lines = Vec::new(alloc);
    let routes = interlocking.routes.len() as u64;
    push_asked(alloc, &interlocking.design, routes, &mut lines)?;
    push_ways(alloc, interlocking, &mut lines)?;
    push_least_times(alloc, interlocking, &mut lines)?;
    push_looks(alloc, &interlocking.design, &mut lines)?;
    push_dead_ends(alloc, interlocking, &mut lines)?;
    push_open_entries(alloc, interlocking, &mut lines)?;
    push_slipped_sections(alloc, &interlocking.design, &mut lines)?;
    Ok(Reply {
        status: Status::Done,
        lines,
    })
}

/// What is said of a design that is refused for its clauses for so many steps.
fn too_large_said(
    alloc: Global,
    interlocking: &Interlocking,
    steps: u32,
    refusal: Reply,
) -> Result<Reply, AllocError>
    requires at_least_one { 1 ≤ steps }
    requires at_most_256 { steps ≤ 256 }
    ensures { IfOk result (λ reply.
        IsTooLargeSaid steps interlocking.now.design.station (reply_seen refusal) (reply_seen reply)) }
{
    let mut reply = refusal;
    let mut more = limit_lines(alloc, interlocking, steps)?;
    reply.lines.append(&mut more)?;
    Ok(reply)
}

/// The same, where the clauses are few for the steps that are given, if any are.
fn said_for_steps(
    alloc: Global,
    interlocking: &Interlocking,
    steps: Option<u32>,
) -> Result<Reply, AllocError>
    requires { AreStepsInRange steps }
    ensures { IfOk result (λ reply. IsSaidForSteps steps interlocking.now.design.station (reply_seen reply)) }
{
    let Some(count) = steps else {
        return design_said(alloc, interlocking);
    };
    match encode(alloc, interlocking, Steps { count }) {
        Ok(_) => design_said(alloc, interlocking),
        Err(Ending::RefusedWith(reply)) => too_large_said(alloc, interlocking, count, reply),
        Err(Ending::Memory) => Err(AllocError),
        Err(Ending::ShelfFault) => unreachable!(),
    }
}

/// What is said of the text of a design.
pub(crate) fn design_reply(
    alloc: Global,
    text: &[u8],
    steps: Option<u32>,
) -> Result<Reply, AllocError>
    requires { AreStepsInRange steps }
    ensures { IfOk result (λ reply. IsTextSaid steps text.now (reply_seen reply)) }
{
    match admit_design(alloc, text) {
        Ok(interlocking) => said_for_steps(alloc, &interlocking, steps),
        Err(DesignFault::Refused { code, place }) => refusal_said(alloc, text, code, place),
        Err(DesignFault::Memory) => Err(AllocError),
    }
}
