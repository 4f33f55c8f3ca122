//! What is said of a plan. An error is want of memory.

ghost use Rattle.std.specs.Prelude.{◌≡◌, true, IfOk};
ghost use Rattle.cli_shell.specs.Answers.{verdict_status};
ghost use Rattle.cli_shell.specs.Replies.{reply_seen};
ghost use Rattle.cli_shell.specs.Statuses.{is_answered};
ghost use Rattle.rail_spec.specs.Feasible.{IsRunnable};
ghost use Rattle.rail_spec.specs.Track.{routes_of};
ghost use Rattle.why_cli.specs.Plans.{IsPlanAnswer, IsPlanSaid, IsRefusedPlanSaid, is_blank, is_plan, outcome_said};

use cli_shell::{InputFile, Reply, Status, plan_refused, too_long};
use interlocking::Interlocking;
use outcome_words::push_outcome;
use plan_fault_words::plan_fault_lines;
use plan_run::simulate;
use rail_base::history::Verdict;
use rail_base::plan::Plan;
use rail_plan::fault::{PlanCode, PlanFault};
use rail_plan::place::PlanPlace;
use rail_plan::reading::read_plan;
use std::alloc::{AllocError, Global};
use timetable::timetable_lines;

/// Whether a byte is a space, a tab or an end of a line.
fn is_blank(byte: u8) -> bool
    ensures { result ≡ is_blank byte }
{
    byte == b' ' || byte == b'\t' || byte == b'\r' || byte == b'\n'
}

/// Whether the first byte that is none of these is a brace.
pub(crate) fn is_plan(text: &[u8]) -> bool
    ensures { result ≡ is_plan text.now }
{
    for byte in text {
        if !is_blank(*byte) {
            return *byte == b'{';
        }
    }
    false
}

/// What is said of a plan that is refused with this code at this place.
fn refusal_said(
    alloc: Global,
    interlocking: &Interlocking,
    text: &[u8],
    code: PlanCode,
    place: PlanPlace,
) -> Result<Reply, AllocError>
    ensures { IfOk result (λ reply.
        IsRefusedPlanSaid interlocking.now.design.station text.now code place (reply_seen reply)) }
{
    let mut reply = plan_refused(alloc, &interlocking.design, code, place)?;
    let mut more = plan_fault_lines(alloc, interlocking, text, place)?;
    reply.lines.append(&mut more)?;
    Ok(reply)
}

/// 0 where the plan meets the design, and else 1.
fn status_of(verdict: &Verdict) -> Status
    ensures value { result ≡ verdict_status verdict.now }
    ensures answered { is_answered result ≡ true }
{
    match verdict {
        Verdict::Met { .. } => Status::Done,
        Verdict::Failed { .. } | Verdict::Undecided => Status::No,
    }
}

/// What is said of a plan that is not refused.
fn outcome_said(
    alloc: Global,
    interlocking: &Interlocking,
    plan: &Plan,
) -> Result<Reply, AllocError>
    requires runnable { let d = interlocking.now.design.station in IsRunnable d (routes_of d) 256 plan.now.steps }
    ensures { IfOk result (λ reply. reply_seen reply ≡ outcome_said interlocking.now.design.station plan.now.steps) }
{
    let verdict = simulate(alloc, interlocking, plan, interlocking.design.horizon())?;
    let mut lines = timetable_lines(alloc, &interlocking.design, &verdict)?;
    lines.truncate(1);
    push_outcome(alloc, interlocking, plan, &verdict, &mut lines)?;
    Ok(Reply {
        status: status_of(&verdict),
        lines,
    })
}

/// What is said of the text of a plan.
fn plan_said(alloc: Global, interlocking: &Interlocking, text: &[u8]) -> Result<Reply, AllocError>
    ensures { IfOk result (λ reply. IsPlanSaid interlocking.now.design.station text.now (reply_seen reply)) }
{
    match read_plan(alloc, interlocking, text) {
        Ok(plan) => outcome_said(alloc, interlocking, &plan),
        Err(PlanFault::Refused { code, place }) => {
            refusal_said(alloc, interlocking, text, code, place)
        }
        Err(PlanFault::Memory) => Err(AllocError),
    }
}

/// The same, unless it is longer than a plan may be.
pub(crate) fn plan_reply(
    alloc: Global,
    interlocking: &Interlocking,
    text: &[u8],
) -> Result<Reply, AllocError>
    ensures { IfOk result (λ reply. IsPlanAnswer interlocking.now.design.station text.now (reply_seen reply)) }
{
    if text.len() as u64 > InputFile::Plan.limit() {
        return too_long(alloc, InputFile::Plan);
    }
    plan_said(alloc, interlocking, text)
}
