//! A station that is made from a seed, searched for a plan.

ghost use Rattle.std.specs.Prelude.{◌≡◌, ◌≢◌, ◌≤◌, ◌*◌, true, length, IfOk};
ghost use Rattle.rail_spec.specs.Feasible.{IsFeasible};
ghost use Rattle.rail_spec.specs.Requirements.{cost};
ghost use Rattle.rail_spec.specs.Track.{routes_of};
ghost use Rattle.rail_words.specs.declared.request.SearchMode.TheVariants.{Plain};
ghost use Rattle.verify_loop.specs.declared.outcome.Outcome.{Outcome};
ghost use Rattle.verify_loop.specs.Outcomes.{IsOutcome, Fits};
ghost use Rattle.verify_loop.specs.Telling.{TellsHowFar};
ghost use Rattle.workload.specs.Made.{made};
ghost use Rattle.cli_shell.specs.Statuses.{is_answered};
ghost use Rattle.rail_cli.specs.Answers.{aim_of, budgets_of, trial_conflicts, trial_ticks, three_lines, reply_for_trial};
ghost use Rattle.cli_shell.specs.Shows.{verdict_at_horizon};
ghost use Rattle.cli_shell.specs.Replies.{RepliesWith, OnlyRefuses};
ghost use Rattle.rail_cli.specs.Replies.{deciding_tick, RepliesTrial};
ghost use Rattle.rail_cli.specs.Texts.{plan_tick_line};

use crate::searching::{aim_of, budgets};
use crate::texts::{
    conflicts_spent_line, counts_line, infeasible_line, log_spent_line, plan_tick_line,
    ticks_spent_line, trial_line,
};
use cli_shell::{Ending, Reply, Status, interlock, too_large};
use interlocking::{Interlocking, Steps};
use rail_base::design::Design;
use rail_base::history::Verdict;
use rail_base::plan::Plan;
use rail_outside::Sink;
use rail_words::SearchMode;
use std::alloc::{AllocError, Global};
use verify_loop::{Outcome, verify};
use workload::make;

/// How many clauses a trial may derive.
const CONFLICTS: u64 = 1_000_000;

/// How many ticks it may simulate.
const TICKS: u64 = 1_000_000_000;

/// The reply to a trial: the station of the seed and the size, 1 to 6, is searched for a plan of twice as many steps as
/// its size. Nothing is asked of the shelf.
pub(crate) fn trial_reply<P: Sink>(
    alloc: Global,
    seed: u64,
    size: u32,
    progress: &mut P,
) -> Result<Reply, Ending>
    requires at_least_one { 1 ≤ size }
    requires at_most_six { size ≤ 6 }
    ensures replies { RepliesTrial result seed size }
    ensures no_usage { IfOk result (λ reply. reply.status ≢ Status.Usage) }
    ensures refuses { OnlyRefuses result }
    ensures tells { TellsHowFar (aim_of Plain) (made seed size) (2 * size) (P.puts progress.old) (P.puts progress.new) }
{
    let design = make(alloc, seed, size)?;
    let interlocking = interlock(alloc, design)?;
    Ok(tried_in(alloc, seed, size, &interlocking, progress)?)
}

/// The lines of a trial, with this last one.
fn reply_for(
    alloc: Global,
    seed: u64,
    size: u32,
    interlocking: &Interlocking,
    status: Status,
    last: Vec<u8>,
) -> Result<Reply, AllocError>
    requires answered { is_answered status ≡ true }
    ensures { RepliesWith result (three_lines seed size interlocking.now.design.station status last.items) }
{
    let mut lines = Vec::new(alloc);
    lines.push(trial_line(alloc, seed, size)?)?;
    lines.push(counts_line(alloc, interlocking)?)?;
    lines.push(last)?;
    Ok(Reply { status, lines })
}

/// The tick at which a verdict is decided; 0 where it is not.
fn deciding_tick(verdict: &Verdict) -> u64
    ensures { result ≡ deciding_tick verdict.now }
{
    match verdict {
        Verdict::Met { tick, .. } | Verdict::Failed { tick, .. } => *tick,
        Verdict::Undecided => 0,
    }
}

/// The line of a plan that is found, with what its run shows.
fn found_line(
    alloc: Global,
    design: &Design,
    steps: u32,
    plan: &Plan,
    verdict: &Verdict,
) -> Result<Vec<u8>, AllocError>
    requires feasible { IsFeasible design.now.station steps plan.now.steps }
    requires verdict { verdict.now ≡ verdict_at_horizon design.now.station plan.now.steps }
    ensures { let d = design.now.station in IfOk result (λ line. line.items
        ≡ plan_tick_line (length plan.now.steps) (cost d (routes_of d) plan.now.steps)) }
{
    plan_tick_line(alloc, plan, deciding_tick(verdict))
}

/// The reply for what the search of a trial ended with.
fn make_reply(
    alloc: Global,
    seed: u64,
    size: u32,
    interlocking: &Interlocking,
    found: &Outcome,
) -> Result<Reply, AllocError>
    requires at_most_six { size ≤ 6 }
    requires says { IsOutcome (aim_of Plain) interlocking.now.design.station (2 * size)
        (budgets_of trial_conflicts trial_ticks) found.now }
    ensures replies { RepliesWith result (reply_for_trial seed size interlocking.now.design.station found.now) }
    ensures no_usage { IfOk result (λ reply. reply.status ≢ Status.Usage) }
{
    match found {
        Outcome::Plan { plan, verdict } => {
            let last = found_line(alloc, &interlocking.design, 2 * size, plan, verdict)?;
            reply_for(alloc, seed, size, interlocking, Status::Done, last)
        }
        Outcome::Infeasible { .. } => {
            let last = infeasible_line(alloc, 2 * size)?;
            reply_for(alloc, seed, size, interlocking, Status::No, last)
        }
        Outcome::ConflictsSpent { .. } => {
            let last = conflicts_spent_line(alloc, CONFLICTS)?;
            reply_for(
                alloc,
                seed,
                size,
                interlocking,
                Status::ConflictsSpent,
                last,
            )
        }
        Outcome::TicksSpent { sum, .. } => {
            let last = ticks_spent_line(alloc, *sum, TICKS)?;
            reply_for(alloc, seed, size, interlocking, Status::TicksSpent, last)
        }
        Outcome::LogSpent { bytes, next, .. } => {
            let last = log_spent_line(alloc, *bytes, *next)?;
            reply_for(alloc, seed, size, interlocking, Status::LogSpent, last)
        }
        Outcome::TooLarge { .. } => too_large(alloc),
        Outcome::Memory => Err(AllocError),
    }
}

/// The reply to a trial of a station with its routes.
fn tried_in<P: Sink>(
    alloc: Global,
    seed: u64,
    size: u32,
    interlocking: &Interlocking,
    progress: &mut P,
) -> Result<Reply, AllocError>
    requires at_least_one { 1 ≤ size }
    requires at_most_six { size ≤ 6 }
    ensures replies { (found : Outcome)
        × IsOutcome (aim_of Plain) interlocking.now.design.station (2 * size) (budgets_of trial_conflicts trial_ticks) found
        × Fits (aim_of Plain) interlocking.now.design.station (2 * size) found
        × RepliesWith result (reply_for_trial seed size interlocking.now.design.station found) }
    ensures no_usage { IfOk result (λ reply. reply.status ≢ Status.Usage) }
    ensures tells { TellsHowFar (aim_of Plain) interlocking.now.design.station (2 * size)
        (P.puts progress.old) (P.puts progress.new) }
{
    let steps = Steps { count: 2 * size };
    let budgets = budgets(CONFLICTS, TICKS);
    let found = verify(
        alloc,
        interlocking,
        steps,
        aim_of(SearchMode::Plain),
        budgets,
        progress,
    );
    make_reply(alloc, seed, size, interlocking, &found)
}
