//! A plan simulated over a design.

ghost use Rattle.std.specs.Prelude.{◌≡◌, ◌↔◌, [], ◌∷◌, true, IfOk, OnOk, Some, ℕ, List};
ghost use Rattle.rail_outside.specs.Asks.{fetched};
ghost use Rattle.rail_outside.specs.Files.{Files};
ghost use Rattle.rail_spec.specs.Feasible.{IsRunnable, IsFeasible};
ghost use Rattle.rail_spec.specs.Track.{routes_of};
ghost use Rattle.cli_shell.specs.Uses.{OnlyFetches};
ghost use Rattle.cli_shell.specs.Statuses.{is_verdict};
ghost use Rattle.cli_shell.specs.Answers.{plan_in, verdict_status, verdict_reply, planned, simulation_reply};
ghost use Rattle.cli_shell.specs.Shows.{verdict_at_horizon};
ghost use Rattle.cli_shell.specs.Simulations.{RunsSafely};
ghost use Rattle.cli_shell.specs.Replies.{RepliesWith, ReadsOrEnds, RefusesFile, OnlyRefuses, Replies, DecidesPlan};
ghost use Rattle.cli_shell.specs.Replies.{Decides};

use crate::ending::Ending;
use crate::input::InputFile;
use crate::reading::{admit, fetch};
use crate::refusals::{ending_of, plan_refused};
use crate::reply::Reply;
use crate::status::Status;
use interlocking::Interlocking;
use plan_run::simulate;
use rail_base::design::Design;
use rail_base::history::Verdict;
use rail_base::plan::Plan;
use rail_outside::Shelf;
use rail_plan::fault::PlanFault;
use rail_plan::reading::read_plan;
use std::alloc::{AllocError, Global};
use timetable::timetable_lines;

/// The plan over a design that is parsed from the bytes. The ending says why it is refused, or is want of memory.
pub fn read_steps(alloc: Global, interlocking: &Interlocking, bytes: &[u8]) -> Result<Plan, Ending>
    ensures reads { ReadsOrEnds (λ p. p.steps) result (plan_in interlocking.now.design.station bytes.now) }
    ensures refuses { OnlyRefuses result }
    ensures runnable { let d = interlocking.now.design.station in
        IfOk result (λ p. IsRunnable d (routes_of d) 256 p.steps) }
{
    match read_plan(alloc, interlocking, bytes) {
        Ok(plan) => Ok(plan),
        Err(PlanFault::Refused { code, place }) => {
            Err(ending_of(plan_refused(alloc, &interlocking.design, code, place)))
        }
        Err(PlanFault::Memory) => Err(Ending::Memory),
    }
}

/// The reply to a simulation, by the names of its files. The ending refuses one of them, or is want of memory or a
/// fault of the shelf.
pub fn simulation_reply<S: Shelf>(
    alloc: Global,
    shelf: &mut S,
    design: &str,
    plan: &str,
) -> Result<Reply, Ending>
    ensures replies { (files : Files) → S.known_files shelf.old ≡ Some files
        → Replies result (simulation_reply (files design.now) (files plan.now)) }
    ensures for_some_files { (design_bytes plan_bytes : List ℕ)
        × Replies result (simulation_reply design_bytes plan_bytes) }
    ensures verdict { IfOk result (λ reply. is_verdict reply.status ≡ true) }
    ensures refuses { RefusesFile result }
    ensures decides { (files : Files) → S.known_files shelf.old ≡ Some files
        → IfOk result (λ reply. Decides (files design.now) (files plan.now) reply.status) }
    ensures uses { OnlyFetches S.known_files S.asked S.fault_count shelf.old shelf.new
        (fetched design.now ∷ fetched plan.now ∷ []) (result ≡ Err Ending.ShelfFault) }
{
    let design_bytes = fetch(alloc, shelf, InputFile::Design, design)?;
    let interlocking = admit(alloc, design_bytes.as_slice())?;
    let plan_bytes = fetch(alloc, shelf, InputFile::Plan, plan)?;
    plan_reply(alloc, &interlocking, plan_bytes.as_slice())
}

/// 0 where the plan meets the design, and else 1.
fn status_of(verdict: &Verdict) -> Status
    ensures { result ≡ verdict_status verdict.now }
{
    match verdict {
        Verdict::Met { .. } => Status::Done,
        Verdict::Failed { .. } | Verdict::Undecided => Status::No,
    }
}

/// The timetable of a plan's run up to the horizon.
fn show(alloc: Global, interlocking: &Interlocking, plan: &Plan) -> Result<Reply, AllocError>
    requires runnable { let d = interlocking.now.design.station in IsRunnable d (routes_of d) 256 plan.now.steps }
    ensures reply { let d = interlocking.now.design.station in RepliesWith result
        (verdict_reply d (verdict_at_horizon d plan.now.steps)) }
    ensures verdict { IfOk result (λ reply. is_verdict reply.status ≡ true) }
    ensures exactly { IfOk result (λ reply. (reply.status ≡ Status.Done)
        ↔ IsFeasible interlocking.now.design.station 256 plan.now.steps) }
    ensures safe { OnOk result (RunsSafely interlocking.now.design.station plan.now.steps) }
{
    let verdict = simulate(alloc, interlocking, plan, interlocking.design.horizon())?;
    let lines = timetable_lines(alloc, &interlocking.design, &verdict)?;
    Ok(Reply {
        status: status_of(&verdict),
        lines,
    })
}

/// The reply for a design and the bytes of a plan.
fn plan_reply(alloc: Global, interlocking: &Interlocking, bytes: &[u8]) -> Result<Reply, Ending>
    ensures replies { Replies result (planned interlocking.now.design.station bytes.now) }
    ensures verdict { IfOk result (λ reply. is_verdict reply.status ≡ true) }
    ensures refuses { OnlyRefuses result }
    ensures decides { IfOk result (λ reply. DecidesPlan interlocking.now.design.station bytes.now reply.status) }
{
    let plan = read_steps(alloc, interlocking, bytes)?;
    Ok(show(alloc, interlocking, &plan)?)
}
