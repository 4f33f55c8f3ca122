//! A search for a plan of a design.

ghost use Rattle.std.specs.Prelude.{◌≡◌, ◌≢◌, ◌≤◌, [], ◌∷◌, length, ℕ, List, IfOk, Ok, Some, true};
ghost use Rattle.rail_outside.specs.Asks.{fetched, stored};
ghost use Rattle.rail_outside.specs.Files.{Files};
ghost use Rattle.rail_outside.specs.Lines.{lines_of};
ghost use Rattle.rail_words.specs.Requests.{verify};
ghost use Rattle.verify_loop.specs.declared.outcome.Aim.{Aim};
ghost use Rattle.verify_loop.specs.declared.outcome.Outcome.{Outcome};
ghost use Rattle.verify_loop.specs.Outcomes.{IsOutcome, Fits};
ghost use Rattle.verify_loop.specs.Telling.{TellsHowFar};
ghost use Rattle.rail_base.specs.declared.station.Station.{Station};
ghost use Rattle.cli_shell.specs.Uses.{Uses};
ghost use Rattle.cli_shell.specs.Answers.{one_line, design_in};
ghost use Rattle.rail_cli.specs.Answers.{reply_for_plan, reply_for_outcome, searched_in, aim_of, budgets_of};
ghost use Rattle.proof_judge.specs.Judged.{names_within};
ghost use Rattle.cli_shell.specs.Shows.{verdict_at_horizon};
ghost use Rattle.cli_shell.specs.Replies.{RepliesWith, RefusesFile, OnlyFails, Replies, OnEnd};
ghost use Rattle.rail_cli.specs.Replies.{RepliesSo, RepliesSome, StoresFile, KeepsLog};
ghost use Rattle.rail_cli.specs.Searches.{SearchLeaves};
ghost use Rattle.cli_shell.specs.Texts.{limit_of, plan_line};
ghost use Rattle.rail_cli.specs.Texts.{plan_steps_line, infeasible_line, conflicts_spent_line, ticks_spent_line};
ghost use Rattle.rail_cli.specs.Texts.{log_spent_line};

use crate::texts::{
    conflicts_spent_line, infeasible_line, log_spent_line, plan_steps_line, ticks_spent_line,
};
use clause_spec::{BaseKind, Turns};
use cli_shell::{Ending, InputFile, Reply, Status, admit, fetch, one_line, plan_line, too_large};
use interlocking::{Interlocking, Steps};
use rail_base::design::Design;
use rail_base::history::Verdict;
use rail_base::plan::Plan;
use rail_outside::{Shelf, Sink, StoreFault};
use rail_words::SearchMode;
use std::alloc::{AllocError, Global};
use timetable::timetable_lines;
use verify_loop::{Aim, Budgets, Outcome, Wanted, verify};

/// What a search may spend: so many derived clauses and ticks, and a log as long as a proof may be.
pub(crate) fn budgets(conflicts: u64, ticks: u64) -> Budgets
    ensures { result ≡ budgets_of conflicts ticks }
{
    Budgets {
        conflicts,
        ticks,
        log_bytes: InputFile::Proof.limit(),
    }
}

/// The reply to a search for a plan of so many steps, 1 to 256, in this way, by the names of its files. Where there is
/// no plan, the log that shows it is stored under the proof's name. How far it is is told meanwhile.
pub(crate) fn search_reply<S: Shelf, P: Sink>(
    alloc: Global,
    shelf: &mut S,
    steps: u32,
    mode: SearchMode,
    budgets: Budgets,
    design: &str,
    proof: &str,
    progress: &mut P,
) -> Result<Reply, Ending>
    requires at_least_one { 1 ≤ steps }
    requires at_most_256 { steps ≤ 256 }
    requires room { budgets.log_bytes ≡ limit_of InputFile.Proof }
    ensures replies { (files : Files) → S.known_files shelf.old ≡ Some files
        → RepliesSo result files (Some (verify steps budgets.conflicts budgets.ticks mode design.now proof.now)) }
    ensures for_some_files { RepliesSome result
        (Some (verify steps budgets.conflicts budgets.ticks mode design.now proof.now)) }
    ensures no_usage { IfOk result (λ reply. reply.status ≢ Status.Usage) }
    ensures refuses { RefusesFile result }
    ensures stored { (files : Files) → S.known_files shelf.old ≡ Some files
        → OnEnd result (λ s. SearchLeaves files steps design.now proof.now s (S.known_files shelf.new)) }
    ensures uses { Uses S.asked S.fault_count shelf.old shelf.new
        (fetched design.now ∷ stored proof.now ∷ []) (result ≡ Err Ending.ShelfFault) }
    ensures tells { (files : Files) → S.known_files shelf.old ≡ Some files
        → (d : Station) → design_in (files design.now) ≡ Ok d
        → TellsHowFar (aim_of mode) d steps (P.puts progress.old) (P.puts progress.new) }
{
    let bytes = fetch(alloc, shelf, InputFile::Design, design)?;
    let interlocking = admit(alloc, bytes.as_slice())?;
    let steps = Steps { count: steps };
    let aim = aim_of(mode);
    searched_in(
        alloc,
        shelf,
        &interlocking,
        steps,
        aim,
        budgets,
        proof,
        progress,
    )
}

/// What is looked for, and by which clauses: with bounds by those of live commands.
pub(crate) fn aim_of(mode: SearchMode) -> Aim
    ensures { result ≡ aim_of mode }
{
    match mode {
        SearchMode::Plain => Aim {
            base: BaseKind::Plain,
            wanted: Wanted::Fewest,
        },
        SearchMode::Bounds => Aim {
            base: BaseKind::Live(Turns::All),
            wanted: Wanted::Fewest,
        },
        SearchMode::Any => Aim {
            base: BaseKind::Live(Turns::All),
            wanted: Wanted::Any,
        },
        SearchMode::Normal => Aim {
            base: BaseKind::Normal,
            wanted: Wanted::Fewest,
        },
    }
}

/// The lines of a plan, before its timetable.
fn plan_lines(alloc: Global, design: &Design, plan: &Plan) -> Result<Vec<Vec<u8>>, AllocError>
    ensures { IfOk result (λ lines. lines_of lines.items
        ≡ plan_steps_line (length plan.now.steps) ∷ plan_line design.now.station plan.now.steps ∷ []) }
{
    let mut lines = Vec::new(alloc);
    lines.push(plan_steps_line(alloc, plan)?)?;
    lines.push(plan_line(alloc, design, plan)?)?;
    Ok(lines)
}

/// The reply for a plan that is found, with what its run shows.
pub(crate) fn plan_found(
    alloc: Global,
    design: &Design,
    plan: &Plan,
    verdict: &Verdict,
) -> Result<Reply, AllocError>
    requires { verdict.now ≡ verdict_at_horizon design.now.station plan.now.steps }
    ensures { RepliesWith result (reply_for_plan design.now.station plan.now.steps) }
{
    let mut lines = plan_lines(alloc, design, plan)?;
    let mut timetable = timetable_lines(alloc, design, verdict)?;
    lines.append(&mut timetable)?;
    Ok(Reply {
        status: Status::Done,
        lines,
    })
}

/// There is no plan of so many steps.
pub(crate) fn infeasible(alloc: Global, steps: u32) -> Result<Reply, AllocError>
    ensures { RepliesWith result (one_line Status.No (infeasible_line steps)) }
{
    one_line(alloc, Status::No, infeasible_line(alloc, steps)?)
}

/// As many clauses were derived as were allowed.
pub(crate) fn conflicts_spent(alloc: Global, conflicts: u64) -> Result<Reply, AllocError>
    ensures { RepliesWith result (one_line Status.ConflictsSpent (conflicts_spent_line conflicts)) }
{
    one_line(
        alloc,
        Status::ConflictsSpent,
        conflicts_spent_line(alloc, conflicts)?,
    )
}

/// The next plan takes more ticks than are left.
pub(crate) fn ticks_spent(alloc: Global, sum: u64, ticks: u64) -> Result<Reply, AllocError>
    ensures { RepliesWith result (one_line Status.TicksSpent (ticks_spent_line sum ticks)) }
{
    one_line(
        alloc,
        Status::TicksSpent,
        ticks_spent_line(alloc, sum, ticks)?,
    )
}

/// The next line of the log has no room.
pub(crate) fn log_spent(alloc: Global, bytes: u64, next: u64) -> Result<Reply, AllocError>
    ensures { RepliesWith result (one_line Status.LogSpent (log_spent_line bytes next)) }
{
    one_line(alloc, Status::LogSpent, log_spent_line(alloc, bytes, next)?)
}

/// The reply for what a search ended with.
fn make_reply(
    alloc: Global,
    design: &Design,
    steps: u32,
    budgets: Budgets,
    found: &Outcome,
) -> Result<Reply, AllocError>
    requires { (m : Aim) × IsOutcome m design.now.station steps budgets found.now }
    ensures { RepliesWith result
        (reply_for_outcome design.now.station steps budgets.conflicts budgets.ticks found.now) }
{
    match found {
        Outcome::Plan { plan, verdict } => plan_found(alloc, design, plan, verdict),
        Outcome::Infeasible { .. } => infeasible(alloc, steps),
        Outcome::ConflictsSpent { .. } => conflicts_spent(alloc, budgets.conflicts),
        Outcome::TicksSpent { sum, .. } => ticks_spent(alloc, *sum, budgets.ticks),
        Outcome::LogSpent { bytes, next, .. } => log_spent(alloc, *bytes, *next),
        Outcome::TooLarge { .. } => too_large(alloc),
        Outcome::Memory => Err(AllocError),
    }
}

/// Puts bytes under a name of the shelf.
pub(crate) fn store<S: Shelf>(shelf: &mut S, name: &str, bytes: &[u8]) -> Result<(), Ending>
    ensures stored { (files : Files) → S.known_files shelf.old ≡ Some files
        → StoresFile result files name.now bytes.now (S.known_files shelf.new) }
    ensures fails { OnlyFails result }
    ensures uses { Uses S.asked S.fault_count shelf.old shelf.new
        (stored name.now ∷ []) (result ≡ Err Ending.ShelfFault) }
{
    match shelf.store(name, bytes) {
        Ok(()) => Ok(()),
        Err(StoreFault::Failed) => Err(Ending::ShelfFault),
        Err(StoreFault::Memory) => Err(Ending::Memory),
    }
}

/// Stores the log of a search under a name, where it shows that there is no plan; else nothing.
fn keep<S: Shelf>(shelf: &mut S, name: &str, found: &Outcome) -> Result<(), Ending>
    ensures stored { (files : Files) → S.known_files shelf.old ≡ Some files
        → KeepsLog result files name.now found.now (S.known_files shelf.new) }
    ensures fails { OnlyFails result }
    ensures uses { Uses S.asked S.fault_count shelf.old shelf.new
        (stored name.now ∷ []) (result ≡ Err Ending.ShelfFault) }
{
    match found {
        Outcome::Infeasible { log } => store(shelf, name, log.as_slice()),
        _ => Ok(()),
    }
}

/// The reply for what a search ended with. When it is made, the log is stored under the proof's name, where it shows
/// that there is no plan.
fn settle<S: Shelf>(
    alloc: Global,
    shelf: &mut S,
    design: &Design,
    steps: Steps,
    budgets: Budgets,
    proof: &str,
    found: &Outcome,
) -> Result<Reply, Ending>
    requires says { (m : Aim) × (names_within m.base design.now.station ≡ true)
        × IsOutcome m design.now.station steps.count budgets found.now }
    requires room { budgets.log_bytes ≡ limit_of InputFile.Proof }
    ensures replies { Replies result
        (reply_for_outcome design.now.station steps.count budgets.conflicts budgets.ticks found.now) }
    ensures no_usage { IfOk result (λ reply. reply.status ≢ Status.Usage) }
    ensures refuses { RefusesFile result }
    ensures stored { (files : Files) (name : List ℕ) → S.known_files shelf.old ≡ Some files
        → design_in (files name) ≡ Ok design.now.station
        → OnEnd result (λ s. SearchLeaves files steps.count name proof.now s (S.known_files shelf.new)) }
    ensures uses { Uses S.asked S.fault_count shelf.old shelf.new
        (stored proof.now ∷ []) (result ≡ Err Ending.ShelfFault) }
{
    let reply = make_reply(alloc, design, steps.count, budgets, found)?;
    keep(shelf, proof, found)?;
    Ok(reply)
}

/// The reply to a search in a design, by the name of the proof's file.
fn searched_in<S: Shelf, P: Sink>(
    alloc: Global,
    shelf: &mut S,
    interlocking: &Interlocking,
    steps: Steps,
    aim: Aim,
    budgets: Budgets,
    proof: &str,
    progress: &mut P,
) -> Result<Reply, Ending>
    requires room { budgets.log_bytes ≡ limit_of InputFile.Proof }
    requires named { names_within aim.base interlocking.now.design.station ≡ true }
    ensures replies { (found : Outcome) × IsOutcome aim interlocking.now.design.station steps.count budgets found
        × Fits aim interlocking.now.design.station steps.count found
        × Replies result
        (searched_in aim interlocking.now.design.station steps.count budgets.conflicts budgets.ticks found) }
    ensures no_usage { IfOk result (λ reply. reply.status ≢ Status.Usage) }
    ensures refuses { RefusesFile result }
    ensures stored { (files : Files) (name : List ℕ) → S.known_files shelf.old ≡ Some files
        → design_in (files name) ≡ Ok interlocking.now.design.station
        → OnEnd result (λ s. SearchLeaves files steps.count name proof.now s (S.known_files shelf.new)) }
    ensures uses { Uses S.asked S.fault_count shelf.old shelf.new
        (stored proof.now ∷ []) (result ≡ Err Ending.ShelfFault) }
    ensures tells { TellsHowFar aim interlocking.now.design.station steps.count
        (P.puts progress.old) (P.puts progress.new) }
{
    let found = verify(alloc, interlocking, steps, aim, budgets, progress);
    settle(
        alloc,
        shelf,
        &interlocking.design,
        steps,
        budgets,
        proof,
        &found,
    )
}
