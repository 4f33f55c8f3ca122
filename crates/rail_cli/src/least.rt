//! A search for the least time that a within of a design can allow.

ghost use Rattle.std.specs.Prelude.{◌≡◌, ◌≢◌, ◌≤◌, ◌<◌, [], ◌∷◌, length, ℕ, Bool, List, IfOk, Err, Ok, Some};
ghost use Rattle.clause_spec.specs.declared.question.BaseKind.{BaseKind as Kind};
ghost use Rattle.rail_outside.specs.Asks.{fetched, stored};
ghost use Rattle.rail_outside.specs.Files.{Files};
ghost use Rattle.rail_base.specs.Admitted.{IsAdmitted};
ghost use Rattle.rail_base.specs.Stations.{horizon};
ghost use Rattle.rail_base.specs.declared.station.Station.{Station};
ghost use Rattle.rail_words.specs.Requests.{tightest};
ghost use Rattle.verify_loop.specs.declared.least_time.Tightest.{Tightest as Time};
ghost use Rattle.verify_loop.specs.Lessening.{untimed};
ghost use Rattle.verify_loop.specs.Tightening.{FitsTightest, IsTightest, TellsTightest, base_for};
ghost use Rattle.cli_shell.specs.Uses.{Uses};
ghost use Rattle.cli_shell.specs.Answers.{and_then, design_in, with_within};
ghost use Rattle.cli_shell.specs.Replies.{RepliesWith, ReadsOrEnds, RefusesFile, OnlyFails, OnlyRefuses, Replies, OnEnd};
ghost use Rattle.cli_shell.specs.Shows.{verdict_at_horizon};
ghost use Rattle.cli_shell.specs.Texts.{limit_of};
ghost use Rattle.proof_shell.specs.Answers.{with_clauses};
ghost use Rattle.rail_cli.specs.Answers.{reply_for_least, reply_for_time, timed_in};
ghost use Rattle.rail_cli.specs.Replies.{RepliesSo, RepliesSome, KeepsTime};
ghost use Rattle.rail_cli.specs.Times.{TellsTime, TimeLeaves};

use crate::searching::{conflicts_spent, infeasible, log_spent, plan_found, store, ticks_spent};
use crate::texts::tightest_line;
use clause_spec::{BaseKind, Turns};
use cli_shell::{Ending, InputFile, Reply, Status, admit, ending_of, fetch, no_within, too_large};
use interlocking::{Interlocking, Steps};
use plan_encoding::{BaseFault, base_of};
use rail_base::design::Design;
use rail_base::history::Verdict;
use rail_base::plan::Plan;
use rail_outside::{Shelf, Sink};
use std::alloc::{AllocError, Global};
use verify_loop::{Budgets, Tightest, tightest};

/// The reply to a search for the least time of a within, 1 to 256, for plans of so many steps, 1 to 256, with bounds or
/// without, by the names of its files. The log that shows that less time is too little is stored under the proof's name.
/// How far it is is told meanwhile.
pub(crate) fn time_reply<S: Shelf, P: Sink>(
    alloc: Global,
    shelf: &mut S,
    steps: u32,
    within: u32,
    bounds: bool,
    budgets: Budgets,
    design: &str,
    proof: &str,
    progress: &mut P,
) -> Result<Reply, Ending>
    requires at_least_one { 1 ≤ steps }
    requires at_most_256 { steps ≤ 256 }
    requires from_1 { 1 ≤ within }
    requires room { budgets.log_bytes ≡ limit_of InputFile.Proof }
    ensures replies { (files : Files) → S.known_files shelf.old ≡ Some files → RepliesSo result files
        (Some (tightest steps budgets.conflicts budgets.ticks within bounds design.now proof.now)) }
    ensures for_some_files { RepliesSome result
        (Some (tightest steps budgets.conflicts budgets.ticks within bounds design.now proof.now)) }
    ensures no_usage { IfOk result (λ reply. reply.status ≢ Status.Usage) }
    ensures refuses { RefusesFile result }
    ensures stored { (files : Files) → S.known_files shelf.old ≡ Some files
        → OnEnd result (λ s. TimeLeaves files steps within design.now proof.now s (S.known_files shelf.new)) }
    ensures uses { Uses S.asked S.fault_count shelf.old shelf.new
        (fetched design.now ∷ stored proof.now ∷ []) (result ≡ Err Ending.ShelfFault) }
    ensures tells { (files : Files) → S.known_files shelf.old ≡ Some files
        → TellsTime bounds within (files design.now) steps (P.puts progress.old) (P.puts progress.new) }
{
    let bytes = fetch(alloc, shelf, InputFile::Design, design)?;
    let interlocking = admit(alloc, bytes.as_slice())?;
    let steps = Steps { count: steps };
    if within as usize <= interlocking.design.station.withins.len() {
        return timed_in(
            alloc,
            shelf,
            interlocking,
            steps,
            within,
            bounds,
            budgets,
            proof,
            progress,
        );
    }
    Err(without_within(
        alloc,
        &interlocking,
        steps,
        within,
        base_for(bounds, within),
    ))
}

/// The base of such a search: with bounds that of live commands, in which trains come in turn that the within does not name.
fn base_for(bounds: bool, within: u32) -> BaseKind
    ensures { result ≡ base_for bounds within }
{
    if bounds {
        let within = u64::from(within);
        BaseKind::Live(Turns::Beside { within })
    } else {
        BaseKind::Plain
    }
}

/// The design has no within of the number that is asked for, or before that too many clauses.
fn without_within(
    alloc: Global,
    interlocking: &Interlocking,
    steps: Steps,
    within: u32,
    kind: BaseKind,
) -> Ending
    requires beyond { length interlocking.now.design.station.withins < within }
    ensures reads { let d = interlocking.now.design.station in ReadsOrEnds (λ (e : Station). e) (Err result)
        (and_then (with_clauses kind steps.count d) (with_within within)) }
    ensures refuses { OnlyRefuses {X = Station} (Err result) }
{
    match base_of(alloc, interlocking, steps, kind) {
        Ok(_) => ending_of(no_within(alloc)),
        Err(BaseFault::TooLarge { .. }) => ending_of(too_large(alloc)),
        Err(BaseFault::Memory) => Ending::Memory,
    }
}

/// The reply for the least time, in ticks, for a plan over the design that allows it, with what the plan's run shows.
fn least_found(
    alloc: Global,
    design: &Design,
    within: u32,
    least: u64,
    plan: &Plan,
    verdict: &Verdict,
) -> Result<Reply, AllocError>
    requires by_horizon { least ≤ horizon design.now.station }
    requires shown { verdict.now ≡ verdict_at_horizon design.now.station plan.now.steps }
    ensures { RepliesWith result (reply_for_least design.now.station within least plan.now.steps) }
{
    let ms = least * u64::from(design.station.tick_ms);
    let reply = plan_found(alloc, design, plan, verdict)?;
    let mut rest = reply.lines;
    let mut lines = Vec::new(alloc);
    lines.push(tightest_line(alloc, within, ms)?)?;
    lines.append(&mut rest)?;
    Ok(Reply {
        status: Status::Done,
        lines,
    })
}

/// The reply for what a search for the least time ended with.
fn make_reply(
    alloc: Global,
    steps: u32,
    within: u32,
    budgets: Budgets,
    found: &Tightest,
) -> Result<Reply, AllocError>
    requires from_1 { 1 ≤ within }
    requires says { (base : Kind) × (d : Station) × (within ≤ length d.withins)
        × IsTightest base (untimed d within) within steps budgets found.now }
    ensures { RepliesWith result (reply_for_time within steps budgets.conflicts budgets.ticks found.now) }
{
    match found {
        Tightest::Least {
            interlocking,
            ticks,
            plan,
            verdict,
            ..
        } => least_found(alloc, &interlocking.design, within, *ticks, plan, verdict),
        Tightest::Infeasible { .. } => infeasible(alloc, steps),
        Tightest::ConflictsSpent { .. } => conflicts_spent(alloc, budgets.conflicts),
        Tightest::TicksSpent { sum, .. } => ticks_spent(alloc, *sum, budgets.ticks),
        Tightest::LogSpent { bytes, next, .. } => log_spent(alloc, *bytes, *next),
        Tightest::TooLarge { .. } => too_large(alloc),
        Tightest::Memory => Err(AllocError),
    }
}

/// Stores the log of a search under a name, where it shows that some time is too little; else nothing.
fn keep<S: Shelf>(shelf: &mut S, name: &str, found: &Tightest) -> Result<(), Ending>
    ensures stored { (files : Files) → S.known_files shelf.old ≡ Some files
        → KeepsTime result files name.now found.now (S.known_files shelf.new) }
    ensures fails { OnlyFails result }
    ensures uses { Uses S.asked S.fault_count shelf.old shelf.new
        (stored name.now ∷ []) (result ≡ Err Ending.ShelfFault) }
{
    match found {
        Tightest::Least { log: Some(log), .. } => store(shelf, name, log.as_slice()),
        Tightest::Infeasible { log } => store(shelf, name, log.as_slice()),
        _ => Ok(()),
    }
}

/// The reply for what a search for the least time ended with. When it is made, the log is stored under the proof's name, where
/// it shows that some time is too little.
fn settle<S: Shelf>(
    alloc: Global,
    shelf: &mut S,
    steps: Steps,
    within: u32,
    budgets: Budgets,
    proof: &str,
    found: &Tightest,
) -> Result<Reply, Ending>
    requires from_1 { 1 ≤ within }
    requires says { (base : Kind) × (d : Station) × (within ≤ length d.withins)
        × IsTightest base (untimed d within) within steps.count budgets found.now }
    requires room { budgets.log_bytes ≡ limit_of InputFile.Proof }
    ensures replies { Replies result
        (reply_for_time within steps.count budgets.conflicts budgets.ticks found.now) }
    ensures no_usage { IfOk result (λ reply. reply.status ≢ Status.Usage) }
    ensures refuses { RefusesFile result }
    ensures stored { (files : Files) (name : List ℕ) (d : Station) → S.known_files shelf.old ≡ Some files
        → design_in (files name) ≡ Ok d → IsAdmitted d → within ≤ length d.withins
        → ((bounds : Bool) × IsTightest (base_for bounds within) (untimed d within) within steps.count budgets found.now)
        → OnEnd result (λ s. TimeLeaves files steps.count within name proof.now s (S.known_files shelf.new)) }
    ensures uses { Uses S.asked S.fault_count shelf.old shelf.new
        (stored proof.now ∷ []) (result ≡ Err Ending.ShelfFault) }
{
    let reply = make_reply(alloc, steps.count, within, budgets, found)?;
    keep(shelf, proof, found)?;
    Ok(reply)
}

/// The reply to a search for the least time in a design that has the within, by the name of the proof's file.
fn timed_in<S: Shelf, P: Sink>(
    alloc: Global,
    shelf: &mut S,
    interlocking: Interlocking,
    steps: Steps,
    within: u32,
    bounds: bool,
    budgets: Budgets,
    proof: &str,
    progress: &mut P,
) -> Result<Reply, Ending>
    requires from_1 { 1 ≤ within }
    requires there { within ≤ length interlocking.design.station.withins }
    requires room { budgets.log_bytes ≡ limit_of InputFile.Proof }
    ensures replies { let d = interlocking.design.station in (found : Time)
        × IsTightest (base_for bounds within) (untimed d within) within steps.count budgets found
        × FitsTightest (base_for bounds within) (untimed d within) within steps.count found
        × Replies result (timed_in bounds within d steps.count budgets.conflicts budgets.ticks found) }
    ensures no_usage { IfOk result (λ reply. reply.status ≢ Status.Usage) }
    ensures refuses { RefusesFile result }
    ensures stored { (files : Files) (name : List ℕ) → S.known_files shelf.old ≡ Some files
        → design_in (files name) ≡ Ok interlocking.design.station
        → OnEnd result (λ s. TimeLeaves files steps.count within name proof.now s (S.known_files shelf.new)) }
    ensures uses { Uses S.asked S.fault_count shelf.old shelf.new
        (stored proof.now ∷ []) (result ≡ Err Ending.ShelfFault) }
    ensures tells { let d = interlocking.design.station in
        TellsTightest (base_for bounds within) (untimed d within) within steps.count
        (P.puts progress.old) (P.puts progress.new) }
{
    let found = tightest(
        alloc,
        interlocking,
        steps,
        within,
        bounds,
        budgets,
        progress,
    );
    settle(alloc, shelf, steps, within, budgets, proof, &found)
}
