//! A proof checked against a design.

ghost use Rattle.std.specs.Prelude.{◌≡◌, ◌≤◌, [], ◌∷◌, true, IfOk, Some, ℕ, List};
ghost use Rattle.rail_outside.specs.Asks.{fetched};
ghost use Rattle.rail_outside.specs.Files.{Files};
ghost use Rattle.clause_spec.specs.declared.question.BaseKind.TheVariants.{Plain};
ghost use Rattle.plan_encoding.specs.Bases.{IsBaseOf};
ghost use Rattle.cli_shell.specs.Uses.{OnlyFetches};
ghost use Rattle.cli_shell.specs.Statuses.{is_verdict};
ghost use Rattle.proof_judge.specs.Judged.{judged};
ghost use Rattle.proof_shell.specs.Answers.{check_reply, for_file, reply_for, timed, with_clauses, with_proof};
ghost use Rattle.rail_words.specs.Requests.{IsInTimeInRange};
ghost use Rattle.cli_shell.specs.Replies.{RepliesWith, ReadsOrEnds, RefusesFile, OnlyRefuses, Replies};

use crate::texts::{no_line, yes_line};
use cli_shell::{
    Ending, InputFile, Reply, Status, admit, ending_of, fetch, no_within, one_line, too_large,
};
use greatest_time::with_max_ms;
use interlocking::{Interlocking, Steps};
use log_checker::CheckResult;
use plan_encoding::{Base, BaseFault, base};
use proof_judge::judge;
use rail_base::design::Design;
use rail_outside::Shelf;
use rail_words::InTime;
use std::alloc::{AllocError, Global};

/// The clauses of a design, for plans of up to so many steps. The ending says that they are too many, or is want of
/// memory.
pub fn encode(alloc: Global, interlocking: &Interlocking, steps: Steps) -> Result<Base, Ending>
    ensures reads { let d = interlocking.now.design.station in
        ReadsOrEnds (λ _. d) result (with_clauses Plain steps.count d) }
    ensures refuses { OnlyRefuses result }
    ensures base { let i = interlocking.now in IfOk result (IsBaseOf Plain i.design.station i.routes steps.count) }
{
    match base(alloc, interlocking, steps) {
        Ok(base) => Ok(base),
        Err(BaseFault::TooLarge { .. }) => Err(ending_of(too_large(alloc))),
        Err(BaseFault::Memory) => Err(Ending::Memory),
    }
}

/// What a proof file shows, in a line. The error is want of memory.
pub fn make_reply(alloc: Global, shown: CheckResult) -> Result<Reply, AllocError>
    ensures replies { RepliesWith result (reply_for shown) }
    ensures verdict { IfOk result (λ reply. is_verdict reply.status ≡ true) }
{
    match shown {
        CheckResult::Yes { steps } => one_line(alloc, Status::Done, yes_line(alloc, steps)?),
        CheckResult::No { line, reason } => one_line(
            alloc,
            Status::No,
            no_line(alloc, line, reason)?,
        ),
    }
}

/// The design with a greatest time put in, where it has this within. Where it has none, the ending says so, or that the
/// design has too many clauses, or is want of memory.
fn with_time(
    alloc: Global,
    interlocking: Interlocking,
    steps: Steps,
    time: InTime,
) -> Result<Interlocking, Ending>
    requires { IsInTimeInRange (Some time) }
    ensures reads { ReadsOrEnds (λ i. i.design.station) result
        (timed steps.count (Some time) interlocking.design.station) }
    ensures refuses { OnlyRefuses result }
{
    if time.within as usize <= interlocking.design.station.withins.len() {
        let timed = with_max_ms(alloc, interlocking, time.within, time.max_ms)?;
        return Ok(timed);
    }
    let _base = encode(alloc, &interlocking, steps)?;
    Err(ending_of(no_within(alloc)))
}

/// The design with the greatest time put in that is given. The ending says that it has no such within, or before that
/// that it has too many clauses, or is want of memory.
pub fn timed(
    alloc: Global,
    interlocking: Interlocking,
    steps: Steps,
    in_time: Option<InTime>,
) -> Result<Interlocking, Ending>
    requires { IsInTimeInRange in_time }
    ensures reads { ReadsOrEnds (λ i. i.design.station) result (timed steps.count in_time interlocking.design.station) }
    ensures refuses { OnlyRefuses result }
{
    match in_time {
        Some(time) => with_time(alloc, interlocking, steps, time),
        None => Ok(interlocking),
    }
}

/// The reply to a check, by the names of its files. The steps are 1 to 256. The proof is judged against the design with
/// the greatest time put in that is given. The ending refuses one of the files, or is want of memory or a fault of the
/// shelf.
pub fn check_reply<S: Shelf>(
    alloc: Global,
    shelf: &mut S,
    steps: u32,
    in_time: Option<InTime>,
    design: &str,
    proof: &str,
) -> Result<Reply, Ending>
    requires at_least_one { 1 ≤ steps }
    requires at_most_256 { steps ≤ 256 }
    requires in_range { IsInTimeInRange in_time }
    ensures replies { (files : Files) → S.known_files shelf.old ≡ Some files
        → Replies result (check_reply steps in_time (files design.now) (files proof.now)) }
    ensures for_some_files { (design_bytes proof_bytes : List ℕ)
        × Replies result (check_reply steps in_time design_bytes proof_bytes) }
    ensures verdict { IfOk result (λ reply. is_verdict reply.status ≡ true) }
    ensures refuses { RefusesFile result }
    ensures uses { OnlyFetches S.known_files S.asked S.fault_count shelf.old shelf.new
        (fetched design.now ∷ fetched proof.now ∷ []) (result ≡ Err Ending.ShelfFault) }
{
    let design_bytes = fetch(alloc, shelf, InputFile::Design, design)?;
    let interlocking = admit(alloc, design_bytes.as_slice())?;
    let steps = Steps { count: steps };
    let interlocking = timed(alloc, interlocking, steps, in_time)?;
    checked_proof(alloc, shelf, &interlocking, steps, proof)
}

/// What a proof file shows of a design. The ending says that the design has too many clauses for it, or is want of
/// memory.
fn shown_of(
    alloc: Global,
    interlocking: &Interlocking,
    steps: Steps,
    bytes: &[u8],
) -> Result<CheckResult, Ending>
    ensures reads { let d = interlocking.now.design.station in
        ReadsOrEnds (λ _. d) result (for_file steps.count d bytes.now) }
    ensures refuses { OnlyRefuses result }
    ensures shown { IfOk result (λ shown. shown ≡ judged interlocking.now.design.station steps.count bytes.now) }
{
    match judge(alloc, interlocking, steps, bytes) {
        Ok(shown) => Ok(shown),
        Err(BaseFault::TooLarge { .. }) => Err(ending_of(too_large(alloc))),
        Err(BaseFault::Memory) => Err(Ending::Memory),
    }
}

/// The reply to a check of a design, by the name of the proof's file.
fn checked_proof<S: Shelf>(
    alloc: Global,
    shelf: &mut S,
    interlocking: &Interlocking,
    steps: Steps,
    proof: &str,
) -> Result<Reply, Ending>
    ensures replies { (files : Files) → S.known_files shelf.old ≡ Some files
        → Replies result (with_proof steps.count interlocking.now.design.station (files proof.now)) }
    ensures for_some_bytes { (bytes : List ℕ)
        × Replies result (with_proof steps.count interlocking.now.design.station bytes) }
    ensures verdict { IfOk result (λ reply. is_verdict reply.status ≡ true) }
    ensures refuses { RefusesFile result }
    ensures uses { OnlyFetches S.known_files S.asked S.fault_count shelf.old shelf.new
        (fetched proof.now ∷ []) (result ≡ Err Ending.ShelfFault) }
{
    let bytes = fetch(alloc, shelf, InputFile::Proof, proof)?;
    let shown = shown_of(alloc, interlocking, steps, bytes.as_slice())?;
    let reply = make_reply(alloc, shown)?;
    Ok(reply)
}
