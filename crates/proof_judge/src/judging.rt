//! A proof file judged over the clauses of a design.

ghost use Rattle.std.specs.Prelude.{◌≡◌, ℕ, None, IfErr, IfOk, Ok, Some};
ghost use Rattle.std.specs.Option.{ForSome};
ghost use Rattle.rail_spec.specs.Feasible.{IsInfeasible};
ghost use Rattle.log_checker.specs.declared.check_result.CheckResult.TheVariants.{No, Yes};
ghost use Rattle.log_checker.specs.Verdict.{head_in, log_verdict};
ghost use Rattle.rail_text.specs.Pieces.{pieces};
ghost use Rattle.clause_spec.specs.declared.question.BaseKind.TheVariants.{Plain};
ghost use Rattle.plan_encoding.specs.Bases.{IsBaseOf};
ghost use Rattle.proof_log.specs.declared.head.Head.TheVariants.{Of, Unnamed};
ghost use Rattle.proof_log.specs.Heads.{base_of};
ghost use Rattle.proof_judge.specs.Judged.{is_asked_of, judged, judged_by, judged_under, names_within};
ghost use Rattle.proof_judge.specs.Judged.{past_first, past_plain, refuted};
ghost use Rattle.proof_judge.specs.Outcomes.{IsIfSmall, IsPast, IsTooLarge};

use crate::evidence::ByDesign;
use clause_spec::{BaseKind, Question, Turns, VariableCounts};
use cone_clause::Contention;
use interlocking::{Interlocking, Steps};
use log_checker::{CheckResult, Reason, head_in, judge_log};
use plan_encoding::{Base, BaseFault, base, base_of, extended};
use proof_log::Head;
use rail_base::design::Design;
use sat_clause::Arena;
use std::alloc::{AllocError, Global};

/// What the bytes of a proof file show of a design: that it has no plan of so many steps, or the first bad line. They
/// are judged over the clauses of the base that the file's head names; without a head over the plain ones.
///
/// # Errors
///
/// `TooLarge` where the plain clauses have more than 16,000,000 literals, unless the head names the base of live
/// commands; `Memory` where memory is wanting.
pub fn judge(
    alloc: Global,
    interlocking: &Interlocking,
    steps: Steps,
    bytes: &[u8],
) -> Result<CheckResult, BaseFault>
    ensures value { IfOk result (λ shown. shown ≡ judged interlocking.now.design.station steps.count bytes.now) }
    ensures fits { IfOk result (λ _. past_plain interlocking.now.design.station steps.count bytes.now ≡ None) }
    ensures fault { IfErr result (IsPast (past_plain interlocking.now.design.station steps.count bytes.now)) }
    ensures sound { (k : ℕ) → result ≡ Ok (Yes k) → IsInfeasible interlocking.now.design.station k }
{
    match head_in(bytes) {
        Some(Head::Of(question)) => judge_question(alloc, interlocking, steps, question, bytes),
        Some(Head::Unnamed) => judge_unnamed(alloc, interlocking, steps, bytes),
        None => judge_unnamed(alloc, interlocking, steps, bytes),
    }
}

/// What a head of a file, by itself, is bad for.
fn bad_head(reason: Reason) -> CheckResult
    ensures { result ≡ No 1 reason }
{
    CheckResult::No { line: 1, reason }
}

/// Whether a within that a base names is one of the design.
fn names_within(base: BaseKind, design: &Design) -> bool
    ensures { result ≡ names_within base design.now.station }
{
    match base {
        BaseKind::Live(Turns::Beside { within }) => {
            1 <= within && within <= design.station.withins.len() as u64
        }
        BaseKind::Plain | BaseKind::Sorted | BaseKind::Normal | BaseKind::Live(Turns::All) => true,
    }
}

/// Whether a question is asked of designs of this version and of so many steps, and names nothing that the design hasn't.
fn is_asked_of(question: Question, interlocking: &Interlocking, steps: Steps) -> bool
    ensures { result ≡ is_asked_of question interlocking.now.design.station steps.count }
{
    names_within(question.base, &interlocking.design)
        && question.version == u64::from(interlocking.design.station.version)
        && question.steps == u64::from(steps.count)
}

/// The base that a head names, or none where its clauses are too many. Where it is not that of live commands the plain
/// clauses come first, and the error says that they are too many.
fn named_base(
    alloc: Global,
    interlocking: &Interlocking,
    steps: Steps,
    kind: BaseKind,
) -> Result<Option<Base>, BaseFault>
    ensures base { let i = interlocking.now in IfOk result (λ found. ForSome found
        (IsBaseOf kind i.design.station i.routes steps.count)) }
    ensures none { let i = interlocking.now in IfOk result (λ found. found ≡ None
        → IsTooLarge kind i.design.station i.routes steps.count) }
    ensures fits { let i = interlocking.now in
        IfOk result (λ _. past_first kind i.design.station i.routes steps.count ≡ None) }
    ensures fault { let i = interlocking.now in
        IfErr result (IsPast (past_first kind i.design.station i.routes steps.count)) }
{
    if let BaseKind::Live(_) = kind {
        return if_small(base_of(alloc, interlocking, steps, kind));
    }
    let plain = base(alloc, interlocking, steps)?;
    if_small(extended(alloc, interlocking, plain, kind))
}

/// A base that was made, or none where its clauses were too many.
fn if_small(made: Result<Base, BaseFault>) -> Result<Option<Base>, BaseFault>
    ensures { IsIfSmall made result }
{
    match made {
        Ok(base) => Ok(Some(base)),
        Err(BaseFault::TooLarge { .. }) => Ok(None),
        Err(BaseFault::Memory) => Err(BaseFault::Memory),
    }
}

/// What the bytes of a file show whose head names a question.
fn judge_question(
    alloc: Global,
    interlocking: &Interlocking,
    steps: Steps,
    question: Question,
    bytes: &[u8],
) -> Result<CheckResult, BaseFault>
    ensures value { IfOk result (λ shown. shown
        ≡ judged_by interlocking.now.design.station steps.count bytes.now (Some (Of question))) }
    ensures fits { let i = interlocking.now in
        IfOk result (λ _. past_first question.base i.design.station i.routes steps.count ≡ None) }
    ensures fault { let i = interlocking.now in
        IfErr result (IsPast (past_first question.base i.design.station i.routes steps.count)) }
{
    let named = named_base(alloc, interlocking, steps, question.base)?;
    if !is_asked_of(question, interlocking, steps) {
        return Ok(bad_head(Reason::HeadDiffers));
    }
    let Some(base) = named else {
        return Ok(bad_head(Reason::BaseTooLarge));
    };
    let shown = judge_base(alloc, interlocking, Head::Of(question), base, bytes)?;
    Ok(shown)
}

/// What the bytes of a file show whose head names no question.
fn judge_unnamed(
    alloc: Global,
    interlocking: &Interlocking,
    steps: Steps,
    bytes: &[u8],
) -> Result<CheckResult, BaseFault>
    ensures value { IfOk result (λ shown. shown
        ≡ judged_under Unnamed interlocking.now.design.station steps.count bytes.now) }
    ensures fits { let i = interlocking.now in
        IfOk result (λ _. past_first Plain i.design.station i.routes steps.count ≡ None) }
    ensures fault { let i = interlocking.now in
        IfErr result (IsPast (past_first Plain i.design.station i.routes steps.count)) }
{
    let base = base(alloc, interlocking, steps)?;
    let shown = judge_base(alloc, interlocking, Head::Unnamed, base, bytes)?;
    Ok(shown)
}

/// What the bytes of a file that is to have this head show over the base that it names.
fn judge_base(
    alloc: Global,
    interlocking: &Interlocking,
    head: Head,
    base: Base,
    bytes: &[u8],
) -> Result<CheckResult, AllocError>
    requires base { let i = interlocking.now in
        IsBaseOf (base_of head) i.design.station i.routes base.numbering.steps base }
    ensures { IfOk result (λ shown. shown
        ≡ judged_under head interlocking.now.design.station base.numbering.steps bytes.now) }
{
    let Base {
        numbering,
        clauses,
        ..
    } = base;
    let kind = head.base();
    let contention = Contention {
        interlocking,
        pairs: numbering.pairs(),
    };
    let design = ByDesign {
        contention,
        kind,
        steps: numbering.steps(),
    };
    let variables = numbering.variables(kind);
    judge_clauses(alloc, &design, head, variables, clauses, bytes)
}

/// What the bytes of a file that is to have this head show over these variables and clauses.
fn judge_clauses(
    alloc: Global,
    design: &ByDesign,
    head: Head,
    variables: VariableCounts,
    clauses: Arena,
    bytes: &[u8],
) -> Result<CheckResult, AllocError>
    ensures { let d = design.now.contention.interlocking.now.design.station in
        IfOk result (λ shown. shown
        ≡ log_verdict head (refuted design.now.kind d design.now.steps.count) variables clauses bytes.now) }
{
    judge_log(alloc, design, head, clauses, variables, bytes)
}
