//! One line of a proof file. Of the clauses nothing is said after a line that was not taken.

ghost use Rattle.std.specs.Prelude.{◌≡◌, nat_le, IfOk, OnOk, Ok, Err, Some, None, if◌then◌else◌};
ghost use Rattle.std.specs.List.{list_all};
ghost use Rattle.rail_text.specs.Lines.{line_of_piece};
ghost use Rattle.proof_log.specs.Heads.{base_of};
ghost use Rattle.log_checker.specs.Verdict.{if_within, may_stand, parsed, steps_denied, taken};
ghost use Rattle.log_checker.specs.declared.check_result.Reason.{Reason};
ghost use Rattle.log_checker.specs.declared.check_result.Reason.TheVariants.{Text};
ghost use Rattle.log_checker.specs.declared.database.Fault.TheVariants.{Bad};
ghost use Rattle.log_checker.specs.Faults.{IfBad};

use crate::check_result::Reason;
use crate::database::{ClauseDatabase, Fault};
use crate::refuter::Refuter;
use bound_spec::Evidence;
use clause_spec::{BaseKind, VariableCounts};
use proof_log::{Head, Line, LineFault, read_line};
use rail_text::Piece;
use rup_check::Marks;
use sat_clause::Lit;
use std::alloc::Global;

impl<R: Refuter> Judge<'_, R> {
    /// Takes a line.
    pub fn take(
        &self,
        marks: &mut Marks,
        database: &mut ClauseDatabase,
        line: &Line,
    ) -> Result<(), Fault>
        ensures ok { OnOk result
            (taken self.now.head (R.refute self.now.refuter.now) self.now.variables database.old
            (Some line.now)
            ≡ Ok database.new) }
        ensures bad { (reason : Reason) → result ≡ Err (Bad reason)
            → taken self.now.head (R.refute self.now.refuter.now) self.now.variables database.old
            (Some line.now)
            ≡ Err reason }
    {
        match line {
            Line::Derive { clause, hints } => {
                let shown = deny_steps(self.variables, clause.as_slice());
                database.derive(marks, clause.as_slice(), hints.as_slice(), shown)
            }
            Line::Refute { evidence } => database.refute(self.alloc, self.refuter, evidence),
            Line::Forget { clauses } => database.forget(clauses.as_slice()),
        }
    }

    /// Takes the line that is parsed from a piece of a file.
    pub fn take_piece(
        &self,
        marks: &mut Marks,
        database: &mut ClauseDatabase,
        piece: &Piece<'_>,
    ) -> Result<(), Fault>
        ensures ok { OnOk result
            (taken self.now.head (R.refute self.now.refuter.now) self.now.variables database.old
            (parsed (base_of self.now.head) self.now.variables.count (line_of_piece piece.now)) ≡ Ok database.new) }
        ensures bad { (reason : Reason) → result ≡ Err (Bad reason)
            → taken self.now.head (R.refute self.now.refuter.now) self.now.variables database.old
            (parsed (base_of self.now.head) self.now.variables.count (line_of_piece piece.now)) ≡ Err reason }
    {
        match line_in(self.alloc, self.head.base(), self.variables.count, piece) {
            Ok(line) => self.take(marks, database, &line),
            Err(fault) => Err(fault),
        }
    }
}

/// Whether no variable of the clause is past the last one.
fn are_within(clause: &[Lit], vars: u32) -> bool
    ensures { result ≡ list_all (λ l. nat_le l.var vars) clause.now }
{
    clause.iter().all(|lit| lit.var <= vars)
}

/// Whether a cone or a bound may stand in a file on this base.
fn may_stand(base: BaseKind, evidence: &Evidence) -> bool
    ensures { result ≡ may_stand base evidence.now }
{
    match (base, evidence) {
        (_, Evidence::Cone(_)) => true,
        (BaseKind::Plain | BaseKind::Normal, Evidence::Bound(_)) => false,
        (BaseKind::Sorted | BaseKind::Live(_), Evidence::Bound(_)) => true,
    }
}

/// Whether no variable of a clause that the line derives is past the last one, and it may stand in a file on this base.
fn is_within(base: BaseKind, line: &Line, vars: u32) -> bool
    ensures { (if result then Some line.now else None) ≡ if_within base vars (Some line.now) }
{
    match line {
        Line::Derive { clause, .. } => are_within(clause.as_slice(), vars),
        Line::Refute { evidence } => may_stand(base, evidence),
        Line::Forget { .. } => true,
    }
}

/// The line that is parsed from a piece of a file.
fn line_in(alloc: Global, base: BaseKind, vars: u32, piece: &Piece<'_>) -> Result<Line, Fault>
    ensures ok { IfOk result (λ line. parsed base vars (line_of_piece piece.now) ≡ Some line) }
    ensures bad { IfBad result (λ reason. (reason ≡ Text) × (parsed base vars (line_of_piece piece.now) ≡ None)) }
{
    if !piece.ended {
        return Err(Fault::Bad(Reason::Text));
    }
    let line = match read_line(alloc, piece.bytes) {
        Ok(line) => line,
        Err(LineFault::Text) => return Err(Fault::Bad(Reason::Text)),
        Err(LineFault::Memory) => return Err(Fault::Memory),
    };
    if !is_within(base, &line, vars) {
        return Err(Fault::Bad(Reason::Text));
    }
    Ok(line)
}

/// Lines after a head, judged over a base of these variables.
#[derive(Drop)]
pub struct Judge<'a, R: Refuter> {
    pub alloc: Global,
    pub refuter: &'a R,
    pub head: Head,
    pub variables: VariableCounts,
}

/// For how many steps a clause shows that there is no plan.
fn deny_steps(variables: VariableCounts, clause: &[Lit]) -> Option<u32>
    ensures { result ≡ steps_denied variables clause.now }
{
    match clause {
        [] => Some(variables.steps),
        [only] => {
            let step = only.var.saturating_sub(variables.before_selectors);
            if only.negated && 1 <= step && step <= variables.steps {
                Some(step)
            } else {
                None
            }
        }
        _ => None,
    }
}
