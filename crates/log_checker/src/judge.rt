//! All lines of a proof file.

ghost use Rattle.std.specs.Prelude.{◌≡◌, ◌+◌, ◌<◌, ◌^◌, ℕ, IfOk, Ok, length};
ghost use Rattle.rail_text.specs.Cursors.{lines_left};
ghost use Rattle.rail_text.specs.Pieces.{pieces};
ghost use Rattle.log_checker.specs.Verdict.{at_first, head_in, result_from, log_verdict};
ghost use Rattle.log_checker.specs.Laws.{Denies};
ghost use Rattle.log_checker.specs.declared.check_result.CheckResult.TheVariants.{Yes};

use crate::check_result::{CheckResult, Reason};
use crate::database::{ClauseDatabase, Fault};
use crate::line::Judge;
use crate::refuter::Refuter;
use clause_spec::VariableCounts;
use proof_log::{Head, read_head, write_head};
use rail_text::Cursor;
use rup_check::Marks;
use sat_clause::Arena;
use std::alloc::{AllocError, Global};

/// The head of a proof file, where its first line is one and an LF ends it.
pub fn head_in(bytes: &[u8]) -> Option<Head>
    ensures { result ≡ head_in (pieces bytes.now) }
{
    let mut lines = Cursor::new(bytes);
    let first = lines.next()?;
    if !first.ended {
        return None;
    }
    read_head(first.bytes)
}

/// Judges a proof file that is to have this head, over the clauses of a base, and those that its cones and bounds show.
///
/// The answer is the number of steps for which the file shows that there is no plan, or the first bad line. The time is
/// linear in the file, in the literals of the clauses that its hints name, and in what its cones and bounds take.
pub fn judge_log<R: Refuter>(
    alloc: Global,
    refuter: &R,
    head: Head,
    base: Arena,
    variables: VariableCounts,
    bytes: &[u8],
) -> Result<CheckResult, AllocError>
    ensures value { IfOk result (λ shown. shown
        ≡ log_verdict head (R.refute refuter.now) variables base bytes.now) }
    ensures sound { (k : ℕ) → result ≡ Ok (Yes k) → Denies (R.refute refuter.now) variables base k }
{
    let judge = Judge {
        alloc,
        refuter,
        head,
        variables,
    };
    result_of(&judge, base, bytes)
}

impl<R: Refuter> Judge<'_, R> {
    /// What the lines after the head show.
    fn judge_lines(&self, base: Arena, lines: Cursor<'_>) -> Result<CheckResult, AllocError>
        requires below_2_64 { length (lines_left lines) + 2 < 2 ^ 64 }
        ensures { IfOk result (λ shown. shown
            ≡ result_from self.now.head (R.refute self.now.refuter.now) self.now.variables 2 (at_first base)
            (lines_left lines.entry)) }
    {
        let mut marks = Marks::new(self.alloc);
        let mut database = ClauseDatabase::new(self.alloc, base)?;
        let mut here = 2;
        'lines: for piece in lines {
            match self.take_piece(&mut marks, &mut database, &piece) {
                Ok(()) => {}
                Err(Fault::Bad(reason)) => return Ok(CheckResult::No { line: here, reason }),
                Err(Fault::Memory) => return Err(AllocError),
            }
            here += 1;
        }
        match database.shown_steps() {
            Some(steps) => Ok(CheckResult::Yes { steps }),
            None => Ok(CheckResult::No {
                line: here,
                reason: Reason::NoFinalLine,
            }),
        }
    }
}

/// What a proof file with the judge's head shows.
fn result_of<R: Refuter>(
    judge: &Judge<'_, R>,
    base: Arena,
    bytes: &[u8],
) -> Result<CheckResult, AllocError>
    ensures { IfOk result (λ shown. shown
        ≡ log_verdict judge.now.head (R.refute judge.now.refuter.now) judge.now.variables base bytes.now) }
{
    let head = write_head(judge.alloc, judge.head)?;
    let mut lines = Cursor::new(bytes);
    let Some(first) = lines.next() else {
        return Ok(CheckResult::No {
            line: 1,
            reason: Reason::NoFinalLine,
        });
    };
    if !first.ended || first.bytes != head.as_slice() {
        return Ok(CheckResult::No {
            line: 1,
            reason: Reason::Text,
        });
    }
    judge.judge_lines(base, lines)
}
