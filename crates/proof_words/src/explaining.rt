//! A proof file explained.

ghost use Rattle.std.specs.Prelude.{◌≡◌, None, IfErr, IfOk};
ghost use Rattle.proof_judge.specs.Judged.{past_plain};
ghost use Rattle.proof_judge.specs.Outcomes.{IsPast};
ghost use Rattle.proof_words.specs.Explained.{explained_of, sentences_or};

use crate::meanings::file_sentences;
use interlocking::{Interlocking, Steps};
use log_checker::CheckResult;
use plan_encoding::BaseFault;
use proof_judge::judge;
use rail_base::design::Design;
use std::alloc::Global;

/// What a proof file says.
#[derive(Drop)]
pub enum Explained {
    /// It shows that there is no plan of so many steps. The sentences about its cones and bounds, in the order of the
    /// file, each with its LF.
    Sentences { steps: u32, lines: Vec<Vec<u8>> },
    /// It does not show that: its first bad line, and why it is bad.
    Refused(CheckResult),
}

/// What the bytes of a proof file say of a design: where it shows that there is no plan of so many steps, the sentences
/// about its cones and bounds, and else what it shows.
///
/// # Errors
///
/// `TooLarge` where the plain clauses have more than 16,000,000 literals, unless the file's head names the base of live
/// commands; `Memory` where memory is wanting.
pub fn explain(
    alloc: Global,
    interlocking: &Interlocking,
    steps: Steps,
    bytes: &[u8],
) -> Result<Explained, BaseFault>
    ensures value { IfOk result (λ e. sentences_or e
        ≡ explained_of interlocking.now.design.station steps.count bytes.now) }
    ensures fits { IfOk result (λ _. past_plain interlocking.now.design.station steps.count bytes.now ≡ None) }
    ensures fault { IfErr result (IsPast (past_plain interlocking.now.design.station steps.count bytes.now)) }
{
    let shown = judge(alloc, interlocking, steps, bytes)?;
    match shown {
        CheckResult::Yes { steps } => {
            let lines = file_sentences(alloc, interlocking, bytes)?;
            Ok(Explained::Sentences { steps, lines })
        }
        CheckResult::No { .. } => Ok(Explained::Refused(shown)),
    }
}
