//! What is said of a proof, by its text.

ghost use Rattle.std.specs.Prelude.{◌≡◌, ◌≢◌, [], Err, IfOk, false};
ghost use Rattle.named_files.specs.Replies.{Makes, is_unread};
ghost use Rattle.proof_words.specs.Explained.{explained_of, sentences_or};
ghost use Rattle.cli_shell.specs.Replies.{OnlyRefuses, ReadsOrEnds, Replies, RepliesWith};
ghost use Rattle.proof_shell.specs.Answers.{for_file};
ghost use Rattle.why_words.specs.Wanted.{AreStepsInRange};
ghost use Rattle.why_cli.specs.Answers.{explained_where, if_in_range, sentences_or_shown, steps_for, steps_named};
ghost use Rattle.why_cli.specs.Answers.{text_explained, usage};

use crate::heads::head_lines;
use cli_shell::{Ending, Reply, Status, ending_of, one_line, too_large};
use interlocking::{Interlocking, Steps};
use log_checker::head_in;
use named_files::Unmade;
use plan_encoding::BaseFault;
use proof_log::Head;
use proof_shell::make_reply;
use proof_words::{Explained, explain};
use rail_words::InTime;
use std::alloc::{AllocError, Global};

/// The words ask for nothing, or for no number of steps.
fn usage(alloc: Global) -> Result<Reply, AllocError>
    ensures { RepliesWith result usage }
{
    let line = Vec::from_slice(
        alloc,
        b"usage: rcv_why [--within W --max-ms X] [--steps N] DESIGN [PROOF or PLAN]\n",
    )?;
    one_line(alloc, Status::Usage, line)
}

/// The reply to words that ask for nothing.
pub(crate) fn usage_made<'a>(alloc: Global) -> Result<Reply, Unmade<'a>>
    ensures makes { Makes (λ a. a ≡ usage) [] result }
    ensures read { is_unread result ≡ false }
{
    let reply = usage(alloc)?;
    Ok(reply)
}

/// What a proof says of a design, by the texts of both: in sentences where it shows that there is no plan.
fn reply_for(
    alloc: Global,
    in_time: Option<InTime>,
    design_text: &[u8],
    text: &[u8],
    said: Explained,
) -> Result<Reply, AllocError>
    ensures { RepliesWith result (sentences_or_shown in_time design_text.now text.now (sentences_or said)) }
{
    match said {
        Explained::Sentences { steps, mut lines } => {
            let mut all = head_lines(alloc, in_time, design_text, text, steps)?;
            all.append(&mut lines)?;
            Ok(Reply {
                status: Status::Done,
                lines: all,
            })
        }
        Explained::Refused(shown) => make_reply(alloc, shown),
    }
}

/// A number of steps, where it is from 1 to 256.
fn if_in_range(steps: u64) -> Option<u32>
    ensures value { result ≡ if_in_range steps }
    ensures range { AreStepsInRange result }
{
    if 1 <= steps && steps <= 256 {
        Some(steps as u32)
    } else {
        None
    }
}

/// The number of steps that a head names, from 1 to 256.
fn steps_named(head: Option<Head>) -> Option<u32>
    ensures value { result ≡ steps_named head }
    ensures range { AreStepsInRange result }
{
    match head {
        None => None,
        Some(Head::Unnamed) => None,
        Some(Head::Of(question)) => if_in_range(question.steps),
    }
}

/// What the text of a proof says of a design. The ending says that the design has too many clauses for it, or is want of
/// memory.
fn said_of(
    alloc: Global,
    interlocking: &Interlocking,
    steps: Steps,
    text: &[u8],
) -> Result<Explained, Ending>
    ensures reads { let d = interlocking.now.design.station in
        ReadsOrEnds (λ _. d) result (for_file steps.count d text.now) }
    ensures refuses { OnlyRefuses result }
    ensures said { let d = interlocking.now.design.station in
        IfOk result (λ said. sentences_or said ≡ explained_of d steps.count text.now) }
{
    match explain(alloc, interlocking, steps, text) {
        Ok(said) => Ok(said),
        Err(BaseFault::TooLarge { .. }) => Err(ending_of(too_large(alloc))),
        Err(BaseFault::Memory) => Err(Ending::Memory),
    }
}

/// The reply for a number of steps, by the text of the proof.
fn text_explained(
    alloc: Global,
    in_time: Option<InTime>,
    design_text: &[u8],
    interlocking: &Interlocking,
    steps: Steps,
    text: &[u8],
) -> Result<Reply, Ending>
    ensures replies { Replies result
        (text_explained in_time design_text.now steps.count interlocking.now.design.station text.now) }
    ensures no_fault { result ≢ Err Ending.ShelfFault }
{
    let said = said_of(alloc, interlocking, steps, text)?;
    let reply = reply_for(alloc, in_time, design_text, text, said)?;
    Ok(reply)
}

/// The reply for the steps that are given, or else as many as the head of the proof names, by its text. The design is
/// that of its text with the greatest time put in that is given.
pub(crate) fn text_reply(
    alloc: Global,
    in_time: Option<InTime>,
    design_text: &[u8],
    interlocking: &Interlocking,
    steps: Option<u32>,
    text: &[u8],
) -> Result<Reply, Ending>
    requires { AreStepsInRange steps }
    ensures replies { let d = interlocking.now.design.station in
        Replies result (explained_where in_time design_text.now (steps_for steps text.now) d text.now) }
    ensures no_fault { result ≢ Err Ending.ShelfFault }
{
    match steps.or(steps_named(head_in(text))) {
        Some(count) => text_explained(
            alloc,
            in_time,
            design_text,
            interlocking,
            Steps { count },
            text,
        ),
        None => {
            let reply = usage(alloc)?;
            Ok(reply)
        }
    }
}
