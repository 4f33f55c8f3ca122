//! The design of a text, with the greatest time put in that is given.

ghost use Rattle.cli_shell.specs.Replies.{OnlyRefuses, ReadsOrEnds};
ghost use Rattle.rail_words.specs.Requests.{IsInTimeInRange};
ghost use Rattle.why_words.specs.Wanted.{AreStepsInRange};
ghost use Rattle.why_cli.specs.Answers.{design_for, timed_for, with_time};

use cli_shell::{Ending, admit, admit_within};
use greatest_time::with_max_ms;
use interlocking::{Interlocking, Steps};
use proof_shell::timed;
use rail_base::design::Design;
use rail_words::InTime;
use std::alloc::Global;

/// The design with the greatest time put in that is given. The ending says that it has no such within, or is want of
/// memory.
fn with_time(
    alloc: Global,
    interlocking: Interlocking,
    in_time: Option<InTime>,
) -> Result<Interlocking, Ending>
    requires { IsInTimeInRange in_time }
    ensures reads { ReadsOrEnds (λ i. i.design.station) result (with_time in_time interlocking.design.station) }
    ensures refuses { OnlyRefuses result }
{
    let Some(time) = in_time else {
        return Ok(interlocking);
    };
    admit_within(alloc, &interlocking.design, time.within)?;
    let timed = with_max_ms(alloc, interlocking, time.within, time.max_ms)?;
    Ok(timed)
}

/// The same, where steps are given: the ending says before that that the design has too many clauses for so many.
fn timed_for(
    alloc: Global,
    interlocking: Interlocking,
    steps: Option<u32>,
    in_time: Option<InTime>,
) -> Result<Interlocking, Ending>
    requires steps { AreStepsInRange steps }
    requires in_time { IsInTimeInRange in_time }
    ensures reads { ReadsOrEnds (λ i. i.design.station) result (timed_for steps in_time interlocking.design.station) }
    ensures refuses { OnlyRefuses result }
{
    match steps {
        Some(count) => timed(alloc, interlocking, Steps { count }, in_time),
        None => with_time(alloc, interlocking, in_time),
    }
}

/// The design that is parsed from a text, with the greatest time put in that is given. The ending says why it is refused,
/// or is want of memory.
pub(crate) fn design_for(
    alloc: Global,
    text: &[u8],
    steps: Option<u32>,
    in_time: Option<InTime>,
) -> Result<Interlocking, Ending>
    requires steps { AreStepsInRange steps }
    requires in_time { IsInTimeInRange in_time }
    ensures reads { ReadsOrEnds (λ i. i.design.station) result (design_for steps in_time text.now) }
    ensures refuses { OnlyRefuses result }
{
    let interlocking = admit(alloc, text)?;
    timed_for(alloc, interlocking, steps, in_time)
}
