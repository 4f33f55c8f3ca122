//! Origins from the words of a line.

ghost use Rattle.std.specs.Prelude.{◌≡◌, Some, None, Err};
ghost use Rattle.bound_spec.specs.Certificates.{violation_of};
ghost use Rattle.proof_log.specs.Parts.{made};
ghost use Rattle.proof_log.specs.Reading.{words_left, ReadsPart};
ghost use Rattle.proof_log.specs.declared.line.LineFault.TheVariants.{Text};
ghost use Rattle.proof_log.specs.Bounds.{cone_by, cone_parts, origin_of, origin};

use crate::cones::{cone_pairs, some_trains};
use crate::line::LineFault;
use crate::parts::plain_number;
use crate::words::first_word;
use bound_spec::{Origin, Requirement};
use cone_spec::Cone;
use rail_base::plan::Violation;
use std::alloc::Global;

/// An origin for a requirement, and the words after it.
pub fn origin<'a>(
    alloc: Global,
    requirement: Requirement,
    words: Option<&'a [u8]>,
) -> Result<(Origin, Option<&'a [u8]>), LineFault>
    ensures ok { ReadsPart result (origin requirement (words_left words.entry)) }
    ensures text { result ≡ Err Text → origin requirement (words_left words.entry) ≡ None }
{
    let Some(text) = words else {
        return Err(LineFault::Text);
    };
    let (kind, after) = first_word(text);
    origin_of(alloc, requirement, kind, after)
}

/// How a plan fails that doesn't meet a requirement: at a command, the first grant of its train.
fn violation_of(requirement: Requirement) -> Violation
    ensures { result ≡ violation_of requirement }
{
    match requirement {
        Requirement::Within { within } => Violation::Within { within },
        Requirement::Order { order } => Violation::Order { order },
        Requirement::Visit { train, visit } => Violation::Visit { train, visit },
        Requirement::Grant { command } => Violation::Grant {
            train: command.train,
            command: 1,
        },
    }
}

/// What a cone of a requirement says, after the word `cone`.
fn cone<'a>(
    alloc: Global,
    requirement: Requirement,
    words: Option<&'a [u8]>,
) -> Result<(Origin, Option<&'a [u8]>), LineFault>
    ensures ok { ReadsPart result (made (cone_by requirement) (cone_parts (words_left words.entry))) }
    ensures text { result ≡ Err Text → made (cone_by requirement) (cone_parts (words_left words.entry)) ≡ None }
{
    let Some((tick, after)) = plain_number(words) else {
        return Err(LineFault::Text);
    };
    let (trains, after) = some_trains(alloc, after)?;
    let (pairs, after) = cone_pairs(alloc, after)?;
    let cone = Cone {
        trains,
        pairs,
        violation: violation_of(requirement),
    };
    Ok((Origin::Cone { tick, cone }, after))
}

/// An origin of a kind for a requirement, by what stands after the kind's word.
fn origin_of<'a>(
    alloc: Global,
    requirement: Requirement,
    kind: &[u8],
    words: Option<&'a [u8]>,
) -> Result<(Origin, Option<&'a [u8]>), LineFault>
    ensures ok { ReadsPart result (origin_of requirement kind.now (words_left words.entry)) }
    ensures text { result ≡ Err Text → origin_of requirement kind.now (words_left words.entry) ≡ None }
{
    if kind == b"from".as_slice() {
        Ok((Origin::Visit, words))
    } else if kind == b"zero".as_slice() {
        Ok((Origin::Start, words))
    } else if kind == b"one".as_slice() {
        Ok((Origin::FirstTick, words))
    } else if kind == b"cone".as_slice() {
        cone(alloc, requirement, words)
    } else {
        Err(LineFault::Text)
    }
}
