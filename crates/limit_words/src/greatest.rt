//! The greatest number of steps whose clauses are few.

ghost use Rattle.std.specs.Prelude.{◌+◌, ◌≤◌, IfOk};
ghost use Rattle.interlocking.specs.Plans.{on};
ghost use Rattle.limit_words.specs.EvenLimits.{IsEvenLimitFor};
ghost use Rattle.limit_words.specs.Limits.{IsLimitFor};

use crate::counting::count_if_few;
use clause_spec::BaseKind;
use interlocking::Interlocking;
use std::alloc::{AllocError, Global};

/// The most literals that the clauses of a search may have.
const MOST: u64 = 16_000_000;

/// How many steps can be asked for at the most where more were, and how many literals the clauses for those have, where
/// that is known.
#[derive(Clone, Copy, Debug, PartialEq, Eq)]
pub(crate) struct Limit {
    pub(crate) steps: u32,
    pub(crate) literals: Option<u64>,
}

/// The limit for so many steps where the clauses for one have so many literals, and with each step more so many more.
fn even_limit(first: u64, each: u64, steps: u32) -> Option<Limit>
    requires few { first + each ≤ 16000000 }
    requires at_least_one { 1 ≤ steps }
    requires at_most_256 { steps ≤ 256 }
    ensures { IsEvenLimitFor first each steps result }
{
    let literals = first + u64::from(steps - 1) * each;
    if literals <= MOST {
        return None;
    }
    let more = (MOST - first) / each;
    Some(Limit {
        steps: more as u32 + 1,
        literals: Some(literals),
    })
}

/// The limit for so many steps, unless they can be asked for.
pub(crate) fn limit_for(
    alloc: Global,
    interlocking: &Interlocking,
    kind: BaseKind,
    steps: u32,
) -> Result<Option<Limit>, AllocError>
    requires at_least_one { 1 ≤ steps }
    requires at_most_256 { steps ≤ 256 }
    ensures { IfOk result (λ limit. on interlocking.now (IsLimitFor kind) steps limit) }
{
    let Some(first) = count_if_few(alloc, interlocking, kind, 1)? else {
        return Ok(Some(Limit {
            steps: 0,
            literals: None,
        }));
    };
    if steps == 1 {
        return Ok(None);
    }
    let Some(second) = count_if_few(alloc, interlocking, kind, 2)? else {
        return Ok(Some(Limit {
            steps: 1,
            literals: None,
        }));
    };
    Ok(even_limit(first, second - first, steps))
}
