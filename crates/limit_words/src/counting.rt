//! How many literals there are, counted.

ghost use Rattle.std.specs.Prelude.{◌≤◌, IfOk};
ghost use Rattle.interlocking.specs.Plans.{on};
ghost use Rattle.limit_words.specs.Counted.{IsCounted};

use clause_spec::BaseKind;
use interlocking::{Interlocking, Steps};
use plan_encoding::{BaseFault, base_of};
use std::alloc::{AllocError, Global};

/// How many literals the clauses for so many steps have, where they are few.
pub(crate) fn count_if_few(
    alloc: Global,
    interlocking: &Interlocking,
    kind: BaseKind,
    steps: u32,
) -> Result<Option<u64>, AllocError>
    requires at_least_one { 1 ≤ steps }
    requires at_most_256 { steps ≤ 256 }
    ensures { IfOk result (λ literals. on interlocking.now (IsCounted kind) steps literals) }
{
    match base_of(alloc, interlocking, Steps { count: steps }, kind) {
        Ok(base) => Ok(Some(base.literals)),
        Err(BaseFault::TooLarge { .. }) => Ok(None),
        Err(BaseFault::Memory) => Err(AllocError),
    }
}
