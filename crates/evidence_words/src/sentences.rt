//! The sentences about the evidence of a line.

ghost use Rattle.std.specs.Prelude.{◌≡◌, true, OnOk};
ghost use Rattle.evidence_words.specs.Sentences.{evidence_sentences, names_what_is_there};
ghost use Rattle.rail_text.specs.Added.{AddsLines};
ghost use Rattle.interlocking.specs.Plans.{on};

use crate::bounds::push_bound;
use bound_spec::Evidence;
use cone_words::push_cone;
use interlocking::Interlocking;
use std::alloc::{AllocError, Global};

/// Appends the sentences about a cone or a bound, each with its LF, that a file's line of this number gives. Of a bound
/// the ticks are those that its legs take at the least.
///
/// # Errors
///
/// Want of memory alone, which leaves a prefix of the sentences.
pub fn push_evidence(
    alloc: Global,
    interlocking: &Interlocking,
    line: u64,
    evidence: &Evidence,
    lines: &mut Vec<Vec<u8>>,
) -> Result<(), AllocError>
    requires names { let i = interlocking.now in
        names_what_is_there i.design.station i.routes evidence.now ≡ true }
    ensures { OnOk result (AddsLines lines.old lines.new (on interlocking.now evidence_sentences line evidence.now)) }
{
    match evidence {
        Evidence::Cone(cone) => push_cone(alloc, interlocking, line, cone, lines),
        Evidence::Bound(bound) => push_bound(alloc, interlocking, line, bound, lines),
    }
}
