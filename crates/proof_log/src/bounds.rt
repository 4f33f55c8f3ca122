//! Bounds from the words of a line.

ghost use Rattle.std.specs.Prelude.{◌≡◌, IfOk, Some, None, Err};
ghost use Rattle.proof_log.specs.Bounds.{bound};
ghost use Rattle.proof_log.specs.Reading.{words_left};
ghost use Rattle.proof_log.specs.declared.line.LineFault.TheVariants.{Text};

use crate::legs::some_legs;
use crate::line::LineFault;
use crate::origins::origin;
use crate::requirements::requirement;
use bound_spec::Bound;
use std::alloc::Global;

/// A bound, and the words after it.
pub fn bound<'a>(
    alloc: Global,
    words: Option<&'a [u8]>,
) -> Result<(Bound, Option<&'a [u8]>), LineFault>
    ensures ok { IfOk result (λ found. bound (words_left words.entry) ≡ Some (found.0, words_left found.1)) }
    ensures text { result ≡ Err Text → bound (words_left words.entry) ≡ None }
{
    let Some((requirement, after)) = requirement(words) else {
        return Err(LineFault::Text);
    };
    let (origin, after) = origin(alloc, requirement, after)?;
    let (legs, after) = some_legs(alloc, after)?;
    Ok((
        Bound {
            requirement,
            origin,
            legs,
        },
        after,
    ))
}
