//! Whether what a certificate names is there in a design.

ghost use Rattle.std.specs.Prelude.{◌≡◌, true, IfOk};
ghost use Rattle.bound_spec.specs.Validity.{names_design};
ghost use Rattle.bound_design.specs.Named.{is_chain, is_stated, names_fit};
ghost use Rattle.interlocking.specs.Plans.{on};

use crate::choices::are_few_choices;
use crate::legs::{are_few_places, legs_in_design};
use crate::lists::is_empty;
use crate::meeting::legs_meet;
use crate::origin::origin_in_design;
use crate::requirement;
use crate::requirement::requirement_in_design;
use bound_spec::{Bound, last_train};
use interlocking::Interlocking;
use std::alloc::{AllocError, Global};

/// Whether what a certificate names is there in the design, in order, and its legs can wait for each other.
///
/// # Errors
///
/// Want of memory alone.
pub fn names_design(
    alloc: Global,
    interlocking: &Interlocking,
    bound: &Bound,
) -> Result<bool, AllocError>
    ensures { IfOk result (λ b. b ≡ on interlocking.now names_design bound.now) }
{
    if !is_stated(interlocking, bound) {
        return Ok(false);
    }
    if !is_chain(interlocking, bound) {
        return Ok(false);
    }
    origin_in_design(alloc, interlocking, bound)
}

/// Whether the design has what is required and what the legs name.
fn names_fit(interlocking: &Interlocking, bound: &Bound) -> bool
    ensures { result ≡ names_fit interlocking.now bound.now }
{
    let legs = bound.legs.as_slice();
    requirement_in_design(interlocking, bound.requirement)
        && !is_empty(legs)
        && legs_in_design(interlocking, legs)
}

/// Whether that is so, and the legs have few places and choices.
fn is_stated(interlocking: &Interlocking, bound: &Bound) -> bool
    ensures { result ≡ is_stated interlocking.now bound.now }
{
    if !names_fit(interlocking, bound) {
        return false;
    }
    let legs = bound.legs.as_slice();
    are_few_places(legs) && are_few_choices(legs)
}

/// Whether the legs wait for each other, and the last is of the train of which something is required.
fn is_chain(interlocking: &Interlocking, bound: &Bound) -> bool
    requires { is_stated interlocking.now bound.now ≡ true }
    ensures { result ≡ is_chain interlocking.now bound.now }
{
    let legs = bound.legs.as_slice();
    let last = requirement::last_train(interlocking, bound.requirement);
    legs_meet(interlocking, legs) && last_train(legs) == last
}
