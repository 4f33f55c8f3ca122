//! Whether the places of a certificate are covered.

ghost use Rattle.std.specs.Prelude.{◌≡◌, IfOk, not, true};
ghost use Rattle.std.specs.List.{list_all};
ghost use Rattle.bound_spec.specs.Validity.{covered, first_leg, is_empty, last_leg, names_design};
ghost use Rattle.bound_design.specs.Covered.{legs_covered};
ghost use Rattle.bound_design.specs.Named.{leg_fits};

use crate::before::legs_follow;
use crate::beginning::origin_covered;
use crate::reaching::{reaches_target, uses_before_last};
use bound_spec::{Bound, Leg};
use interlocking::Interlocking;
use std::alloc::{AllocError, Global};

/// Whether at each place of a certificate the train can use no routes but those of the place and those that are kept
/// out.
///
/// # Errors
///
/// Want of memory alone.
pub fn is_covered(
    alloc: Global,
    interlocking: &Interlocking,
    bound: &Bound,
) -> Result<bool, AllocError>
    requires names { names_design interlocking.now.design.station interlocking.now.routes bound.now ≡ true }
    ensures { IfOk result (λ b. b ≡ covered interlocking.now.design.station interlocking.now.routes bound.now) }
{
    let legs = bound.legs.as_slice();
    if !legs_covered(alloc, interlocking, legs)? {
        return Ok(false);
    }
    if !reaches_target(alloc, interlocking, bound.requirement, last_leg(legs))? {
        return Ok(false);
    }
    let covered = origin_covered(alloc, interlocking, bound, first_leg(legs))?;
    Ok(covered)
}

/// The first leg.
fn first_leg(legs: &[Leg]) -> &Leg
    requires { not (is_empty legs.now) ≡ true }
    ensures { result.now ≡ first_leg legs.now }
{
    &legs[0]
}

/// The last leg.
fn last_leg(legs: &[Leg]) -> &Leg
    requires { not (is_empty legs.now) ≡ true }
    ensures { result.now ≡ last_leg legs.now }
{
    &legs[legs.len() - 1]
}

/// Whether each place comes before the next one of its leg, and each leg before the last uses its last place.
fn legs_covered(
    alloc: Global,
    interlocking: &Interlocking,
    legs: &[Leg],
) -> Result<bool, AllocError>
    requires { list_all (leg_fits interlocking.now) legs.now ≡ true }
    ensures { IfOk result (λ b. b ≡ legs_covered interlocking.now legs.now) }
{
    if !legs_follow(alloc, interlocking, legs)? {
        return Ok(false);
    }
    let uses = uses_before_last(alloc, interlocking, legs)?;
    Ok(uses)
}
