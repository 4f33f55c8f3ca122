//! From where the ticks of a certificate are counted.

ghost use Rattle.std.specs.Prelude.{◌≡◌, true, IfOk, Some};
ghost use Rattle.bound_design.specs.Named.{origin_fits, visit_said};
ghost use Rattle.bound_design.specs.Named.{first_visit, requirement_fits};

use crate::requirement::first_visit;
use bound_spec::{Bound, Origin, first_train};
use cone_form::is_in_design;
use interlocking::Interlocking;
use rail_base::station::TrainNo;
use std::alloc::{AllocError, Global};

/// Whether the origin goes with the requirement: two visits have one from which ticks are counted.
pub(crate) fn origin_in_design(
    alloc: Global,
    interlocking: &Interlocking,
    bound: &Bound,
) -> Result<bool, AllocError>
    requires { requirement_fits interlocking.now bound.now.requirement ≡ true }
    ensures { IfOk result (λ b. b ≡ origin_fits interlocking.now bound.now
        (first_visit interlocking.now bound.now.requirement)) }
{
    match first_visit(interlocking, bound.requirement) {
        Some(visit) => goes_with(alloc, interlocking, bound, visit),
        None => Ok(matches!(bound.origin, Origin::Start)),
    }
}

/// Whether the origin goes with a visit of this train and number.
fn goes_with(
    alloc: Global,
    interlocking: &Interlocking,
    bound: &Bound,
    visit: (TrainNo, u32),
) -> Result<bool, AllocError>
    ensures { IfOk result (λ b. b ≡ origin_fits interlocking.now bound.now (visit_said (Some visit))) }
{
    match &bound.origin {
        Origin::Visit => Ok(first_train(bound.legs.as_slice()) == visit.0),
        Origin::FirstTick => Ok(visit.1 == 1),
        Origin::Cone { cone, .. } => is_in_design(alloc, interlocking, cone),
        Origin::Start => Ok(false),
    }
}
