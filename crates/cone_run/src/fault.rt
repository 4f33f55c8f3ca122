//! Which cones are valid.

ghost use Rattle.std.specs.Prelude.{◌≡◌, IfOk};
ghost use Rattle.cone_run.specs.Layouts.{fault_in};
ghost use Rattle.cone_run.specs.Runs.{first_reason};
ghost use Rattle.cone_run.specs.Standing.{ConeStands};
ghost use Rattle.interlocking.specs.Plans.{on};

use crate::checked::ConeRun;
use crate::layout::ConeLayout;
use cone_form::is_in_design;
use cone_spec::{Cone, ConeFault};
use interlocking::Interlocking;
use std::alloc::{AllocError, Global};

/// The first of the reasons for which a cone shows nothing, or None where it is valid.
///
/// In the run of a cone of the design each train stands its ticks exactly where it makes its visits, up to its horizon.
pub fn fault_of(
    alloc: Global,
    interlocking: &Interlocking,
    cone: &Cone,
) -> Result<Option<ConeFault>, AllocError>
    ensures value { IfOk result (λ f. f ≡ first_reason interlocking.now cone.now) }
    ensures stands { on interlocking.now ConeStands cone.now }
{
    let fits = is_in_design(alloc, interlocking, cone)?;
    if !fits {
        return Ok(Some(ConeFault::PathNotInDesign));
    }
    let layout = ConeLayout { interlocking, cone };
    layout.fault(alloc)
}

impl ConeRun<'_> {
    /// The first reason against a cone that speaks of the design.
    fn fault(&self, alloc: Global) -> Result<Option<ConeFault>, AllocError>
        ensures { IfOk result (λ f. f ≡ fault_in self.now.layout) }
    {
        if !self.all_granted() {
            return Ok(Some(ConeFault::CommandNotGranted));
        }
        if !self.all_holders_fit() {
            return Ok(Some(ConeFault::HolderNotValid));
        }
        if !self.shows_violation(alloc)? {
            return Ok(Some(ConeFault::ViolationNotShown));
        }
        Ok(None)
    }
}

impl ConeLayout<'_> {
    /// The first reason against a cone that speaks of the design.
    fn fault(&self, alloc: Global) -> Result<Option<ConeFault>, AllocError>
        ensures { IfOk result (λ f. f ≡ fault_in self.now) }
    {
        let history = self.history(alloc)?;
        let run = ConeRun {
            layout: *self,
            history: history.as_slice(),
        };
        run.fault(alloc)
    }
}
