//! Why a plan is refused.

ghost use Rattle.std.specs.Prelude.{◌≡◌};
ghost use Rattle.rail_plan.specs.declared.fault.PlanFault.TheVariants.{Memory};

use crate::place::PlanPlace;
use std::alloc::{AllocError, AllocFailed};
use thiserror::Error;

/// The numbered refusals.
#[derive(Clone, Copy, Debug, PartialEq, Eq)]
pub enum PlanCode {
    /// The bytes are no JSON, or have another shape than a plan's.
    P1,
    /// A train or a route isn't there.
    P2,
    /// The plan isn't well formed.
    P3,
    /// The plan isn't executable.
    P4,
}

/// Why there is no plan.
#[derive(Clone, Copy, Debug, PartialEq, Eq, Error)]
pub enum PlanFault {
    #[error("plan refused {code:?} at {place:?}")]
    Refused { code: PlanCode, place: PlanPlace },
    #[error("want of memory")]
    Memory,
}

impl From<AllocError> for PlanFault {
    ghost from_gives = { λ _ e. e ≡ Memory };

    fn from(_e: AllocError) -> PlanFault {
        PlanFault::Memory
    }
}

impl<T: Drop> From<AllocFailed<T>> for PlanFault {
    ghost from_gives = { λ _ e. e ≡ Memory };

    fn from(_e: AllocFailed<T>) -> PlanFault {
        PlanFault::Memory
    }
}
