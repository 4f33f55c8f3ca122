//! Why the routes of a design are refused.

ghost use Rattle.std.specs.Prelude.{◌≡◌};
ghost use Rattle.rail_routes.specs.declared.fault.RouteFault.TheVariants.{Memory};

use rail_base::station::EdgeNo;
use std::alloc::{AllocError, AllocFailed};
use thiserror::Error;

/// Why the routes of a design are refused.
#[derive(Clone, Copy, Debug, PartialEq, Eq, Error)]
pub enum RouteFault {
    /// Of the first 2,001 closed paths the first that meets an edge again meets this one.
    #[error("a path meets an edge again")]
    RepeatsEdge { edge: EdgeNo },
    /// There are more than 2,000 routes.
    #[error("more than 2,000 routes")]
    TooMany,
    #[error("want of memory")]
    Memory,
}

impl From<AllocError> for RouteFault {
    ghost from_gives = { λ _ e. e ≡ Memory };

    fn from(_e: AllocError) -> RouteFault {
        RouteFault::Memory
    }
}

impl<T: Drop> From<AllocFailed<T>> for RouteFault {
    ghost from_gives = { λ _ e. e ≡ Memory };

    fn from(_e: AllocFailed<T>) -> RouteFault {
        RouteFault::Memory
    }
}
