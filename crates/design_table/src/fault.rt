//! Why a design is refused.

ghost use Rattle.std.specs.Prelude.{◌≡◌};
ghost use Rattle.design_table.specs.declared.fault.DesignFault.TheVariants.{Memory};

use crate::place::Place;
use std::alloc::{AllocError, AllocFailed};
use thiserror::Error;

/// The numbered causes of a refusal.
#[derive(Clone, Copy, Debug, PartialEq, Eq)]
pub enum Code {
    D01,
    D02,
    D03,
    D04,
    D05,
    D06,
    D07,
    D08,
    D09,
    D10,
    D11,
    D12,
    D13,
}

/// A design that is not read.
#[derive(Debug, Drop, Error)]
pub enum DesignFault {
    /// No design can be parsed from the document: the lowest code that holds, at its first place.
    #[error("design refused {code:?} {place:?}")]
    Refused { code: Code, place: Place },
    /// Memory ran out, which says nothing of the document.
    #[error("want of memory")]
    Memory,
}

impl From<AllocError> for DesignFault {
    ghost from_gives = { λ _ e. e ≡ Memory };

    fn from(_e: AllocError) -> DesignFault {
        DesignFault::Memory
    }
}

impl<T: Drop> From<AllocFailed<T>> for DesignFault {
    ghost from_gives = { λ _ e. e ≡ Memory };

    fn from(_e: AllocFailed<T>) -> DesignFault {
        DesignFault::Memory
    }
}
