//! Whoever says what cones and bounds show.

ghost use Rattle.std.specs.Prelude.{◌≡◌, List, Result, IfOk, Ok, Err};
ghost use Rattle.bound_spec.specs.declared.Evidence.{Evidence};
ghost use Rattle.bound_spec.specs.declared.EvidenceFault.{EvidenceFault};
ghost use Rattle.sat_clause.specs.declared.lit.Lit.{Lit};
ghost use Rattle.log_checker.specs.declared.refuter.RefuteFault.TheVariants.{Memory, NotRefuted};

use bound_spec::{Evidence, EvidenceFault};
use sat_clause::Lit;
use std::alloc::{AllocError, Global};

/// Why a cone or a bound gives no clause.
#[derive(Clone, Copy, Debug, PartialEq, Eq)]
pub enum RefuteFault {
    /// It shows nothing.
    NotRefuted(EvidenceFault),
    /// There was no memory.
    Memory,
}

impl From<AllocError> for RefuteFault {
    ghost from_gives = { λ _ e. e ≡ Memory };

    fn from(_e: AllocError) -> RefuteFault {
        RefuteFault::Memory
    }
}

/// Says of cones and bounds which clause they show, or why they show nothing.
pub trait Refuter {
    ghost refute: { Self → Evidence → Result (List Lit) EvidenceFault };

    /// The clause that a cone or a bound shows.
    fn clause_of(&self, alloc: Global, evidence: &Evidence) -> Result<Vec<Lit>, RefuteFault>
        ensures ok { IfOk result (λ clause. refute self.now evidence.now ≡ Ok clause.items) }
        ensures fault { (fault : EvidenceFault) → result ≡ Err (NotRefuted fault)
            → refute self.now evidence.now ≡ Err fault };
}
