//! What the clause of a cone says of the order of two commands.

ghost use Rattle.std.specs.Prelude.{◌≡◌, ◌++◌, ◌==◌, OnOk};
ghost use Rattle.std.specs.List.{list_any};
ghost use Rattle.std.specs.List.Sorted.{IsNonDecreasing};
ghost use Rattle.cone_clause.specs.Spoken.{said_of_pairs};

use crate::numbered::NumberedCone;
use sat_clause::Lit;
use std::alloc::{AllocError, Global};

impl NumberedCone<'_> {
    /// Puts what the clause says of contending commands at its end, in the order of their variables: of a pair that is
    /// listed, that the first is not before the second.
    pub(crate) fn push_before(&self, alloc: Global, clause: &mut Vec<Lit>) -> Result<(), AllocError>
        ensures { OnOk result (clause.new.items ≡ clause.old.items ++ said_of_pairs self.now) }
    {
        let used = self.contention.given_count(self.steps);
        let listed = self.pair_places(alloc)?;
        let places = self.places_said(alloc)?;
        let mut next = 0;
        for place in &places {
            if next <= *place {
                let var = used + *place as u32 + 1;
                let negated = is_among(&listed, *place);
                clause.push(Lit { var, negated })?;
                next = *place + 1;
            }
        }
        Ok(())
    }
}

/// Whether a place is one of these, which stand in order.
fn is_among(places: &[usize], place: usize) -> bool
    requires { IsNonDecreasing places.now }
    ensures { result ≡ list_any (λ other. other == place) places.now }
{
    places.binary_search(&place).is_ok()
}
