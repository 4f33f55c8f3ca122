//! How the clause of a certificate is made.

ghost use Rattle.std.specs.Prelude.{◌≡◌, IfOk, true};
ghost use Rattle.bound_spec.specs.Validity.{names_design};
ghost use Rattle.cone_clause.specs.Contentions.{among, over};
ghost use Rattle.cone_clause.specs.Numbered.{HasLiterals};
ghost use Rattle.bound_clause.specs.Left.{gathered};
ghost use Rattle.bound_clause.specs.Numbered.{left_if_consistent};
ghost use Rattle.bound_clause.specs.Spoken.{all_literals, cone_literals, left};

use crate::numbered::NumberedBound;
use crate::order::{put_in_order, rises};
use crate::remainder::Remainder;
use bound_spec::{Bound, Origin};
use cone_clause::{Contention, clause_of as clause_of_cone};
use interlocking::Steps;
use sat_clause::Lit;
use std::alloc::{AllocError, Global};

/// What is left of the clause of a certificate over the commands that the base speaks of, for plans of so many steps:
/// by increasing variable. None where the clause denies another command, which makes it true, and where the
/// certificate takes something for granted both ways.
///
/// # Errors
///
/// Want of memory alone.
pub fn clause_of(
    alloc: Global,
    contention: &Contention,
    steps: Steps,
    bound: &Bound,
) -> Result<Option<Vec<Lit>>, AllocError>
    requires names { over contention.now names_design bound.now ≡ true }
    ensures { IfOk result (λ c. HasLiterals c
        (over contention.now (left_if_consistent (among contention.now)) steps.count bound.now)) }
{
    let bound = NumberedBound {
        contention: *contention,
        steps,
        bound,
    };
    let said = bound.said(alloc)?;
    if said.denies_dead {
        return Ok(None);
    }
    let mut clause = said.literals;
    put_in_order(&mut clause);
    if rises(&clause) {
        Ok(Some(clause))
    } else {
        Ok(None)
    }
}

impl NumberedBound<'_> {
    /// What is left of the clause of the certificate's cone, which says nothing where it names none.
    fn of_cone(&self, alloc: Global) -> Result<Option<Vec<Lit>>, AllocError>
        ensures { IfOk result (λ c. HasLiterals c (left self.now (cone_literals self.now))) }
    {
        match &self.bound.origin {
            Origin::Cone { cone, .. } => clause_of_cone(alloc, &self.contention, self.steps, cone),
            Origin::Visit | Origin::Start | Origin::FirstTick => Ok(Some(Vec::new(alloc))),
        }
    }

    /// The same, with whether it denies a command of which the base doesn't speak.
    fn said_of_cone(&self, alloc: Global) -> Result<Remainder, AllocError>
        ensures { IfOk result (λ said. gathered said ≡ left self.now (cone_literals self.now)) }
    {
        match self.of_cone(alloc)? {
            Some(literals) => Ok(Remainder {
                literals,
                denies_dead: false,
            }),
            None => Ok(Remainder {
                literals: Vec::new(alloc),
                denies_dead: true,
            }),
        }
    }

    /// What is left of all that the certificate says.
    fn said(&self, alloc: Global) -> Result<Remainder, AllocError>
        ensures { IfOk result (λ said. gathered said ≡ left self.now (all_literals self.now)) }
    {
        let mut clause = self.said_of_cone(alloc)?;
        self.push_legs(&mut clause)?;
        self.push_meetings(&mut clause)?;
        self.push_origin(alloc, &mut clause)?;
        Ok(clause)
    }
}
