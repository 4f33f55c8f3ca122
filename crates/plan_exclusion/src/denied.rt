//! Clauses that values make false.

ghost use Rattle.std.specs.Prelude.{◌≡◌, not};
ghost use Rattle.std.specs.List.{list_any};
ghost use Rattle.sat_clause.specs.Clauses.{clause_holds, lit_holds};
ghost use Rattle.sat_core.specs.Models.{value_in};

use sat_clause::Lit;
use sat_core::Assignment;

/// Whether the values make a clause false.
#[tactic(auto, using(crate::proofs::Truth::any_holds))]
pub(crate) fn is_denied(values: &Assignment, clause: &[Lit]) -> bool
    ensures { result ≡ not (clause_holds (value_in values.now) clause.now) }
{
    !any_holds(values, clause)
}

/// Whether the values make a literal true.
fn holds(values: &Assignment, literal: Lit) -> bool
    ensures { result ≡ lit_holds (value_in values.now) literal }
{
    values.value(literal.var) != literal.negated
}

/// Whether the values make any of the literals true.
fn any_holds(values: &Assignment, clause: &[Lit]) -> bool
    ensures { result ≡ list_any (lit_holds (value_in values.now)) clause.now }
{
    clause.iter().any(|literal| holds(values, *literal))
}
