//! Literals in the order of their variables.

ghost use Rattle.std.specs.Prelude.{◌≡◌, nat_lt};
ghost use Rattle.rail_base.specs.Members.{all_neighbors};
ghost use Rattle.bound_clause.specs.Order.{IsPutInOrder};

use sat_clause::Lit;

/// Puts literals in the order of their variables, each once.
pub(crate) fn put_in_order(clause: &mut Vec<Lit>)
    ensures { IsPutInOrder clause.old.items clause.new.items }
{
    clause.sort_unstable_by_key(|literal| literal.var);
    clause.dedup();
}

/// Whether each literal has a greater variable than the one before.
pub(crate) fn rises(clause: &[Lit]) -> bool
    ensures { result ≡ all_neighbors (λ l m. nat_lt l.var m.var) clause.now }
{
    for index in 1..clause.len() {
        if clause[index - 1].var >= clause[index].var {
            return false;
        }
    }
    true
}
