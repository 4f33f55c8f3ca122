//! What is left of literals that are said, where the base doesn't speak of all commands.

ghost use Rattle.std.specs.Prelude.{◌≡◌, OnOk};
ghost use Rattle.bound_clause.specs.Left.{gathered, signed_left, together};

use sat_clause::Lit;
use std::alloc::AllocError;

/// Literals of a clause in some order, one perhaps twice, without those of dead variables: of commands of which the
/// base doesn't speak.
#[derive(Drop)]
pub(crate) struct Remainder {
    pub literals: Vec<Lit>,
    /// Whether a dead variable is denied, so that the clause is true.
    pub denies_dead: bool,
}

impl Remainder {
    /// Puts the literal of a variable at the end by the variable's number. One without a number is dead.
    pub(crate) fn push(&mut self, number: Option<u32>, negated: bool) -> Result<(), AllocError>
        ensures { OnOk result (gathered self.new ≡ together (gathered self.old) (signed_left number negated)) }
    {
        match number {
            Some(var) => self.literals.push(Lit { var, negated })?,
            None => self.denies_dead = self.denies_dead || negated,
        }
        Ok(())
    }
}
