//! Literals of a clause, each by its variable and its sign.

ghost use Rattle.std.specs.Prelude.{◌≡◌, ◌++◌, OnOk};
ghost use Rattle.cone_clause.specs.Numbered.{signed};

use sat_clause::Lit;
use std::alloc::AllocError;

/// Puts the literal of a variable at the end of a clause, where there is a sign: whether it is negated.
pub fn push_signed(clause: &mut Vec<Lit>, var: u32, sign: Option<bool>) -> Result<(), AllocError>
    ensures { OnOk result (clause.new.items ≡ clause.old.items ++ signed var sign) }
{
    if let Some(negated) = sign {
        clause.push(Lit { var, negated })?;
    }
    Ok(())
}
