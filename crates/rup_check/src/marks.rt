//! Marks on literals: two for each variable.

ghost use Rattle.std.specs.Prelude.{◌≡◌, ◌||◌, ◌<◌, false, length, OnOk};
ghost use Rattle.sat_clause.specs.Hints.{same_lit};
ghost use Rattle.sat_clause.specs.declared.lit.Lit.{Lit};
ghost use Rattle.rup_check.specs.Marks.{says, with_mark, marked, Agrees};

use sat_clause::Lit;
use std::alloc::AllocError;

/// Which of a variable's two literals are marked.
#[derive(Clone, Copy)]
pub struct Mark {
    pub plain: bool,
    pub negated: bool,
}

/// No literal of the variable is marked.
const NONE: Mark = Mark {
    plain: false,
    negated: false,
};

/// Whether the literal is marked.
pub fn is_marked(table: &[Mark], literal: Lit) -> bool
    ensures { result ≡ marked table.now literal }
{
    let var = literal.var as usize;
    var < table.len() && table[var].says(literal)
}

/// Makes room for a variable, with no mark on it. All marks stay, also where there is no memory.
pub fn widen(table: &mut Vec<Mark>, var: u32) -> Result<(), AllocError>
    ensures same { (k : Lit) → marked table.new.items k ≡ marked table.old.items k }
    ensures room { OnOk result (var < length table.new.items) }
{
    let var = var as usize;
    if var < table.len() {
        return Ok(());
    }
    table.resize(var + 1, NONE)
}

/// Marks a literal.
pub fn add_mark(table: &mut [Mark], literal: Lit)
    requires room { literal.var < length table.old }
    ensures { (k : Lit) → marked table.new k ≡ (same_lit k literal || marked table.old k) }
{
    let var = literal.var as usize;
    table[var] = table[var].with(literal);
}

/// Takes all marks away, where these literals are the ones that are marked.
pub fn unmark(table: &mut [Mark], assigned: &[Lit])
    requires agrees { Agrees table.old assigned.now }
    ensures { (k : Lit) → marked table.new k ≡ false }
{
    for literal in assigned {
        table[literal.var as usize] = NONE;
    }
}

impl Mark {
    /// Whether the literal, one of this variable, is marked.
    fn says(self, literal: Lit) -> bool
        ensures { result ≡ says self literal }
    {
        if literal.negated {
            self.negated
        } else {
            self.plain
        }
    }

    /// The same with the literal marked too.
    fn with(self, literal: Lit) -> Mark
        ensures { result ≡ with_mark self literal }
    {
        Mark {
            plain: self.plain || !literal.negated,
            negated: self.negated || literal.negated,
        }
    }
}
