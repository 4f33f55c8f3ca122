ghost use Rattle.std.specs.Prelude.{◌≡◌, ◌||◌, ◌++◌, ◌∷◌, ◌<◌, [], List, length, map, OnOk, OnErr};
ghost use Rattle.sat_clause.specs.Clauses.{opposite};
ghost use Rattle.sat_clause.specs.Hints.{is_assigned, same_lit};
ghost use Rattle.sat_trail.specs.Marks.{marked};
ghost use Rattle.sat_trail.specs.Watches.{code_of};

use crate::walk::negate;
use crate::watch::code;
use sat_clause::Lit;
use std::alloc::{AllocError, Global};
use std::marker::Model;

/// Literals in a row, with a table that says which ones they are.
#[derive(Drop)]
pub struct Needed {
    lits: Vec<Lit>,
    marks: Vec<bool>,
}

impl Model for Needed {
    ghost use Rattle.std.specs.Prelude.{List};
    ghost use Rattle.sat_clause.specs.declared.lit.Lit.{Lit};

    ghost Value = { List Lit };

    ghost view = { λ a. a.lits.items };

    ghost use Rattle.sat_trail.specs.Marks.{Marks};

    ghost invariant = { λ a. Marks a.marks.items a.lits.items };
}

/// Makes room for a mark at a place. All marks stay, also where there is no memory.
pub fn widen(marks: &mut Vec<bool>, place: usize) -> Result<(), AllocError>
    ensures same { (l : _) → marked marks.new.items l ≡ marked marks.old.items l }
    ensures room { OnOk result (place < length marks.new.items) }
{
    'wide: while marks.len() <= place {
        marks.push(false)?;
    }
    Ok(())
}

impl Needed {
    /// No literal.
    pub fn new(alloc: Global) -> Needed
        ensures { result ≡ [] }
    {
        Needed {
            lits: Vec::new(alloc),
            marks: Vec::new(alloc),
        }
    }

    /// Whether a literal is one of these.
    pub fn has(&self, l: Lit) -> bool
        ensures { result ≡ is_assigned self.now l }
    {
        match self.marks.get(code(l)) {
            Some(mark) => *mark,
            None => false,
        }
    }

    /// Puts a literal at the end.
    pub fn push(&mut self, l: Lit) -> Result<(), AllocError>
        ensures { OnOk result (self.new ≡ self.old ++ l ∷ []) }
    {
        widen(&mut self.marks, code(l))?;
        self.lits.push(l)?;
        mark(&mut self.marks, l);
        Ok(())
    }

    /// Adds the opposites of a clause's literals.
    pub fn add_opposites(&mut self, clause: &[Lit]) -> Result<(), AllocError>
        ensures { OnOk result (self.new ≡ self.old ++ map opposite clause.now) }
    {
        for l in clause {
            self.push(negate(*l))?;
        }
        Ok(())
    }
}

/// Marks a literal.
fn mark(marks: &mut [bool], l: Lit)
    requires { code_of l < length marks.old }
    ensures { (k : _) → marked marks.new k ≡ (same_lit k l || marked marks.old k) }
{
    marks[code(l)] = true;
}
