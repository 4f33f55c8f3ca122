//! The literals that are assigned true.

ghost use Rattle.std.specs.Prelude.{◌≡◌, [], ◌∷◌, ◌++◌, OnOk, OnErr};
ghost use Rattle.sat_clause.specs.Hints.{is_assigned};

use crate::marks::{Mark, add_mark, is_marked, unmark, widen};
use sat_clause::Lit;
use std::alloc::{AllocError, Global};
use std::marker::Model;

/// The literals that are assigned true, in order, with marks by which each is found at once.
#[derive(Drop)]
pub struct Assigned {
    table: Vec<Mark>,
    literals: Vec<Lit>,
}

impl Model for Assigned {
    ghost use Rattle.std.specs.Prelude.{List};
    ghost use Rattle.sat_clause.specs.declared.lit.Lit.{Lit};

    ghost Value = { List Lit };

    ghost use Rattle.rup_check.specs.Marks.{Agrees};

    ghost view = { λ a. a.literals.items };

    ghost invariant = { λ a. Agrees a.table.items a.literals.items };
}

impl Assigned {
    /// No literal. What is assigned later takes its memory from `alloc`.
    pub fn new(alloc: Global) -> Assigned
        ensures { result ≡ [] }
    {
        Assigned {
            table: Vec::new(alloc),
            literals: Vec::new(alloc),
        }
    }

    /// Whether the literal is assigned.
    pub fn has(&self, literal: Lit) -> bool
        ensures { result ≡ is_assigned self.now literal }
    {
        is_marked(&self.table, literal)
    }

    /// Holds one more literal. Where there is no memory nothing changes.
    pub fn hold(&mut self, literal: Lit) -> Result<(), AllocError>
        ensures ok { OnOk result (self.new ≡ self.old ++ literal ∷ []) }
        ensures err { OnErr result (self.new ≡ self.old) }
    {
        widen(&mut self.table, literal.var)?;
        self.literals.push(literal)?;
        add_mark(&mut self.table, literal);
        Ok(())
    }

    /// Assigns nothing any more. It takes as many steps as literals were assigned.
    pub fn clear(&mut self)
        ensures { self.new ≡ [] }
    {
        unmark(&mut self.table, &self.literals);
        self.literals.clear();
    }
}
