//! A base, and the numbers of its variables.

ghost use Rattle.std.specs.Prelude.{◌≡◌, ◌≤◌, ◌*◌, ℕ, List, length};
ghost use Rattle.rail_base.specs.declared.station.Station.{Station};
ghost use Rattle.rail_base.specs.declared.route.Route.{Route};
ghost use Rattle.base_spec.specs.Bases.{variables_of};
ghost use Rattle.clause_spec.specs.Variables.{By, yes};
ghost use Rattle.live_clause_spec.specs.Variables.{live_numbered};
ghost use Rattle.plan_encoding.specs.Bases.{speaks_of};
ghost use Rattle.plan_encoding.specs.Numberings.{IsNumberingOf, OfNumbering, given_number, before_number};

use clause_spec::{BaseKind, VariableCounts};
use interlocking::Steps;
use live_contending::ContendingPairs;
use rail_base::plan::Command;
use sat_clause::{Arena, Lit};
use std::marker::Model;

/// The numbers of the variables of a base: of commands by their steps, of pairs that contend, and of steps.
#[derive(Drop)]
pub struct Numbering {
    steps: Steps,
    pairs: ContendingPairs,
}

/// The clauses of a base, all live and in order, how many literals they have, and the numbers of their variables.
#[derive(Drop)]
pub struct Base {
    pub numbering: Numbering,
    pub clauses: Arena,
    pub literals: u64,
}

impl Model for Numbering {
    ghost use Rattle.std.specs.Prelude.{◌≤◌, length};
    ghost use Rattle.plan_encoding.specs.Numberings.{Numbered};

    ghost Value = { Numbered };

    ghost view = { λ b. record {
      steps = b.steps.count;
      commands = b.pairs.commands;
      pairs = b.pairs.pairs;
    } };

    ghost invariant = { λ b. (b.steps.count ≤ 256) × (length b.pairs.commands ≤ 256000) ×
        (length b.pairs.pairs ≤ 8000000) };
}

impl Numbering {
    /// The literal that a command is given by a step; none where the base doesn't speak of it.
    pub fn given_lit(&self, command: Command, step: u32) -> Option<Lit>
        requires { step ≤ self.now.steps }
        ensures { OfNumbering self.now (λ live d routes n. result ≡ given_number live d routes n command step) }
    {
        match self.pairs.commands().number(command) {
            Some(place) => Some(Lit {
                var: place * self.steps.count + step,
                negated: false,
            }),
            None => None,
        }
    }

    /// The literal that one command is given before another; none where they don't contend, or the base doesn't speak
    /// of both.
    pub fn before(&self, first: Command, second: Command) -> Option<Lit>
        ensures { OfNumbering self.now (λ live d routes n. result ≡ before_number live d routes n first second) }
    {
        match self.pairs.place(first, second) {
            Some(place) => Some(Lit {
                var: self.given_count() + place as u32 + 1,
                negated: false,
            }),
            None => None,
        }
    }

    /// The literal that all is given by a step.
    pub fn selector(&self, step: u32) -> Lit
        requires { step ≤ self.now.steps }
        ensures { OfNumbering self.now (λ live d routes n. result ≡ live_numbered live d routes n (yes (By step))) }
    {
        Lit {
            var: self.given_count() + self.pairs.count() as u32 + step,
            negated: false,
        }
    }

    /// The commands that the base speaks of, with their pairs that contend, in the order of their variables.
    pub fn pairs(&self) -> &ContendingPairs
        ensures commands { result.now.commands ≡ self.now.commands }
        ensures pairs { result.now.pairs ≡ self.now.pairs }
        ensures bound { length result.now.pairs ≤ 8000000 }
    {
        &self.pairs
    }

    /// How many steps a plan may have.
    pub fn steps(&self) -> Steps
        ensures { result.count ≡ self.now.steps }
    {
        self.steps
    }

    /// How many variables a base has, and how many come before those that all is given by a step.
    pub fn variables(&self, kind: BaseKind) -> VariableCounts
        ensures { (d : Station) (routes : List Route) (n : ℕ)
            → IsNumberingOf (speaks_of kind d routes) d routes n self.now → result ≡ variables_of kind d routes n }
    {
        let given = self.given_count();
        let before_selectors = given + self.pairs.count() as u32;
        let count = before_selectors + self.steps.count;
        VariableCounts {
            count: match kind {
                BaseKind::Plain | BaseKind::Sorted | BaseKind::Live(_) => count,
                BaseKind::Normal => count + given,
            },
            before_selectors,
            steps: self.steps.count,
        }
    }

    /// How many variables say that a command is given by a step.
    fn given_count(&self) -> u32
        ensures value { result ≡ length self.now.commands * self.now.steps }
        ensures bound { result ≤ 65536000 }
    {
        self.pairs.commands().count() as u32 * self.steps.count
    }
}

/// The numbers of the variables for so many steps, of these commands and their pairs that contend.
pub fn number_variables(steps: Steps, pairs: ContendingPairs) -> Numbering
    requires commands { length pairs.commands ≤ 256000 }
    requires pairs { length pairs.pairs ≤ 8000000 }
    ensures { result ≡ record { steps = steps.count; commands = pairs.commands; pairs = pairs.pairs } }
{
    Numbering { steps, pairs }
}
