ghost use Rattle.std.specs.Prelude.{◌≡◌, ◌+◌, ◌≤◌, ◌<◌, [], ◌∷◌, ◌++◌, length, take, IfOk, OnOk, OnErr, Some, None};
ghost use Rattle.std.specs.Prelude.{IsTrue, IsFalse, IsSome, MatchOption, IfSome, IfNone, true, ◌⊎◌, nat_le};
ghost use Rattle.std.specs.Prelude.{option_map};
ghost use Rattle.std.specs.List.{filter};
ghost use Rattle.sat_clause.specs.Hints.{is_assigned};
ghost use Rattle.sat_clause.specs.Closed.{IsClosed};
ghost use Rattle.sat_clause.specs.Clauses.{live_clause, opposite};
ghost use Rattle.sat_trail.specs.Trails.{lits, IsFresh, IsTrail, IsLevelled, depth, IsIn, AllIn, trail_step_of};
ghost use Rattle.sat_trail.specs.Trails.{reason_of};
ghost use Rattle.sat_trail.specs.Trails.{value_of, lit_at, decision, HasValue};
ghost use Rattle.sat_trail.specs.Attached.{AreLive, attached_clause, with_attached, without_attached, IsBehindNone};
ghost use Rattle.sat_trail.specs.Forced.{IsForced, VarsUpTo, IsTotal};
ghost use Rattle.sat_trail.specs.Walks.{IsConflict, IsClosedOrFalse};
ghost use Rattle.sat_trail.specs.Paces.{after_decision, anew, with_line, with_question};
ghost use Rattle.sat_trail.specs.View.{empty_view};

use crate::assigned::Assigned;
use crate::settled::{Settled, settle, without};
use crate::step::Step;
use crate::watch::{Watches, empty_lists, propagate_all, watch};
use sat_clause::{Arena, Lit};
use std::alloc::{AllocError, Global};
use std::marker::Model;

/// The assigned literals in order, each with its level and the clause behind it. Two literals of each attached clause
/// are watched, so that what is forced is found without a look at all clauses.
#[derive(Drop)]
pub struct Trail {
    assigned: Assigned,
    watches: Watches,
    settled: Settled,
    head: usize,
}

impl Model for Trail {
    ghost use Rattle.sat_trail.specs.View.{View};

    ghost Value = { View };

    ghost view = { λ t. t.assigned };

    ghost use Rattle.sat_trail.specs.Settled.{IsSettled};
    ghost use Rattle.sat_trail.specs.Watching.{IsWatchingIn, AllBlockedIn};

    ghost invariant = { λ t. IsWatchingIn t.assigned t.watches t.head
        × IsSettled t.assigned t.watches.loose.items t.settled.count t.settled.top
        × AllBlockedIn t.assigned.attached t.watches };
}

impl Trail {
    /// Nothing is assigned or attached, and no level is open. The variables are those from 1 to `vars`.
    pub fn new(alloc: Global, vars: u32) -> Result<Trail, AllocError>
        ensures { IfOk result (λ t. t ≡ empty_view vars) }
    {
        let assigned = Assigned::new(alloc, vars)?;
        let count = vars as usize * 2 + 2;
        let lists = empty_lists(alloc, count)?;
        Ok(Trail {
            assigned,
            watches: Watches {
                pairs: Vec::new(alloc),
                lists,
                loose: Vec::new(alloc),
            },
            settled: Settled { count: 0, top: 0 },
            head: 0,
        })
    }

    /// How many variables there are.
    pub fn vars(&self) -> u32
        ensures { result ≡ self.now.vars }
    {
        self.assigned.vars()
    }

    /// The literal at a place, places being counted from 1.
    pub fn at(&self, place: u64) -> Option<Lit>
        ensures { result ≡ lit_at self.now.steps place }
    {
        self.assigned.at(place)
    }

    /// The value of a variable, where it is assigned.
    pub fn value(&self, var: u32) -> Option<bool>
        ensures { result ≡ value_of self.now.steps var }
    {
        self.assigned.value(var)
    }

    /// The level at which a variable was assigned; 0 where no level was open.
    pub fn level(&self, var: u32) -> Option<u32>
        ensures { result ≡ option_map (λ s. s.level) (trail_step_of self.now.steps var) }
    {
        self.assigned.level(var)
    }

    /// The number of the clause behind a variable. There is none where the variable is not assigned or was decided.
    pub fn reason(&self, var: u32) -> Option<u64>
        ensures { result ≡ reason_of (trail_step_of self.now.steps var) }
    {
        self.assigned.reason(var)
    }

    /// Whether the literal is true.
    pub fn holds(&self, l: Lit) -> bool
        ensures { result ≡ is_assigned (lits self.now.steps) l }
    {
        self.assigned.holds(l)
    }

    /// Opens a level with this literal alone, and counts the decision. Its variable may have no value yet.
    pub fn decide(&mut self, lit: Lit)
        requires fresh { IsFresh (lits self.old.steps) lit }
        requires in_vars { IsIn self.old.vars lit }
        ensures pushed { self.new ≡ record self.old {
          steps = self.old.steps ++ decision self.old.steps lit ∷ [];
          pace = after_decision self.old.pace (depth self.old.steps);
        } }
        ensures room { length self.old.steps < self.old.vars }
        ensures depth { depth self.old.steps < self.old.vars }
    {
        self.assigned.decide(lit);
    }

    /// Counts decisions anew, as a question begins.
    pub fn begin_question(&mut self)
        ensures { self.new ≡ record self.old { pace = anew self.old.pace; parts = with_question self.old.parts } }
    {
        self.assigned.begin_question();
    }

    /// Counts decisions anew, after the line of this number, which is the next one.
    pub fn begin_line(&mut self, line: u64)
        requires { line ≡ self.old.parts.lines + 1 }
        ensures { self.new ≡ record self.old { pace = anew self.old.pace; parts = with_line self.old.parts line } }
    {
        self.assigned.begin_line(line);
    }

    /// Takes off the levels above the one given. What is left is a prefix of the steps.
    pub fn back(&mut self, level: u32)
        ensures prefix { self.new.steps ≡ take (length self.new.steps) self.old.steps }
        ensures depth { depth self.new.steps ≤ level }
        ensures kept { self.new ≡ record self.old { steps = filter (λ s. nat_le s.level level) self.old.steps } }
    {
        self.assigned.back(level);
        let count = self.assigned.steps().len();
        self.head = self.head.min(count);
    }

    /// Takes a clause among those that `propagate` looks at. Where there is no memory nothing changes.
    pub fn attach(&mut self, arena: &Arena, id: u64) -> Result<(), AllocError>
        requires live { IsSome (live_clause arena.now id) }
        requires apart { attached_clause self.old.attached id ≡ None }
        requires in_vars { IfSome (live_clause arena.now id) (AllIn self.old.vars) }
        ensures ok { OnOk result (self.new
            ≡ record self.old { attached = with_attached self.old.attached id arena.now }) }
        ensures err { OnErr result (self.new ≡ self.old) }
    {
        watch(
            &self.assigned,
            &mut self.watches,
            self.head,
            arena.clause(id),
            id,
        )?;
        self.settled = without(self.settled, id);
        self.assigned.attach(arena, id)
    }

    /// Takes a clause off that is behind no literal, before it is forgotten.
    pub fn detach(&mut self, _arena: &Arena, id: u64)
        requires idle { IsBehindNone self.old.steps id }
        ensures { self.new ≡ record self.old { attached = without_attached self.old.attached id } }
    {
        self.assigned.detach(id);
    }

    /// Adds what the live clauses force, until one of them is false or nothing more is forced.
    pub fn propagate(&mut self, arena: &Arena) -> Result<Option<u64>, AllocError>
        requires attached { AreLive arena.now self.old.attached }
        requires trail { IsTrail arena.now self.old.steps }
        requires in_vars { VarsUpTo arena.now self.old.vars }
        ensures trail { IsTrail arena.now self.new.steps }
        ensures forced { IsForced self.old self.new }
        ensures closed { IfOk result (IsClosedOrFalse arena.now (lits self.new.steps)) }
    {
        let found = propagate_all(
            &mut self.assigned,
            &mut self.watches,
            self.settled,
            &mut self.head,
            arena,
        )?;
        self.settled = settle(&self.assigned, arena, &self.watches.loose, self.settled);
        Ok(found)
    }

    /// The steps in order.
    pub fn steps(&self) -> &[Step]
        ensures steps { result.now ≡ self.now.steps }
        ensures bound { length self.now.steps ≤ self.now.vars }
        ensures in_vars { AllIn self.now.vars (lits self.now.steps) }
        ensures levelled { IsLevelled 0 self.now.steps }
    {
        self.assigned.steps()
    }

    /// Whether the variable of a literal has no value.
    pub fn lacks(&self, l: Lit) -> bool
        ensures yes { IsTrue result → IsFresh (lits self.now.steps) l }
        ensures no { IsFalse result → HasValue (lits self.now.steps) l }
    {
        self.assigned.lacks(l)
    }

    /// A literal of a variable that has no value. There is none where each variable has one.
    pub fn unassigned_literal(&self) -> Option<Lit>
        ensures fresh { IfSome result (λ l. IsFresh (lits self.now.steps) l × IsIn self.now.vars l) }
        ensures none { IfNone result (IsTotal self.now.vars (lits self.now.steps)) }
    {
        self.assigned.unassigned_literal()
    }
}
