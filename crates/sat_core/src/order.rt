ghost use Rattle.std.specs.Prelude.{◌≡◌, ◌≤◌, IfSome, IfNone};
ghost use Rattle.sat_trail.specs.Trails.{lits, IsFresh, IsIn};
ghost use Rattle.sat_trail.specs.Forced.{IsTotal};

use crate::targets::Targets;
use sat_clause::{Arena, Lit};
use sat_trail::{Step, Trail};
use std::alloc::{AllocError, Global};
use std::collections::BinaryHeap;

/// A variable that waits for a decision, with its rank when it began to wait. Of two with one rank the first variable
/// is greater.
#[derive(Clone, Copy, PartialEq, Eq, PartialOrd, Ord)]
struct Waiting {
    rank: u64,
    variables_after: u32,
}

/// The rank from which on all ranks are made smaller.
const GREATEST: u64 = 1 << 48;

/// In which order variables are decided, and how. The rank of a variable grows when it stands in a clause by which
/// another follows, and later clauses count for more. None of this changes what a decision may be.
#[derive(Drop)]
pub struct Order {
    vars: u32,
    waiting: BinaryHeap<Waiting>,
    ranks: Vec<u64>,
    waits: Vec<bool>,
    phases: Vec<bool>,
    targets: Targets,
    weight: u64,
}

impl Order {
    /// All variables wait, the first one first.
    pub fn new(alloc: Global, vars: u32) -> Result<Order, AllocError> {
        let size = vars as usize + 1;
        let ranks = vec![in alloc; 0; size]?;
        let waits = vec![in alloc; false; size]?;
        let phases = vec![in alloc; false; size]?;
        let mut order = Order {
            vars,
            waiting: BinaryHeap::new(alloc),
            ranks,
            waits,
            phases,
            targets: Targets::new(alloc, vars)?,
            weight: 16,
        };
        order.wait_all();
        Ok(order)
    }

    /// Raises the variables of the clauses with these numbers, and lets later ones count for more.
    pub fn raise_all(&mut self, arena: &Arena, hints: &[u64]) {
        for id in hints {
            if arena.live(*id) {
                for l in arena.clause(*id) {
                    self.raise(l.var);
                }
            }
        }
        self.targets.count_line(&mut self.phases);
        self.weight = self.weight.saturating_add(self.weight / 16);
        if self.weight > GREATEST || self.waiting.len() / 8 > self.ranks.len() {
            self.shrink();
        }
    }

    /// The variables of steps above a level, which are taken off, wait again, and are decided next as they were.
    pub fn free(&mut self, steps: &[Step], level: u32) {
        self.targets.remember(steps);
        let mut i = steps.len();
        while i > 0 {
            i -= 1;
            let step = steps[i];
            if step.level <= level {
                return;
            }
            let place = step.lit.var as usize;
            if place < self.phases.len() && place < self.waits.len() {
                self.phases[place] = !step.lit.negated;
                if !self.waits[place] {
                    self.wait(step.lit.var);
                }
            }
        }
    }

    /// A literal of a variable that has no value. There is none where each variable has one.
    pub fn next(&mut self, trail: &Trail) -> Option<Lit>
        ensures fresh { IfSome result (λ l. IsFresh (lits trail.now.steps) l × IsIn trail.now.vars l) }
        ensures none { IfNone result (IsTotal trail.now.vars (lits trail.now.steps)) }
    {
        if let Some(l) = self.first(trail) {
            return Some(l);
        }
        trail.unassigned_literal()
    }

    /// Each variable waits from now on with its rank.
    fn wait_all(&mut self) {
        self.waiting.clear();
        for var in 1..=self.vars {
            self.wait(var);
        }
    }

    /// A variable waits from now on with its rank. Where there is no memory it does not.
    fn wait(&mut self, var: u32) {
        let place = var as usize;
        if place < self.ranks.len() && place < self.waits.len() {
            let rank = self.ranks[place];
            let waiting = Waiting {
                rank,
                variables_after: u32::MAX - var,
            };
            self.waits[place] = self.waiting.push(waiting).is_ok();
        }
    }

    /// Raises the rank of a variable.
    fn raise(&mut self, var: u32) {
        let place = var as usize;
        if place < self.ranks.len() {
            self.ranks[place] = self.ranks[place].saturating_add(self.weight);
        }
        if place < self.waits.len() && self.waits[place] {
            self.wait(var);
        }
    }

    /// Makes all ranks smaller where they have become great, and leaves out what waits no longer.
    fn shrink(&mut self) {
        if self.weight > GREATEST {
            self.weight = self.weight / GREATEST * 16 + 16;
            for rank in self.ranks.iter_mut() {
                *rank /= GREATEST / 16;
            }
        }
        self.wait_all();
    }

    /// The literal that is decided for a variable.
    fn literal(&self, var: u32) -> Lit {
        let place = var as usize;
        let last = place < self.phases.len() && self.phases[place];
        let positive = self.targets.value(place).unwrap_or(last);
        Lit {
            var,
            negated: !positive,
        }
    }

    /// The literal of the greatest variable that waits and has no value.
    fn first(&mut self, trail: &Trail) -> Option<Lit>
        ensures { IfSome result (λ l. IsFresh (lits trail.now.steps) l × IsIn trail.now.vars l) }
    {
        let vars = trail.vars();
        'waiting: while let Some(waiting) = self.waiting.pop() {
            let var = u32::MAX - waiting.variables_after;
            let place = var as usize;
            if place < self.waits.len() {
                self.waits[place] = false;
            }
            let l = self.literal(var);
            if l.var >= 1 && l.var <= vars && trail.lacks(l) {
                return Some(l);
            }
        }
        None
    }
}
