ghost use Rattle.std.specs.Prelude.{◌≡◌, ◌≤◌, ◌<◌, ◌⊎◌, ℕ, List, true, length, drop, IfSome, IsTrue};
ghost use Rattle.sat_clause.specs.Hints.{is_assigned};
ghost use Rattle.sat_trail.specs.Attached.{AreLive};
ghost use Rattle.sat_trail.specs.Settled.{IsTrueFirst, IsSettled};
ghost use Rattle.sat_trail.specs.Trails.{lits, depth};

use crate::assigned::Assigned;
use sat_clause::{Arena, Lit};

/// How many numbers in a prefix of a list are those of clauses with a literal that is true at level 0, and a bound of
/// these numbers.
#[derive(Clone, Copy)]
pub struct Settled {
    /// How many.
    pub count: usize,
    /// None of them is greater.
    pub top: u64,
}

/// The numbers behind the prefix.
pub fn unsettled_clauses(ids: &[u64], count: usize) -> &[u64]
    requires { count ≤ length ids.now }
    ensures { result.now ≡ drop count ids.now }
{
    &ids[count..]
}

/// What is left of the prefix before a clause of this number is attached: none of its numbers is this one.
pub fn without(settled: Settled, id: u64) -> Settled
    ensures same { (trail : _) (ids : List ℕ) → IsSettled trail ids settled.count settled.top
        → IsSettled trail ids result.count result.top }
    ensures apart { (result.count ≡ 0) ⊎ (result.top < id) }
{
    if settled.top < id {
        return settled;
    }
    Settled { count: 0, top: 0 }
}

/// The prefix grown as far as clauses have a literal that is true at level 0. It stays as it is where a level is open.
pub fn settle(trail: &Assigned, arena: &Arena, ids: &[u64], settled: Settled) -> Settled
    requires attached { AreLive arena.now trail.now.attached }
    requires settled { IsSettled trail.now ids.now settled.count settled.top }
    ensures { IsSettled trail.now ids.now result.count result.top }
{
    if trail.depth() > 0 {
        return settled;
    }
    let mut count = settled.count;
    let mut top = settled.top;
    'more: while count < ids.len() {
        let id = ids[count];
        if !is_true_first(trail, arena, id) {
            return Settled { count, top };
        }
        top = top.max(id);
        count += 1;
    }
    Settled { count, top }
}

/// A literal of the clause that is true.
fn true_literal(trail: &Assigned, clause: &[Lit]) -> Option<Lit>
    ensures member { IfSome result (λ l. is_assigned clause.now l ≡ true) }
    ensures holds { IfSome result (λ l. is_assigned (lits trail.now.steps) l ≡ true) }
{
    for l in clause {
        if trail.holds(*l) {
            return Some(*l);
        }
    }
    None
}

/// Whether a clause has a true literal, where no level is open, or is not attached.
fn is_true_first(trail: &Assigned, arena: &Arena, id: u64) -> bool
    requires attached { AreLive arena.now trail.now.attached }
    requires at_level_zero { depth trail.now.steps ≡ 0 }
    ensures { IsTrue result → IsTrueFirst trail.now id }
{
    let _ = trail.steps();
    if !arena.live(id) {
        return true;
    }
    match true_literal(trail, arena.clause(id)) {
        Some(_) => true,
        None => false,
    }
}
