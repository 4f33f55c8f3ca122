//! The check of a clause by its hints.

ghost use Rattle.std.specs.Prelude.{◌≡◌, IfOk, OnOk, Ok, map, [], ◌++◌};
ghost use Rattle.sat_clause.specs.Clauses.{opposite};
ghost use Rattle.sat_clause.specs.Hints.{same_lit, open_lits, unit_of, at_last, follow_of};
ghost use Rattle.sat_clause.specs.declared.follow.Follow.TheVariants.{Yes};
ghost use Rattle.rup_check.specs.Sound.{Follows};

use crate::assigned::Assigned;
use sat_clause::{Arena, Follow, Lit};
use std::alloc::{AllocError, Global};
use std::marker::Model;

/// Room for marks on literals, used again from call to call: two marks for each variable up to the greatest
/// that was met. Nothing is marked between two calls.
#[derive(Drop)]
pub struct Marks {
    assigned: Assigned,
}

impl Model for Marks {
    ghost use Rattle.std.specs.Prelude.{◌≡◌, []};

    ghost Value = { Unit };

    ghost view = { λ _. tt };

    ghost invariant = { λ a. a.assigned ≡ [] };
}

impl Marks {
    /// No room yet. It grows with the variables that are met, and takes its memory from `alloc`.
    pub fn new(alloc: Global) -> Marks {
        Marks {
            assigned: Assigned::new(alloc),
        }
    }
}

/// Whether a clause follows from the live clauses that are hinted at, or why the hints don't show it.
///
/// All literals of the clause are taken as false. In order, each hint but the last names a live clause of
/// which one literal is open and all others are false; that literal is then true. The last names a live
/// clause of which all literals are false. The first hint that isn't so decides the answer. A literal that
/// stands twice in a clause counts once. The time is linear in the literals of all these clauses, but for
/// a variable that is greater than any met before.
///
/// An `Err` is want of memory; `marks` is good for further calls then too.
pub fn follows(
    marks: &mut Marks,
    arena: &Arena,
    clause: &[Lit],
    hints: &[u64],
) -> Result<Follow, AllocError>
    ensures value { IfOk result (λ answer. answer ≡ follow_of arena.now clause.now hints.now) }
    ensures sound { result ≡ Ok Yes → Follows arena.now hints.now clause.now }
{
    let answer = answer(&mut marks.assigned, arena, clause, hints);
    marks.assigned.clear();
    answer
}

fn is_same(a: Lit, b: Lit) -> bool
    ensures { result ≡ same_lit a b }
{
    a.var == b.var && a.negated == b.negated
}

/// The literal that is true where this one is false.
fn opposite(literal: Lit) -> Lit
    ensures { result ≡ opposite literal }
{
    Lit {
        var: literal.var,
        negated: !literal.negated,
    }
}

/// The literal that isn't assigned while the opposites of all others of the clause are.
fn unit(assigned: &Assigned, clause: &[Lit]) -> Option<Lit>
    ensures { result ≡ unit_of assigned.now clause.now }
{
    let mut found = None;
    for literal in clause {
        if !assigned.has(opposite(*literal)) {
            match found {
                None => {
                    if assigned.has(*literal) {
                        return None;
                    }
                    found = Some(*literal);
                }
                Some(first) => {
                    if !is_same(first, *literal) {
                        return None;
                    }
                }
            }
        }
    }
    found
}

/// The answer at the last hint: whether the opposites of all literals of its clause are assigned.
fn last(assigned: &Assigned, clause: &[Lit]) -> Follow
    ensures { result ≡ at_last (open_lits assigned.now clause.now) }
{
    for literal in clause {
        if !assigned.has(opposite(*literal)) {
            return Follow::NoConflict;
        }
    }
    Follow::Yes
}

/// Holds the opposites of a clause's literals.
fn suppose_false(assigned: &mut Assigned, clause: &[Lit]) -> Result<(), AllocError>
    ensures { OnOk result (assigned.new ≡ assigned.old ++ map opposite clause.now) }
{
    for literal in clause {
        assigned.hold(opposite(*literal))?;
    }
    Ok(())
}

/// The answer of the hints in turn, where nothing is assigned yet. What was assigned by then stays.
fn answer(
    assigned: &mut Assigned,
    arena: &Arena,
    clause: &[Lit],
    hints: &[u64],
) -> Result<Follow, AllocError>
    requires nothing { assigned.old ≡ [] }
    ensures { IfOk result (λ answer. answer ≡ follow_of arena.now clause.now hints.now) }
{
    suppose_false(assigned, clause)?;
    for (i, hint) in hints.iter().enumerate() {
        if !arena.live(*hint) {
            return Ok(Follow::UnknownClause);
        }
        let named = arena.clause(*hint);
        if i + 1 == hints.len() {
            return Ok(last(assigned, named));
        }
        match unit(assigned, named) {
            None => return Ok(Follow::NotUnit),
            Some(literal) => assigned.hold(literal)?,
        }
    }
    Ok(Follow::NoConflict)
}
