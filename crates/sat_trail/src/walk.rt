ghost use Rattle.std.specs.Prelude.{◌≡◌, ◌≢◌, ◌≤◌, ◌<◌, ◌+◌, ℕ, IsSome, IsTrue, IfOk, OnOk, IfSome, IfNone, Some, None};
ghost use Rattle.std.specs.Prelude.{true, false, map, [], ◌∷◌, ◌++◌, length, take, reverse, slice_index_or, vec_len};
ghost use Rattle.std.specs.Prelude.{Bool};
ghost use Rattle.std.specs.List.{list_any};
ghost use Rattle.sat_clause.specs.Clauses.{opposite};
ghost use Rattle.sat_clause.specs.Hints.{same_lit, is_assigned, open_lits, follow_of};
ghost use Rattle.sat_clause.specs.Closed.{IsClosed, IsNew};
ghost use Rattle.sat_trail.specs.Trails.{lits, IsTrail};
ghost use Rattle.sat_trail.specs.Standing.{HasDistinctVariables, IsIncreasing, Stands, AllStand, NegationsStand};
ghost use Rattle.sat_trail.specs.Walks.{Walk, IsConflict, KeepsOf, decided, NegatesOnly, Beyond};
ghost use Rattle.sat_clause.specs.declared.follow.Follow.TheVariants.{Yes};

use crate::needed::{Needed, widen};
use crate::step::Step;
use sat_clause::{Arena, Lit};
use std::alloc::{AllocError, Global};

/// Whether two literals are the same.
pub fn same(a: Lit, b: Lit) -> bool
    ensures { result ≡ same_lit a b }
{
    a.var == b.var && a.negated == b.negated
}

/// The literal that is true where this one is false.
pub fn negate(l: Lit) -> Lit
    ensures { result ≡ opposite l }
{
    Lit {
        var: l.var,
        negated: !l.negated,
    }
}

/// A new clause that follows where a live one is false, `base` being the place at which the last level begins.
pub fn analyze(
    alloc: Global,
    arena: &Arena,
    steps: &[Step],
    base: usize,
    conflict: u64,
) -> Result<Learnt, AllocError>
    requires trail { IsTrail arena.now steps.now }
    requires closed { IsClosed arena.now (take base (lits steps.now)) }
    requires base { base ≤ length steps.now }
    requires reasoned { (i : ℕ) (d : _) → base < i → i < length steps.now
        → IsSome (slice_index_or steps.now i d).reason }
    requires conflict { IsConflict arena.now (lits steps.now) conflict }
    ensures follows { IfOk result (λ r. follow_of arena.now r.clause.items r.hints.items ≡ Yes) }
    ensures increasing { IfOk result (λ r. IsIncreasing r.clause.items) }
    ensures stand { IfOk result (λ r. AllStand arena.now r.clause.items) }
    ensures new { IfOk result (λ r. IsNew arena.now r.clause.items) }
    ensures beyond { IfOk result (λ r. Beyond r.clause.items (take base (lits steps.now))) }
    ensures only { IfOk result (λ r. NegatesOnly r.clause.items (lits steps.now)) }
{
    let mut needed = Needed::new(alloc);
    needed.add_opposites(arena.clause(conflict))?;
    let mut back = Vec::new(alloc);
    back.push(conflict)?;
    let unique = to_unique(arena, steps, base, &mut needed, &mut back)?;
    let mut kept = Vec::new(alloc);
    kept.push(unique)?;
    let covered = covered_steps(alloc, arena, &steps[..base], &needed)?;
    let levels = to_start(
        arena,
        &steps[..base],
        false,
        covered.as_slice(),
        &mut kept,
        &mut needed,
        &mut back,
    )?;
    let clause = negate_kept(alloc, &kept)?;
    Ok(Learnt {
        clause,
        hints: in_turn(back),
        level: levels.first,
        levels: levels.count,
    })
}

/// A clause that negates decided literals, where a live clause is false.
pub fn analyze_final(
    alloc: Global,
    arena: &Arena,
    steps: &[Step],
    conflict: u64,
) -> Result<Learnt, AllocError>
    requires trail { IsTrail arena.now steps.now }
    requires conflict { IsConflict arena.now (lits steps.now) conflict }
    ensures follows { IfOk result (λ r. follow_of arena.now r.clause.items r.hints.items ≡ Yes) }
    ensures increasing { IfOk result (λ r. IsIncreasing r.clause.items) }
    ensures only { IfOk result (λ r. NegatesOnly r.clause.items (decided steps.now)) }
{
    let mut needed = Needed::new(alloc);
    needed.add_opposites(arena.clause(conflict))?;
    let mut back = Vec::new(alloc);
    back.push(conflict)?;
    let mut kept = Vec::new(alloc);
    let levels = to_start(arena, steps, true, &[], &mut kept, &mut needed, &mut back)?;
    let clause = negate_kept(alloc, &kept)?;
    Ok(Learnt {
        clause,
        hints: in_turn(back),
        level: levels.first,
        levels: levels.count,
    })
}

/// A clause that negates a literal and decided ones, where its opposite was forced.
pub fn refute_choice(
    alloc: Global,
    arena: &Arena,
    steps: &[Step],
    l: Lit,
) -> Result<Learnt, AllocError>
    requires trail { IsTrail arena.now steps.now }
    requires negated { is_assigned (lits steps.now) (opposite l) ≡ true }
    requires forced { is_assigned (decided steps.now) (opposite l) ≡ true → ⊥ }
    ensures follows { IfOk result (λ r. follow_of arena.now r.clause.items r.hints.items ≡ Yes) }
    ensures increasing { IfOk result (λ r. IsIncreasing r.clause.items) }
    ensures only { IfOk result (λ r. NegatesOnly r.clause.items (l ∷ decided steps.now)) }
{
    let place = place_of(steps, negate(l));
    let Some(id) = steps[place].reason else {
        unreachable!()
    };
    let mut needed = Needed::new(alloc);
    needed.add_opposites(arena.clause(id))?;
    let mut back = Vec::new(alloc);
    back.push(id)?;
    let mut kept = Vec::new(alloc);
    kept.push(l)?;
    let levels = to_start(
        arena,
        &steps[..place],
        true,
        &[],
        &mut kept,
        &mut needed,
        &mut back,
    )?;
    let clause = negate_kept(alloc, &kept)?;
    Ok(Learnt {
        clause,
        hints: in_turn(back),
        level: levels.first,
        levels: levels.count,
    })
}

/// Whether the literal of one of the steps is needed. The last steps are looked at first.
fn some_needed(needed: &Needed, steps: &[Step]) -> bool
    ensures { result ≡ list_any (λ s. is_assigned needed.now s.lit) steps.now }
{
    let mut i = steps.len();
    while i > 0 {
        i -= 1;
        if needed.has(steps[i].lit) {
            return true;
        }
    }
    false
}

/// Goes back to the first step of the last level through which every way to the conflict leads, and gives its literal.
fn to_unique(
    arena: &Arena,
    steps: &[Step],
    base: usize,
    needed: &mut Needed,
    back: &mut Vec<u64>,
) -> Result<Lit, AllocError>
    requires trail { IsTrail arena.now steps.now }
    requires closed { IsClosed arena.now (take base (lits steps.now)) }
    requires base { base ≤ length steps.now }
    requires reasoned { (i : ℕ) (d : _) → base < i → i < length steps.now
        → IsSome (slice_index_or steps.now i d).reason }
    requires walk { Walk arena.now (lits steps.now) [] needed.old (reverse back.old.items) }
    requires not_empty { 0 < length back.old.items }
    requires stands { NegationsStand arena.now needed.old }
    ensures stands { OnOk result (NegationsStand arena.now needed.new) }
    ensures stands_too { IfOk result (λ u. Stands arena.now (opposite u)) }
    ensures walk { IfOk result (λ u.
        Walk arena.now (take base (lits steps.now)) (u ∷ []) needed.new (reverse back.new.items)) }
    ensures not_empty { OnOk result (0 < length back.new.items) }
    ensures member { IfOk result (λ u. is_assigned (lits steps.now) u ≡ true) }
{
    let mut i = steps.len();
    while i > base {
        i -= 1;
        let step = steps[i];
        if needed.has(step.lit) {
            if !some_needed(needed, &steps[base..i]) {
                return Ok(step.lit);
            }
            let Some(id) = step.reason else {
                unreachable!()
            };
            back.push(id)?;
            needed.add_opposites(arena.clause(id))?;
        }
    }
    unreachable!()
}

/// Whether all other literals of the clause behind a step are needed anyway, or implied by needed ones.
fn is_covered(arena: &Arena, needed: &Needed, implied: &Needed, step: Step) -> bool {
    let Some(id) = step.reason else {
        return false;
    };
    if !arena.live(id) {
        return false;
    }
    for l in arena.clause(id) {
        let before = negate(*l);
        if !same(*l, step.lit) && !needed.has(before) && !implied.has(before) {
            return false;
        }
    }
    true
}

/// Marks a level.
fn mark_level(levels: &mut Vec<bool>, level: u32) -> Result<(), AllocError> {
    let place = level as usize;
    widen(levels, place)?;
    levels[place] = true;
    Ok(())
}

/// The first and the last of the levels that were met, and how many there were.
#[derive(Clone, Copy)]
struct Levels {
    first: u32,
    last: u32,
    count: u32,
}

/// For each level whether the literal of one of its steps is needed.
fn needed_levels(alloc: Global, steps: &[Step], needed: &Needed) -> Result<Vec<bool>, AllocError> {
    let mut levels = Vec::new(alloc);
    for step in steps {
        if needed.has(step.lit) {
            mark_level(&mut levels, step.level)?;
        }
    }
    Ok(levels)
}

/// For each step whether its literal is implied by needed ones before it. Of a level of which none is needed, none is
/// implied.
fn covered_steps(
    alloc: Global,
    arena: &Arena,
    steps: &[Step],
    needed: &Needed,
) -> Result<Vec<bool>, AllocError> {
    let levels = needed_levels(alloc, steps, needed)?;
    let mut implied = Needed::new(alloc);
    let mut covered = Vec::new(alloc);
    for step in steps {
        let is_implied = step.level == 0
            || is_marked(&levels, step.level as usize)
                && is_covered(arena, needed, &implied, *step);
        if is_implied {
            implied.push(step.lit)?;
        }
        covered.push(is_implied)?;
    }
    Ok(covered)
}

/// Whether a place is marked.
fn is_marked(marks: &[bool], place: usize) -> bool {
    match marks.get(place) {
        Some(mark) => *mark,
        None => false,
    }
}

/// A clause and the hints by which it follows.
#[derive(Drop)]
pub struct Learnt {
    /// The literals, in increasing order of their variables.
    pub clause: Vec<Lit>,
    /// The numbers of the clauses that give a literal each in turn, and then of one that is false.
    pub hints: Vec<u64>,
    /// A level at which the clause leaves one literal, or 0.
    pub level: u32,
    /// How many levels below the last one the literals have.
    pub levels: u32,
}

/// The levels with one more, which is the last one again or lower.
fn with_level(levels: Levels, next: u32) -> Levels {
    if next == levels.last {
        return levels;
    }
    Levels {
        first: if levels.count == 0 {
            next
        } else {
            levels.first
        },
        last: next,
        count: levels.count.saturating_add(1),
    }
}

/// The clause behind a literal that gives way to others.
fn resolved_by(step: Step, only_decided: bool, covered: bool) -> Option<u64>
    ensures taken { IfSome result (λ id. step.reason ≡ Some id) }
    ensures kept { IfNone result (IsTrue only_decided → step.reason ≡ None) }
{
    if only_decided || covered || step.level == 0 {
        step.reason
    } else {
        None
    }
}

/// Goes back to the trail's beginning and keeps what is of an open level, or only what was decided. What follows from
/// other needed literals is not kept. The answer is the levels of the literals that are kept.
fn to_start(
    arena: &Arena,
    steps: &[Step],
    only_decided: bool,
    covered: &[bool],
    kept: &mut Vec<Lit>,
    needed: &mut Needed,
    back: &mut Vec<u64>,
) -> Result<Levels, AllocError>
    requires trail { IsTrail arena.now steps.now }
    requires walk { Walk arena.now (lits steps.now) kept.old.items needed.old (reverse back.old.items) }
    requires not_empty { 0 < length back.old.items }
    requires stands { NegationsStand arena.now needed.old }
    requires apart { HasDistinctVariables kept.old.items }
    ensures stands { OnOk result (NegationsStand arena.now needed.new) }
    ensures apart { OnOk result (HasDistinctVariables kept.new.items) }
    ensures needed { OnOk result (KeepsOf kept.old.items kept.new.items needed.new) }
    ensures walk { OnOk result (Walk arena.now [] kept.new.items needed.new (reverse back.new.items)) }
    ensures kept { OnOk result (KeepsOf kept.old.items kept.new.items (lits steps.now)) }
    ensures grows { OnOk result ((l : _) → is_assigned kept.old.items l ≡ true → is_assigned kept.new.items l ≡ true) }
    ensures decided { OnOk result (IsTrue only_decided → KeepsOf kept.old.items kept.new.items (decided steps.now)) }
{
    let mut levels = Levels {
        first: 0,
        last: 0,
        count: 0,
    };
    let mut i = steps.len();
    while i > 0 {
        i -= 1;
        let step = steps[i];
        if needed.has(step.lit) {
            match resolved_by(step, only_decided, is_marked(covered, i)) {
                Some(id) => {
                    back.push(id)?;
                    needed.add_opposites(arena.clause(id))?;
                }
                None => {
                    kept.push(step.lit)?;
                    levels = with_level(levels, step.level);
                }
            }
        }
    }
    Ok(levels)
}

/// The clause that negates what was kept.
fn negate_kept(alloc: Global, kept: &[Lit]) -> Result<Vec<Lit>, AllocError>
    requires apart { HasDistinctVariables kept.now }
    ensures names { IfOk result (λ v. (l : _) → is_assigned (map opposite v.items) l ≡ is_assigned kept.now l) }
    ensures increasing { IfOk result (λ v. IsIncreasing v.items) }
{
    let mut clause = Vec::new(alloc);
    for l in kept {
        clause.push(negate(*l))?;
    }
    clause.sort_by_key(|l| l.var)?;
    Ok(clause)
}

/// The hints from the first one on, where they were found from the last one on.
fn in_turn(mut back: Vec<u64>) -> Vec<u64>
    ensures { result.items ≡ reverse back.items }
{
    back.reverse();
    back
}

/// The place of a literal of the trail.
fn place_of(steps: &[Step], l: Lit) -> usize
    requires { is_assigned (lits steps.now) l ≡ true }
    ensures within { result < length steps.now }
    ensures there { (d : _) → (slice_index_or steps.now result d).lit ≡ l }
{
    for (i, s) in steps.iter().enumerate() {
        if same(l, s.lit) {
            return i;
        }
    }
    unreachable!()
}
