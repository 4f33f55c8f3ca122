//! A large trail, which is propagated step by step.

ghost use Rattle.std.specs.Prelude.{◌≡◌, ◌≤◌, OnOk};
ghost use Rattle.sat_trail.specs.Attached.{AreLive};
ghost use Rattle.sat_trail.specs.Trails.{IsTrail, IsIn, AllIn};
ghost use Rattle.sat_trail.specs.Forced.{VarsUpTo};

use sat_clause::{Arena, Lit};
use sat_trail::Trail;
use std::alloc::AllocError;

fn lit(var: u32, negated: bool) -> Lit
    ensures var { result.var ≡ var }
    ensures negated { result.negated ≡ negated }
{
    Lit { var, negated }
}

/// Pushes a clause and attaches it.
fn add(arena: &mut Arena, trail: &mut Trail, clause: &[Lit]) -> Result<(), AllocError>
    requires attached { AreLive arena.old trail.old.attached }
    requires trail { IsTrail arena.old trail.old.steps }
    requires vars { VarsUpTo arena.old trail.old.vars }
    requires in_vars { AllIn trail.old.vars clause.now }
    ensures attached { OnOk result (AreLive arena.new trail.new.attached) }
    ensures trail { OnOk result (IsTrail arena.new trail.new.steps) }
    ensures vars { OnOk result (VarsUpTo arena.new trail.new.vars) }
    ensures same { trail.new.vars ≡ trail.old.vars }
{
    let id = arena.push(clause)?;
    trail.attach(arena, id)?;
    Ok(())
}

/// Decides a literal where its variable has no value, and propagates.
fn choose(arena: &Arena, trail: &mut Trail, l: Lit) -> Result<Option<u64>, AllocError>
    requires attached { AreLive arena.now trail.old.attached }
    requires trail { IsTrail arena.now trail.old.steps }
    requires vars { VarsUpTo arena.now trail.old.vars }
    requires in_vars { IsIn trail.old.vars l }
    ensures attached { AreLive arena.now trail.new.attached }
    ensures trail { IsTrail arena.now trail.new.steps }
    ensures same { trail.new.vars ≡ trail.old.vars }
{
    if trail.lacks(l) {
        trail.decide(l);
        return trail.propagate(arena);
    }
    trail.propagate(arena)
}

/// After how many decisions of these variables the trail is closed.
fn times_closed(arena: &Arena, trail: &mut Trail, from: u32, to: u32) -> Result<u32, AllocError>
    requires attached { AreLive arena.now trail.old.attached }
    requires trail { IsTrail arena.now trail.old.steps }
    requires vars { VarsUpTo arena.now trail.old.vars }
    requires from { 1 ≤ from }
    requires to { to ≤ trail.old.vars }
{
    let mut closed = 0u32;
    'choices: for var in from..=to {
        if choose(arena, trail, lit(var, false))?.is_none() {
            closed = closed.saturating_add(1);
        }
    }
    Ok(closed)
}

#[test]
fn a_large_trail_is_propagated_step_by_step(rt: HostRuntime) -> Result<(), AllocError> {
    let vars = 500_000;
    let mut arena = Arena::new(rt.alloc());
    let mut trail = Trail::new(rt.alloc(), vars)?;
    'clauses: for i in 1..=200_000u32 {
        add(
            &mut arena,
            &mut trail,
            &[lit(2 * i - 1, false), lit(2 * i, false)],
        )?;
    }
    assert_eq!(rt; times_closed(&arena, &mut trail, 400_001, vars)?, 100_000);
    Ok(())
}
