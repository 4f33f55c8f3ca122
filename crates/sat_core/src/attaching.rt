ghost use Rattle.std.specs.Prelude.{◌≡◌, [], None, OnOk};
ghost use Rattle.sat_clause.specs.Clauses.{live_clause};
ghost use Rattle.sat_trail.specs.Attached.{attached_clause};
ghost use Rattle.sat_trail.specs.Forced.{VarsUpTo};
ghost use Rattle.sat_core.specs.Kept.{AreAttached, IsAttachedIfLive};

use sat_clause::Arena;
use sat_trail::Trail;
use std::alloc::AllocError;

/// Attaches each live clause.
pub fn attach_all(arena: &Arena, trail: &mut Trail) -> Result<(), AllocError>
    requires none { trail.old.attached ≡ [] }
    requires in_vars { VarsUpTo arena.now trail.old.vars }
    ensures { OnOk result (AreAttached arena.now trail.old trail.new) }
{
    'clauses: for done in 0..arena.count() {
        attach_if_live(arena, trail, done + 1)?;
    }
    Ok(())
}

/// Attaches the clause of a number, if it is live.
fn attach_if_live(arena: &Arena, trail: &mut Trail, id: u64) -> Result<(), AllocError>
    requires apart { attached_clause trail.old.attached id ≡ None }
    requires in_vars { VarsUpTo arena.now trail.old.vars }
    ensures { OnOk result (IsAttachedIfLive arena.now trail.old id trail.new) }
{
    if !arena.live(id) {
        return Ok(());
    }
    trail.attach(arena, id)
}
