//! How the clause of a cone is made.

ghost use Rattle.std.specs.Prelude.{◌≡◌, true, IfOk};
ghost use Rattle.std.specs.List.{list_all};
ghost use Rattle.command_set.specs.Commands.{is_among};
ghost use Rattle.cone_form.specs.Fits.{fits};
ghost use Rattle.live_clause_spec.specs.Listed.{is_live_for};
ghost use Rattle.cone_clause.specs.Contentions.{left_over, over};
ghost use Rattle.cone_clause.specs.Numbered.{HasLiterals, base_clause, names_only};

use crate::contention::Contention;
use crate::numbered::NumberedCone;
use command_set::CommandSet;
use cone_spec::{Cone, ConeTrain};
use interlocking::Steps;
use rail_base::plan::Command;
use sat_clause::Lit;
use std::alloc::{AllocError, Global};

/// What is left of the clause of a cone where commands that the base doesn't speak of are never given, over the
/// variables of the base for plans of so many steps, by increasing variable. None where the cone has such a command:
/// its clause is true by that.
///
/// # Errors
///
/// Want of memory alone.
pub fn clause_of(
    alloc: Global,
    contention: &Contention,
    steps: Steps,
    cone: &Cone,
) -> Result<Option<Vec<Lit>>, AllocError>
    requires fits { fits contention.now.interlocking.now cone.now ≡ true }
    ensures { IfOk result (λ c. HasLiterals c
        (left_over contention.now steps.count (over contention.now base_clause steps.count cone.now))) }
{
    if !names_only(contention.pairs.commands(), cone) {
        return Ok(None);
    }
    let cone = NumberedCone {
        contention: *contention,
        steps,
        cone,
    };
    let mut clause = Vec::new(alloc);
    cone.push_used(alloc, &mut clause)?;
    cone.push_before(alloc, &mut clause)?;
    Ok(Some(clause))
}

/// Whether all commands of a cone are among these.
fn names_only(commands: &CommandSet, cone: &Cone) -> bool
    ensures { result ≡ names_only (is_among commands.now) cone.now }
{
    cone.trains
        .as_slice()
        .iter()
        .all(|entry| has_path(commands, entry))
}

/// Whether all commands of a train's path are among these.
fn has_path(commands: &CommandSet, entry: &ConeTrain) -> bool
    ensures { result ≡ list_all (is_live_for (is_among commands.now) entry.now.train) entry.now.path }
{
    entry.path.as_slice().iter().all(|route| {
        commands.contains(Command {
            train: entry.train,
            route: *route,
        })
    })
}
