//! How routes are related.

ghost use Rattle.std.specs.Prelude.{◌≡◌, ◌&&◌, ◌||◌, ◌++◌, ◌∷◌, [], OnOk, cond};
ghost use Rattle.rail_spec.specs.Plans.{is_start};
ghost use Rattle.clause_spec.specs.Clauses.{at_boundary, exclude};

use interlocking::end_at_one_signal;
use rail_base::route::{Route, Start};
use std::alloc::AllocError;

/// Whether no train is given both routes.
pub fn exclude(one: &Route, other: &Route) -> bool
    ensures { result ≡ exclude one.now other.now }
{
    exclude_by_starts(one.start, other.start) || end_at_one_signal(one.finish, other.finish)
}

/// Puts a member at the end of a list, where it belongs there.
pub fn push_if<T: Drop>(list: &mut Vec<T>, item: T, belongs: bool) -> Result<(), AllocError>
    ensures { OnOk result (list.new.items ≡ list.old.items ++ cond belongs (item ∷ []) []) }
{
    if belongs {
        list.push(item)?;
    }
    Ok(())
}

/// Whether two routes start at boundaries, or at one place.
fn exclude_by_starts(one: Start, other: Start) -> bool
    ensures { result ≡ (at_boundary one && at_boundary other || is_start one other) }
{
    match (one, other) {
        (Start::Boundary(_), Start::Boundary(_)) => true,
        (Start::Signal(one), Start::Signal(other)) => one == other,
        _ => false,
    }
}
