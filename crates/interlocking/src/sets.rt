//! The sets of the routes' sections.

ghost use Rattle.std.specs.Prelude.{IfOk};
ghost use Rattle.interlocking.specs.Sections.{AreSectionSets, IsSectionSet};

use number_sets::NumberSet;
use rail_base::route::{Route, RouteTable};
use std::alloc::{AllocError, Global};

/// For each route the set of its sections.
pub(crate) fn section_sets(alloc: Global, routes: &RouteTable) -> Result<Vec<NumberSet>, AllocError>
    ensures { IfOk result (λ sets. AreSectionSets routes.now sets.items) }
{
    let mut sets = Vec::new(alloc);
    for route in routes.as_slice() {
        sets.push(section_set(alloc, route)?)?;
    }
    Ok(sets)
}

/// The set of a route's sections, those of its overlap among them.
fn section_set(alloc: Global, route: &Route) -> Result<NumberSet, AllocError>
    ensures { IfOk result (λ set. IsSectionSet set route.now) }
{
    let mut set = NumberSet::new(alloc);
    for part in route.sections.as_slice() {
        set.add(part.0.0)?;
    }
    for held in route.overlaps.as_slice() {
        set.add(held.section.0)?;
    }
    Ok(set)
}
