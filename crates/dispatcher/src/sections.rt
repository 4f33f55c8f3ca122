//! The sections of routes.

ghost use Rattle.std.specs.Prelude.{◌≡◌, IfOk};
ghost use Rattle.rail_base.specs.Routes.{sections};

use rail_base::route::Route;
use rail_base::station::SectionNo;
use std::alloc::{AllocError, Global};

/// The sections of a route: those that it goes over, and then those of the overlap at its end.
pub(crate) fn sections_of(alloc: Global, route: &Route) -> Result<Vec<SectionNo>, AllocError>
    ensures { IfOk result (λ zs. zs.items ≡ sections route.now) }
{
    let mut sections = Vec::new(alloc);
    for part in route.sections.as_slice() {
        sections.push(part.0)?;
    }
    for part in route.overlaps.as_slice() {
        sections.push(part.section)?;
    }
    Ok(sections)
}
