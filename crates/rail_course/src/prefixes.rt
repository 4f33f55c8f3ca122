//! The prefixes of a path.

ghost use Rattle.std.specs.Prelude.{◌≡◌, ◌+◌, ◌<◌, ◌^◌, All, IfOk, length};
ghost use Rattle.rail_base.specs.Routes.{IsRoute};
ghost use Rattle.rail_base.specs.Routes.{length_mm};
ghost use Rattle.rail_course.specs.Tracks.{routes_at, path_length, edges_of, held_count};
ghost use Rattle.rail_course.specs.Prefixes.{prefixes_from, no_prefix, longer};

use rail_base::route::{Route, RouteNo, RouteTable, route_at};
use std::alloc::{AllocError, Global};

/// The first routes of a path, so many of them.
#[derive(Clone, Copy, Debug)]
pub struct PathPrefix {
    /// How many spans they have.
    pub spans: usize,
    /// Their length, in mm.
    pub length: u64,
    /// How many sections are held behind their ends.
    pub holds: usize,
    /// Whether one of them exits.
    pub exits: bool,
}

/// The prefixes of a path: of none of its routes, of the first, of the first two, up to all.
pub fn prefixes_of(
    alloc: Global,
    routes: &RouteTable,
    path: &[RouteNo],
) -> Result<Vec<PathPrefix>, AllocError>
    requires named { All (IsRoute routes.now) path.now }
    requires spans { length (edges_of routes.now path.now) < 2 ^ 47 }
    requires below_2_47 { path_length routes.now path.now < 2 ^ 47 }
    requires holds { held_count routes.now path.now < 2 ^ 52 }
    ensures { IfOk result (λ prefixes. prefixes.items ≡ prefixes_from no_prefix (routes_at routes.now path.now)) }
{
    let mut prefixes = Vec::new(alloc);
    let mut prefix = PathPrefix {
        spans: 0,
        length: 0,
        holds: 0,
        exits: false,
    };
    for number in path {
        prefixes.push(prefix)?;
        prefix = longer(prefix, route_at(routes, *number));
    }
    prefixes.push(prefix)?;
    Ok(prefixes)
}

/// A prefix with one more route.
fn longer(prefix: PathPrefix, route: &Route) -> PathPrefix
    requires spans { prefix.spans + length route.now.edges < 2 ^ 47 }
    requires below_2_47 { prefix.length + length_mm route.now < 2 ^ 47 }
    requires holds { prefix.holds + length route.now.overlaps < 2 ^ 52 }
    ensures { result ≡ longer prefix route.now }
{
    let exits = prefix.exits || route.exits();
    PathPrefix {
        spans: prefix.spans + route.edges.len(),
        length: prefix.length + route.length_mm(),
        holds: prefix.holds + route.overlaps.len(),
        exits,
    }
}
