//! Whether places name routes of a design.

ghost use Rattle.std.specs.Prelude.{◌≡◌, length};
ghost use Rattle.std.specs.List.{list_all};
ghost use Rattle.rail_base.specs.Admission.{is_from};
ghost use Rattle.bound_design.specs.Named.{place_fits};

use crate::lists::{are_increasing, is_empty};
use crate::requirement::is_one_of;
use bound_spec::Place;
use interlocking::Interlocking;
use rail_base::route::{RouteNo, RouteTable};

/// Whether the place names routes of the design, each once.
pub(crate) fn place_in_design(interlocking: &Interlocking, place: &Place) -> bool
    ensures { result ≡ place_fits interlocking.now place.now }
{
    let table = &interlocking.routes;
    match place {
        Place::Named { route } => is_one_of(route.0, table.len()),
        Place::Among { routes, without } => {
            !is_empty(routes.as_slice())
                && are_routes(table, routes.as_slice())
                && are_increasing(routes.as_slice())
                && are_routes(table, without.as_slice())
                && are_increasing(without.as_slice())
        }
    }
}

/// Whether all routes are there.
fn are_routes(table: &RouteTable, routes: &[RouteNo]) -> bool
    ensures { result ≡ list_all (λ r. is_from 1 (length table.now) r.0) routes.now }
{
    routes.iter().all(|route| is_one_of(route.0, table.len()))
}
