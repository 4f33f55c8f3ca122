//! The table of all routes of a design.

ghost use Rattle.std.specs.Prelude.{◌≡◌, ◌++◌, ◌-◌, ◌≤◌, IfErr, IfOk, OnOk, None, length};
ghost use Rattle.rail_laws.specs.Elementary.{IsStart};
ghost use Rattle.rail_spec.specs.Track.{walks_from, routes_of};
ghost use Rattle.rail_routes.specs.Refusals.{fault_of, routes_from, HasFault, IsFaultOf, CanBeListed};

use crate::fault::RouteFault;
use crate::route::route_of;
use crate::search::{Closed, Search};
use crate::starts::{start_end, starts};
use crate::track::Track;
use interlocking::Interlocking;
use rail_base::design::Design;
use rail_base::list::List;
use rail_base::route::{Route, RouteTable, Start};
use std::alloc::Global;

/// How many routes a design may have.
const MOST_ROUTES: usize = 2000;

/// A design with its elementary routes, numbered from 1: by the file order of their starts' nodes, at one node toward a
/// before toward b, and from one start depth first, edges at a side in file order.
///
/// # Errors
///
/// `RepeatsEdge` exactly where one of the first 2,001 closed paths meets an edge again, with the edge that the first
/// such path meets; else `TooMany` exactly where there are 2,001 closed paths or more; `Memory` where memory is
/// wanting.
pub fn interlocking(alloc: Global, design: Design) -> Result<Interlocking, RouteFault>
    ensures design { IfOk result (λ made. made.design ≡ design) }
    ensures can_be_listed { OnOk result (CanBeListed design.station) }
    ensures fault { IfErr result (HasFault design.station) }
{
    let routes = routes(alloc, &design)?;
    Ok(Interlocking::new(alloc, design, routes)?)
}

/// Adds the routes from a start.
fn add_routes<'a>(
    alloc: Global,
    track: &'a Track<'a>,
    start: Start,
    table: &mut Vec<Route>,
) -> Result<(), RouteFault>
    requires start { IsStart track.now.design.now.station start }
    requires at_most_2000 { length table.old.items ≤ 2000 }
    ensures sound { OnOk result
        (fault_of (2000 - length table.old.items) (walks_from track.now.design.now.station start) ≡ None) }
    ensures added { OnOk result
        (table.new.items ≡ table.old.items ++ routes_from track.now.design.now.station start) }
    ensures at_most_2000 { OnOk result (length table.new.items ≤ 2000) }
    ensures fault { IfErr result
        (IsFaultOf (2000 - length table.old.items) (walks_from track.now.design.now.station start)) }
{
    let from = start_end(track, start);
    let mut search = Search::new(alloc, track, from)?;
    while let Some(closed) = search.next()? {
        match closed {
            Closed::RepeatsEdge(edge) => return Err(RouteFault::RepeatsEdge { edge }),
            Closed::Whole(finish) => {
                if table.len() == MOST_ROUTES {
                    return Err(RouteFault::TooMany);
                }
                let path = search.path.edges.as_slice();
                table.push(route_of(alloc, track, path, start, finish)?)?;
            }
        }
    }
    Ok(())
}

/// The elementary routes of the design with this track.
fn routes_along<'a>(alloc: Global, track: &'a Track<'a>) -> Result<RouteTable, RouteFault>
    ensures routes { IfOk result (λ routes. routes ≡ routes_of track.now.design.now.station) }
    ensures at_most_2000 { IfOk result (λ routes. length routes ≤ 2000) }
    ensures can_be_listed { OnOk result (CanBeListed track.now.design.now.station) }
    ensures fault { IfErr result (HasFault track.now.design.now.station) }
{
    let starts = starts(alloc, track)?;
    let mut table = Vec::new(alloc);
    for start in starts.as_slice() {
        add_routes(alloc, track, *start, &mut table)?;
    }
    Ok(List::from_vec(table))
}

/// The elementary routes of a design.
fn routes(alloc: Global, design: &Design) -> Result<RouteTable, RouteFault>
    ensures routes { IfOk result (λ routes. routes ≡ routes_of design.now.station) }
    ensures at_most_2000 { IfOk result (λ routes. length routes ≤ 2000) }
    ensures can_be_listed { OnOk result (CanBeListed design.now.station) }
    ensures fault { IfErr result (HasFault design.now.station) }
{
    let track = Track::new(alloc, design)?;
    routes_along(alloc, &track)
}
