//! Routes by number; one that is not there starts and ends nowhere, and has no length and no section.

ghost use Rattle.std.specs.Prelude.{◌≡◌};
ghost use Rattle.rail_base.specs.Routes.{exits, goes_over, has_section, length_mm, release_offset, route_at};

use rail_base::names::entry;
use rail_base::route::{Finish, RouteNo, RouteTable, Start};
use rail_base::station::{NodeNo, SectionNo};

/// Where the route of a number starts.
pub fn start_of(routes: &RouteTable, route: RouteNo) -> Start
    ensures { result ≡ (route_at routes.now route).start }
{
    match entry(routes.as_slice(), route.0 as usize) {
        Some(route) => route.start,
        None => Start::Boundary(NodeNo(0)),
    }
}

/// Where it ends.
pub fn finish_of(routes: &RouteTable, route: RouteNo) -> Finish
    ensures { result ≡ (route_at routes.now route).finish }
{
    match entry(routes.as_slice(), route.0 as usize) {
        Some(route) => route.finish,
        None => Finish::DeadEnd(NodeNo(0)),
    }
}

/// How long it is, in mm.
pub(crate) fn length_of(routes: &RouteTable, route: RouteNo) -> u64
    ensures { result ≡ length_mm (route_at routes.now route) }
{
    match entry(routes.as_slice(), route.0 as usize) {
        Some(route) => route.length_mm(),
        None => 0,
    }
}

/// Whether trains exit at its end.
pub(crate) fn exits(routes: &RouteTable, route: RouteNo) -> bool
    ensures { result ≡ exits (route_at routes.now route) }
{
    match entry(routes.as_slice(), route.0 as usize) {
        Some(route) => route.exits(),
        None => false,
    }
}

/// Whether it goes over a section.
pub(crate) fn goes_over(routes: &RouteTable, route: RouteNo, section: SectionNo) -> bool
    ensures { result ≡ goes_over (route_at routes.now route) section }
{
    match entry(routes.as_slice(), route.0 as usize) {
        Some(route) => route.goes_over(section),
        None => false,
    }
}

/// Whether it has a section, as its own or of the overlap at its end.
pub(crate) fn has_section(routes: &RouteTable, route: RouteNo, section: SectionNo) -> bool
    ensures { result ≡ has_section (route_at routes.now route) section }
{
    match entry(routes.as_slice(), route.0 as usize) {
        Some(route) => route.has_section(section),
        None => false,
    }
}

/// Where it releases a section, in mm from its start.
pub(crate) fn release_of(routes: &RouteTable, route: RouteNo, section: SectionNo) -> u64
    ensures { result ≡ release_offset (route_at routes.now route) section }
{
    match entry(routes.as_slice(), route.0 as usize) {
        Some(route) => route.release_offset(section),
        None => 0,
    }
}
