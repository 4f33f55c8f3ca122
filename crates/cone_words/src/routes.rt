//! Routes by where they start and end. An error is want of memory; then a part of what is appended may stand there.

ghost use Rattle.std.specs.Prelude.{◌≡◌, ◌++◌, find, OnOk};
ghost use Rattle.rail_base.specs.Routes.{own_sections};
ghost use Rattle.rail_spec.specs.Plans.{is_start};
ghost use Rattle.interlocking.specs.Plans.{on};
ghost use Rattle.rail_text.specs.Added.{AddsText};
ghost use Rattle.cone_words.specs.Phrases.{each_after, joined};
ghost use Rattle.cone_words.specs.Routes.{any_route_text, by_text, ends_text, finish_name, is_finish, is_twin};
ghost use Rattle.cone_words.specs.Routes.{path_text, route_text, ends_text_at, start_name, tells_apart};

use interlocking::Interlocking;
use rail_base::design::Design;
use rail_base::names::{entry, node_name, section_name, signal_name};
use rail_base::route::{Finish, Route, RouteNo, RouteTable, Start};
use rail_base::station::SectionNo;
use rail_text::put_number;
use std::alloc::AllocError;

/// Appends routes, of which any may be the one.
pub fn put_any_route(
    text: &mut Vec<u8>,
    interlocking: &Interlocking,
    routes: &[RouteNo],
) -> Result<(), AllocError>
    ensures { OnOk result (AddsText text.old text.new (on interlocking.now any_route_text routes.now)) }
{
    text.extend_from_slice(b"route ")?;
    put_joined(text, interlocking, b" or ", routes)
}

/// Appends routes in a row.
pub fn put_path(
    text: &mut Vec<u8>,
    interlocking: &Interlocking,
    routes: &[RouteNo],
) -> Result<(), AllocError>
    ensures { OnOk result (AddsText text.old text.new (on interlocking.now path_text routes.now)) }
{
    text.extend_from_slice(b"route ")?;
    put_joined(text, interlocking, b", route ", routes)
}

/// Appends a route by where it starts and ends, with its number behind.
pub fn put_route(
    text: &mut Vec<u8>,
    interlocking: &Interlocking,
    route: RouteNo,
) -> Result<(), AllocError>
    ensures { OnOk result (AddsText text.old text.new (on interlocking.now route_text route)) }
{
    put_ends_at(text, interlocking, route)?;
    text.extend_from_slice(b" (")?;
    put_number(text, u64::from(route.0))?;
    text.extend_from_slice(b")")
}

/// The boundary or the signal at which a route starts.
fn start_name(design: &Design, start: Start) -> &[u8]
    ensures { result.now ≡ start_name design.now.station start }
{
    match start {
        Start::Boundary(node) => node_name(design, node),
        Start::Signal(signal) => signal_name(design, signal),
    }
}

/// The signal, the boundary or the last node at which a route ends.
pub fn finish_name(design: &Design, finish: Finish) -> &[u8]
    ensures { result.now ≡ finish_name design.now.station finish }
{
    match finish {
        Finish::Exit(node) => node_name(design, node),
        Finish::Signal(signal) => signal_name(design, signal),
        Finish::DeadEnd(node) => node_name(design, node),
    }
}

/// Whether both start at one place.
fn is_start(start: Start, other: Start) -> bool
    ensures { result ≡ is_start start other }
{
    match (start, other) {
        (Start::Boundary(node), Start::Boundary(end)) => node.0 == end.0,
        (Start::Signal(signal), Start::Signal(end)) => signal.0 == end.0,
        (Start::Boundary(_), Start::Signal(_)) => false,
        (Start::Signal(_), Start::Boundary(_)) => false,
    }
}

/// Whether both end at one place.
fn is_finish(finish: Finish, other: Finish) -> bool
    ensures { result ≡ is_finish finish other }
{
    match (finish, other) {
        (Finish::Exit(node), Finish::Exit(end)) => node.0 == end.0,
        (Finish::Exit(_), Finish::Signal(_)) => false,
        (Finish::Exit(_), Finish::DeadEnd(_)) => false,
        (Finish::Signal(_), Finish::Exit(_)) => false,
        (Finish::Signal(signal), Finish::Signal(end)) => signal.0 == end.0,
        (Finish::Signal(_), Finish::DeadEnd(_)) => false,
        (Finish::DeadEnd(_), Finish::Exit(_)) => false,
        (Finish::DeadEnd(_), Finish::Signal(_)) => false,
        (Finish::DeadEnd(node), Finish::DeadEnd(end)) => node.0 == end.0,
    }
}

/// Whether two routes start at one place, and end at one.
fn is_twin(route: &Route, other: &Route) -> bool
    ensures { result ≡ is_twin route.now other.now }
{
    is_start(route.start, other.start) && is_finish(route.finish, other.finish)
}

/// Whether of the routes that start and end as this one does some one does not go over the section.
fn tells_apart(routes: &[Route], route: &Route, section: SectionNo) -> bool
    ensures { result ≡ tells_apart routes.now route.now section }
{
    routes
        .iter()
        .any(|other| is_twin(route, other) && !other.goes_over(section))
}

/// The first section in which routes differ that start and end as this one does.
fn way_of(routes: &RouteTable, route: &Route) -> Option<SectionNo>
    ensures { result ≡ find (tells_apart routes.now route.now) (own_sections route.now) }
{
    for part in route.sections.as_slice() {
        if tells_apart(routes.as_slice(), route, part.0) {
            return Some(part.0);
        }
    }
    None
}

/// Appends by which section a route goes.
fn put_by(text: &mut Vec<u8>, design: &Design, section: Option<SectionNo>) -> Result<(), AllocError>
    ensures { OnOk result (AddsText text.old text.new (by_text design.now.station section)) }
{
    match section {
        None => Ok(()),
        Some(section) => {
            text.extend_from_slice(b" by ")?;
            text.extend_from_slice(section_name(design, section))
        }
    }
}

/// Appends where a route starts and ends.
fn put_ends(
    text: &mut Vec<u8>,
    interlocking: &Interlocking,
    route: &Route,
) -> Result<(), AllocError>
    ensures { OnOk result (AddsText text.old text.new (on interlocking.now ends_text route.now)) }
{
    let design = &interlocking.design;
    text.extend_from_slice(start_name(design, route.start))?;
    text.extend_from_slice(b" to ")?;
    text.extend_from_slice(finish_name(design, route.finish))?;
    put_by(text, design, way_of(&interlocking.routes, route))
}

/// Appends where the route of a number starts and ends.
fn put_ends_at(
    text: &mut Vec<u8>,
    interlocking: &Interlocking,
    route: RouteNo,
) -> Result<(), AllocError>
    ensures { OnOk result (AddsText text.old text.new (on interlocking.now ends_text_at route)) }
{
    match entry(interlocking.routes.as_slice(), route.0 as usize) {
        Some(route) => put_ends(text, interlocking, route),
        None => text.extend_from_slice(b" to "),
    }
}

/// Appends the words and a route, for each of these.
fn put_each_route(
    text: &mut Vec<u8>,
    interlocking: &Interlocking,
    between: &[u8],
    routes: &[RouteNo],
) -> Result<(), AllocError>
    ensures { OnOk result (AddsText text.old text.new
        (each_after between.now (on interlocking.now route_text) routes.now)) }
{
    for route in routes {
        text.extend_from_slice(between)?;
        put_route(text, interlocking, *route)?;
    }
    Ok(())
}

/// Appends routes, with the words between each and the next.
fn put_joined(
    text: &mut Vec<u8>,
    interlocking: &Interlocking,
    between: &[u8],
    routes: &[RouteNo],
) -> Result<(), AllocError>
    ensures { OnOk result (AddsText text.old text.new
        (joined between.now (on interlocking.now route_text) routes.now)) }
{
    match routes {
        [] => Ok(()),
        [first, rest @ ..] => {
            put_route(text, interlocking, *first)?;
            put_each_route(text, interlocking, between, rest)
        }
    }
}
