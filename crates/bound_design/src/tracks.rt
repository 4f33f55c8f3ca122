//! The routes of places, and those that are of none.

ghost use Rattle.std.specs.Prelude.{◌≡◌, ◌&&◌, ◌||◌, Bool, All, IfOk, OnOk, false, not};
ghost use Rattle.std.specs.List.{list_all};
ghost use Rattle.rail_base.specs.declared.route.Finish.{Finish};
ghost use Rattle.rail_base.specs.declared.route.Route.{Route};
ghost use Rattle.rail_base.specs.Numbering.{entry};
ghost use Rattle.rail_base.specs.Routes.{IsRoute};
ghost use Rattle.rail_spec.specs.Plans.{goes_on};
ghost use Rattle.bound_design.specs.Covering.{AreOf, AreOpen, AreUnmarked, IsStartSet, leads_into};

use cone_form::{has_mark, marks_of};
use interlocking::Interlocking;
use number_sets::NumberSet;
use rail_base::route::{Finish, Route, RouteNo, RouteTable, Start, route_at};
use std::alloc::{AllocError, Global};

/// The routes of these numbers.
pub(crate) fn routes_of_numbers<'a>(
    alloc: Global,
    table: &'a RouteTable,
    numbers: &[RouteNo],
) -> Result<Vec<&'a Route>, AllocError>
    requires { All (IsRoute table.now) numbers.now }
    ensures { IfOk result (λ rs. AreOf table.now numbers.now rs.items) }
{
    let mut routes = Vec::new(alloc);
    for number in numbers {
        routes.push(route_at(table, *number))?;
    }
    Ok(routes)
}

/// The routes that are neither of these numbers nor kept out.
pub(crate) fn open_routes<'a>(
    alloc: Global,
    interlocking: &'a Interlocking,
    own: &[RouteNo],
    kept: &[RouteNo],
) -> Result<Vec<&'a Route>, AllocError>
    requires own { All (IsRoute interlocking.now.routes) own.now }
    requires kept { All (IsRoute interlocking.now.routes) kept.now }
    ensures { IfOk result (λ rs. AreOpen interlocking.now.routes own.now kept.now rs.items) }
{
    let own = marks_of(alloc, &interlocking.routes, own)?;
    let kept = marks_of(alloc, &interlocking.routes, kept)?;
    let open = unmarked_routes(alloc, interlocking, own.as_slice(), kept.as_slice())?;
    Ok(open)
}

/// The set of the signals at which the routes of these numbers start.
pub(crate) fn starts_of(
    alloc: Global,
    table: &RouteTable,
    numbers: &[RouteNo],
) -> Result<NumberSet, AllocError>
    requires { All (IsRoute table.now) numbers.now }
    ensures { IfOk result (λ set. IsStartSet table.now set numbers.now) }
{
    let mut set = NumberSet::new(alloc);
    for number in numbers {
        add_start(&mut set, route_at(table, *number).start)?;
    }
    Ok(set)
}

/// Whether a route ends at a signal of the set.
pub(crate) fn leads_into(set: &NumberSet, finish: Finish) -> bool
    ensures { result ≡ leads_into set.now finish }
{
    match finish {
        Finish::Signal(signal) => set.contains(signal.0),
        Finish::Exit(_) | Finish::DeadEnd(_) => false,
    }
}

/// Adds a route, unless it is marked.
fn push_unless<'a>(
    open: &mut Vec<&'a Route>,
    route: &'a Route,
    is_marked: bool,
) -> Result<(), AllocError>
    ensures { OnOk result ((test : Route → Bool) → list_all (λ r. not (test r.now)) open.new.items
        ≡ (list_all (λ r. not (test r.now)) open.old.items && (not (test route.now) || is_marked))) }
{
    if !is_marked {
        open.push(route)?;
    }
    Ok(())
}

/// Whether a route has one of two marks.
fn is_marked(own: &[bool], kept: &[bool], route: RouteNo) -> bool
    ensures { result ≡ (entry false own.now route.0 || entry false kept.now route.0) }
{
    has_mark(own, route) || has_mark(kept, route)
}

/// The routes without a mark.
fn unmarked_routes<'a>(
    alloc: Global,
    interlocking: &'a Interlocking,
    own: &[bool],
    kept: &[bool],
) -> Result<Vec<&'a Route>, AllocError>
    ensures { IfOk result (λ rs. AreUnmarked interlocking.now.routes own.now kept.now rs.items) }
{
    let mut open = Vec::new(alloc);
    for number in 1..interlocking.routes.len() as u32 + 1 {
        let route = RouteNo(number);
        push_unless(
            &mut open,
            interlocking.route(route),
            is_marked(own, kept, route),
        )?;
    }
    Ok(open)
}

/// Adds a start, where it is a signal.
fn add_start(set: &mut NumberSet, start: Start) -> Result<(), AllocError>
    ensures { OnOk result ((f : Finish) → leads_into set.new f ≡ (goes_on f start || leads_into set.old f)) }
{
    match start {
        Start::Signal(signal) => set.add(signal.0),
        Start::Boundary(_) => Ok(()),
    }
}
