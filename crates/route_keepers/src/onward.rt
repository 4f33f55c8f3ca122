//! The routes that go on where each route ends.

ghost use Rattle.std.specs.Prelude.{◌≡◌, IfOk};
ghost use Rattle.rail_base.specs.Routes.{IsRoute};
ghost use Rattle.route_keepers.specs.Chains.{all_going_on, going_on};

use interlocking::{Interlocking, goes_on};
use rail_base::list::List;
use rail_base::route::RouteNo;
use std::alloc::{AllocError, Global};

/// The routes that go on where each route ends.
pub(crate) fn all_going_on(
    alloc: Global,
    interlocking: &Interlocking,
) -> Result<Vec<List<RouteNo>>, AllocError>
    ensures { IfOk result (λ lists. lists.items ≡ all_going_on interlocking.now.routes) }
{
    let mut lists = Vec::new(alloc);
    for number in 1..interlocking.routes.len() as u32 + 1 {
        lists.push(going_on(alloc, interlocking, RouteNo(number))?)?;
    }
    Ok(lists)
}

/// The routes that go on where one ends, in order.
fn going_on(
    alloc: Global,
    interlocking: &Interlocking,
    route: RouteNo,
) -> Result<List<RouteNo>, AllocError>
    requires { IsRoute interlocking.now.routes route }
    ensures { IfOk result (λ routes. routes ≡ going_on interlocking.now.routes route) }
{
    let finish = interlocking.route(route).finish;
    let mut routes = List::new(alloc);
    for number in 1..interlocking.routes.len() as u32 + 1 {
        let other = RouteNo(number);
        if goes_on(finish, interlocking.route(other).start) {
            routes.push(other)?;
        }
    }
    Ok(routes)
}
