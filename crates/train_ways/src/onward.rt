//! The routes that go on where each route ends.

ghost use Rattle.std.specs.Prelude.{◌≡◌, IfOk};
ghost use Rattle.rail_base.specs.Routes.{IsRoute};
ghost use Rattle.train_ways.specs.Pairs.{all_onward, onward};

use interlocking::{Interlocking, goes_on};
use rail_base::list::List;
use rail_base::route::RouteNo;
use std::alloc::{AllocError, Global};

/// An interlocking with the routes that go on where each of its routes ends.
#[derive(Drop)]
pub struct OnwardRoutes<'a> {
    pub interlocking: &'a Interlocking,
    pub(crate) lists: Vec<List<RouteNo>>,
    pub ghost onward: { lists.items ≡ all_onward interlocking.now.routes },
}

impl<'a> OnwardRoutes<'a> {
    /// Those of an interlocking.
    ///
    /// # Errors
    ///
    /// Want of memory alone.
    pub fn of(alloc: Global, interlocking: &'a Interlocking) -> Result<OnwardRoutes<'a>, AllocError>
        ensures { IfOk result (λ routes. routes.interlocking.now ≡ interlocking.now) }
    {
        let lists = all_onward(alloc, interlocking)?;
        Ok(OnwardRoutes {
            interlocking,
            lists,
        })
    }
}

/// The routes that go on where each route ends.
fn all_onward(alloc: Global, interlocking: &Interlocking) -> Result<Vec<List<RouteNo>>, AllocError>
    ensures { IfOk result (λ lists. lists.items ≡ all_onward interlocking.now.routes) }
{
    let mut lists = Vec::new(alloc);
    for number in 1..interlocking.routes.len() as u32 + 1 {
        lists.push(onward(alloc, interlocking, RouteNo(number))?)?;
    }
    Ok(lists)
}

/// The routes that go on where one ends, in order.
fn onward(
    alloc: Global,
    interlocking: &Interlocking,
    route: RouteNo,
) -> Result<List<RouteNo>, AllocError>
    requires { IsRoute interlocking.now.routes route }
    ensures { IfOk result (λ routes. routes ≡ onward interlocking.now.routes route) }
{
    let finish = interlocking.route(route).finish;
    let mut routes = List::new(alloc);
    for number in 1..interlocking.routes.len() as u32 + 1 {
        let other = RouteNo(number);
        if goes_on(finish, interlocking.route(other).start) {
            routes.push(other)?;
        }
    }
    Ok(routes)
}
