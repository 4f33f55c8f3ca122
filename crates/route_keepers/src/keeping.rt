//! The routes that can keep a train from a section of another.

ghost use Rattle.std.specs.Prelude.{◌≡◌, IfOk};
ghost use Rattle.rail_base.specs.Routes.{IsRoute};
ghost use Rattle.route_keepers.specs.Keepers.{all_keepers, keepers_of};
ghost use Rattle.route_keepers.specs.Sharing.{sharing};

use crate::chains::Chains;
use interlocking::Interlocking;
use rail_base::list::List;
use rail_base::route::RouteNo;
use std::alloc::{AllocError, Global};

/// For each route those of which one, being given, can keep another train from a section of the route: a chain leads to
/// it from a route that shares a section with that route.
///
/// # Errors
///
/// Want of memory alone.
pub fn keepers(alloc: Global, interlocking: &Interlocking) -> Result<Vec<List<RouteNo>>, AllocError>
    ensures { IfOk result (λ rows. rows.items ≡ all_keepers interlocking.now.routes) }
{
    let chains = Chains::of(alloc, interlocking)?;
    let mut rows = Vec::new(alloc);
    for number in 1..interlocking.routes.len() as u32 + 1 {
        rows.push(keepers_of(alloc, &chains, RouteNo(number))?)?;
    }
    Ok(rows)
}

/// Those of one route, in order.
fn keepers_of(alloc: Global, chains: &Chains, route: RouteNo) -> Result<List<RouteNo>, AllocError>
    requires { IsRoute chains.now.interlocking.now.routes route }
    ensures { IfOk result (λ keepers. keepers ≡ keepers_of chains.now.interlocking.now.routes route) }
{
    let sharing = sharing(alloc, chains.interlocking, route)?;
    let mut keepers = List::new(alloc);
    for number in 1..chains.interlocking.routes.len() as u32 + 1 {
        let keeper = RouteNo(number);
        if chains.lead_from_one(&sharing, keeper) {
            keepers.push(keeper)?;
        }
    }
    Ok(keepers)
}

/// The routes that share a section with one, in order.
fn sharing(
    alloc: Global,
    interlocking: &Interlocking,
    route: RouteNo,
) -> Result<Vec<RouteNo>, AllocError>
    requires { IsRoute interlocking.now.routes route }
    ensures { IfOk result (λ routes. routes.items ≡ sharing interlocking.now.routes route) }
{
    let mut routes = Vec::new(alloc);
    for number in 1..interlocking.routes.len() as u32 + 1 {
        let other = RouteNo(number);
        if interlocking.share(other, route) {
            routes.push(other)?;
        }
    }
    Ok(routes)
}
