//! The pairs of a train: a route, and how many of the train's visits are made before it.

ghost use Rattle.std.specs.Prelude.{◌≡◌, ◌≤◌, ◌<◌, ◌==◌, All, IfOk, filter, length, map, slice_index};
ghost use Rattle.rail_base.specs.Numbering.{count_from};
ghost use Rattle.train_ways.specs.Pairs.{all_made, all_onward, graph, pair_of, route_of, starts};

use crate::visits::made_behind;
use interlocking::{Interlocking, starts_in};
use rail_base::list::List;
use rail_base::route::RouteNo;
use rail_base::station::NodeNo;
use std::alloc::{AllocError, Global};

/// The number of a pair, where the train has so many visits.
pub(crate) fn pair_of(width: usize, route: RouteNo, made: usize) -> usize
    requires width { width ≤ 16 }
    requires route { 1 ≤ route.0 }
    requires made { 1 ≤ made }
    requires within { made ≤ width }
    ensures { result ≡ pair_of width route made }
{
    (route.0 as usize - 1) * width + (made - 1)
}

/// The route of a pair.
pub(crate) fn route_of(width: usize, pair: usize) -> RouteNo
    requires width { 1 ≤ width }
    requires pair { pair < 32000 }
    ensures { result ≡ route_of width pair }
{
    RouteNo((pair / width) as u32 + 1)
}

/// How many visits are made after the route of each pair.
pub(crate) fn all_made(
    alloc: Global,
    interlocking: &Interlocking,
    visits: &[List<NodeNo>],
) -> Result<Vec<usize>, AllocError>
    requires low { 1 ≤ length visits.now }
    requires high { length visits.now ≤ 16 }
    ensures { IfOk result (λ made. made.items ≡ all_made interlocking.now.routes visits.now) }
{
    let width = visits.len();
    let mut made = Vec::new(alloc);
    for pair in 0..interlocking.routes.len() * width {
        let route = interlocking.route(route_of(width, pair));
        made.push(made_behind(visits, route, pair % width + 1))?;
    }
    Ok(made)
}

/// The pairs that can come next after each.
pub(crate) fn next_pairs(
    alloc: Global,
    interlocking: &Interlocking,
    onward: &[List<RouteNo>],
    visits: &[List<NodeNo>],
    made: &[usize],
) -> Result<Vec<List<usize>>, AllocError>
    requires low { 1 ≤ length visits.now }
    requires high { length visits.now ≤ 16 }
    requires onward { onward.now ≡ all_onward interlocking.now.routes }
    requires made { made.now ≡ all_made interlocking.now.routes visits.now }
    ensures { IfOk result (λ next. next.items ≡ graph interlocking.now.routes visits.now) }
{
    let width = visits.len();
    let mut next = Vec::new(alloc);
    for (pair, made) in made.iter().enumerate() {
        let routes = onward[pair / width].as_slice();
        next.push(pairs_of(alloc, width, routes, *made)?)?;
    }
    Ok(next)
}

/// The pairs of routes before which so many visits are made.
fn pairs_of(
    alloc: Global,
    width: usize,
    routes: &[RouteNo],
    made: usize,
) -> Result<List<usize>, AllocError>
    requires width { width ≤ 16 }
    requires routes { All (λ q. 1 ≤ q.0) routes.now }
    requires made { 1 ≤ made }
    requires within { made ≤ width }
    ensures { IfOk result (λ pairs. pairs ≡ map (λ q. pair_of width q made) routes.now) }
{
    let mut pairs = List::new(alloc);
    for route in routes {
        pairs.push(pair_of(width, *route, made))?;
    }
    Ok(pairs)
}

/// The pairs with which a walk can begin.
pub(crate) fn starts(
    alloc: Global,
    interlocking: &Interlocking,
    visits: &[List<NodeNo>],
) -> Result<Vec<usize>, AllocError>
    requires low { 1 ≤ length visits.now }
    requires high { length visits.now ≤ 16 }
    ensures { IfOk result (λ pairs. pairs.items ≡ starts interlocking.now.routes visits.now) }
{
    let first = visits[0].as_slice();
    let mut pairs = Vec::new(alloc);
    for number in 1..interlocking.routes.len() as u32 + 1 {
        let route = RouteNo(number);
        if starts_in(first, interlocking.route(route).start) {
            pairs.push(pair_of(visits.len(), route, 1))?;
        }
    }
    Ok(pairs)
}

/// The pairs after which so many visits are made, in order.
pub(crate) fn ends(alloc: Global, made: &[usize], all: usize) -> Result<Vec<usize>, AllocError>
    ensures { IfOk result (λ pairs. pairs.items
        ≡ filter (λ p. slice_index made.now p == all) (count_from 0 (length made.now))) }
{
    let mut pairs = Vec::new(alloc);
    for (pair, made) in made.iter().enumerate() {
        if *made == all {
            pairs.push(pair)?;
        }
    }
    Ok(pairs)
}
