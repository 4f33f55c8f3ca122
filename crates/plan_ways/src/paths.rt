//! Paths that have one route more than others.

ghost use Rattle.std.specs.Prelude.{◌≡◌, ◌≤◌, ◌<◌, ◌++◌, ◌∷◌, [], None, flat_map, length, IfOk, IfSome, OnOk};
ghost use Rattle.interlocking.specs.Plans.{on};
ghost use Rattle.plan_ways.specs.Paths.{longer};

use crate::routes::may_go_on_with;
use interlocking::Interlocking;
use rail_base::list::List;
use rail_base::route::RouteNo;
use rail_base::station::TrainNo;
use std::alloc::{AllocError, Global};

/// A path with a route more.
fn with_route(alloc: Global, path: &[RouteNo], route: RouteNo) -> Result<List<RouteNo>, AllocError>
    ensures { IfOk result (λ longer. longer ≡ path.now ++ route ∷ []) }
{
    let mut longer = Vec::new(alloc);
    longer.extend_from_slice(path)?;
    longer.push(route)?;
    Ok(List::from_vec(longer))
}

/// Appends the paths that go on from one with one of these routes.
fn push_longer(
    alloc: Global,
    interlocking: &Interlocking,
    train: TrainNo,
    routes: &[RouteNo],
    path: &[RouteNo],
    paths: &mut Vec<List<RouteNo>>,
) -> Result<(), AllocError>
    ensures { OnOk result (paths.new.items ≡ paths.old.items ++ on interlocking.now longer train routes.now path.now) }
{
    for route in routes {
        if may_go_on_with(interlocking, train, path, *route) {
            paths.push(with_route(alloc, path, *route)?)?;
        }
    }
    Ok(())
}

/// The paths that go on from some with one of these routes, where they are at most so many.
pub(crate) fn all_longer(
    alloc: Global,
    interlocking: &Interlocking,
    train: TrainNo,
    routes: &[RouteNo],
    paths: &[List<RouteNo>],
    most: usize,
) -> Result<Option<Vec<List<RouteNo>>>, AllocError>
    ensures are { IfOk result (λ all. IfSome all (λ all.
        all.items ≡ flat_map (on interlocking.now longer train routes.now) paths.now)) }
    ensures few { IfOk result (λ all. IfSome all (λ all. length all.items ≤ most)) }
    ensures many { IfOk result (λ all. all ≡ None
        → most < length (flat_map (on interlocking.now longer train routes.now) paths.now)) }
{
    let mut all = Vec::new(alloc);
    for path in paths {
        push_longer(
            alloc,
            interlocking,
            train,
            routes,
            path.as_slice(),
            &mut all,
        )?;
        if all.len() > most {
            return Ok(None);
        }
    }
    Ok(Some(all))
}
