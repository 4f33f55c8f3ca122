//! The ways among paths.

ghost use Rattle.std.specs.Prelude.{◌≡◌, ◌≤◌, ◌++◌, All, filter, length, map, option_map, IfOk, OnOk};
ghost use Rattle.rail_base.specs.Routes.{IsRoute, route_at};
ghost use Rattle.rail_base.specs.Stations.{IsTrain};
ghost use Rattle.interlocking.specs.Plans.{on};
ghost use Rattle.plan_ways.specs.Paths.{AreListed, makes_all};
ghost use Rattle.plan_ways.specs.Visits.{made_along};

use crate::paths::all_longer;
use crate::routes::have_more_nodes;
use interlocking::Interlocking;
use rail_base::list::List;
use rail_base::route::RouteNo;
use rail_base::station::{NodeNo, TrainNo};
use std::alloc::{AllocError, Global};
use train_ways::{OnwardRoutes, made_behind};

/// The most paths that are looked at.
const MOST_PATHS: usize = 5000;

/// The most ways that are listed.
const MOST_WAYS: usize = 1000;

/// The most nodes that they have together.
const MOST_NODES: usize = 50_000;

/// The most routes of each: as many as a plan may have steps.
const MOST_ROUTES: usize = 256;

/// How many visits are made on a path, the first at its start.
fn made_along(interlocking: &Interlocking, visits: &[List<NodeNo>], path: &[RouteNo]) -> usize
    requires visits { 1 ≤ length visits.now }
    requires named { All (IsRoute interlocking.now.routes) path.now }
    ensures made { result ≡ made_along visits.now (map (route_at interlocking.now.routes) path.now) 1 }
    ensures within { result ≤ length visits.now }
{
    let mut made = 1;
    for route in path {
        made = made_behind(visits, interlocking.route(*route), made);
    }
    made
}

/// Whether all visits of a train are made on a path.
fn makes_all(interlocking: &Interlocking, train: TrainNo, path: &[RouteNo]) -> bool
    requires train { IsTrain interlocking.now.design.station train }
    requires named { All (IsRoute interlocking.now.routes) path.now }
    ensures { result ≡ on interlocking.now makes_all train path.now }
{
    let visits = interlocking.design.train(train).visits.as_slice();
    !path.is_empty() && made_along(interlocking, visits, path) == visits.len()
}

/// The same routes.
fn copied(alloc: Global, path: &[RouteNo]) -> Result<List<RouteNo>, AllocError>
    ensures { IfOk result (λ copy. copy ≡ path.now) }
{
    let mut copy = Vec::new(alloc);
    copy.extend_from_slice(path)?;
    Ok(List::from_vec(copy))
}

/// Appends those paths on which all visits of a train are made.
fn push_ways(
    alloc: Global,
    interlocking: &Interlocking,
    train: TrainNo,
    paths: &[List<RouteNo>],
    ways: &mut Vec<List<RouteNo>>,
) -> Result<(), AllocError>
    requires train { IsTrain interlocking.now.design.station train }
    requires named { All (λ rs. All (IsRoute interlocking.now.routes) rs) paths.now }
    ensures { OnOk result (ways.new.items ≡ ways.old.items ++ filter (on interlocking.now makes_all train) paths.now) }
{
    for path in paths {
        if makes_all(interlocking, train, path.as_slice()) {
            ways.push(copied(alloc, path.as_slice())?)?;
        }
    }
    Ok(())
}

/// The ways that a plan can give a train; none where more than 5,000 paths of its live routes are found, or
/// more than 1,000 ways, or ways over more than 50,000 nodes.
///
/// # Errors
///
/// Want of memory alone.
pub fn plan_ways(
    alloc: Global,
    onward: &OnwardRoutes<'_>,
    train: TrainNo,
) -> Result<Option<Vec<List<RouteNo>>>, AllocError>
    requires { IsTrain onward.now.interlocking.now.design.station train }
    ensures { IfOk result (λ ways. on onward.now.interlocking.now AreListed train (option_map (λ w. w.items) ways)) }
{
    let interlocking = onward.interlocking;
    let live = onward.live_routes(alloc, train)?;
    let mut paths = Vec::new(alloc);
    paths.push(List::new(alloc))?;
    let mut ways = Vec::new(alloc);
    let mut left = MOST_PATHS;
    let mut count = 0;
    'longer: while count < MOST_ROUTES && !paths.as_slice().is_empty() {
        count += 1;
        let Some(longer) = all_longer(alloc, interlocking, train, &live, &paths, left)? else {
            return Ok(None);
        };
        left -= longer.len();
        push_ways(alloc, interlocking, train, &longer, &mut ways)?;
        if ways.len() > MOST_WAYS || have_more_nodes(&interlocking.routes, &ways, MOST_NODES) {
            return Ok(None);
        }
        paths = longer;
    }
    Ok(Some(ways))
}
