//! The history of a train, one tick further.

ghost use Rattle.std.specs.Prelude.{◌≡◌, IfOk, None, map};
ghost use Rattle.rail_base.specs.Numbering.{or_this};
ghost use Rattle.rail_course.specs.Clocks.{comes_by};
ghost use Rattle.rail_course.specs.Marks.{made_or, mark_dwells, mark_grants, mark_holds, mark_passes, mark_releases};
ghost use Rattle.rail_course.specs.Marks.{mark_visits, pass_mark, stood_or};

use rail_base::route::RouteNo;
use rail_base::state::{PathNode, TrainState};
use rail_base::station::{NodeNo, SectionNo};
use rail_course::{Dwell, Hold, Release};
use std::alloc::{AllocError, Global};

/// The grants of a train of which so many commands are granted now.
pub(crate) fn mark_grants(
    alloc: Global,
    granted: usize,
    tick: u64,
    old: &[(RouteNo, Option<u64>)],
) -> Result<Vec<(RouteNo, Option<u64>)>, AllocError>
    ensures { IfOk result (λ v. v.items ≡ mark_grants granted tick old.now) }
{
    old.iter()
        .enumerate()
        .map(|(number, grant)| (grant.0, first_tick(grant.1, number < granted, tick)))
        .collect(alloc)
}

/// The nodes passed by a train that is here now.
pub(crate) fn mark_passes(
    alloc: Global,
    state: TrainState,
    tick: u64,
    path_nodes: &[PathNode],
    old: &[(NodeNo, Option<u64>)],
) -> Result<Vec<(NodeNo, Option<u64>)>, AllocError>
    ensures { IfOk result (λ v. v.items ≡ mark_passes state tick path_nodes.now old.now) }
{
    path_nodes
        .iter()
        .zip(old.iter())
        .map(|(path_node, pass)| (
            path_node.node,
            first_tick(pass.1, path_node.event.has_happened(state), tick),
        ))
        .collect(alloc)
}

/// The sections released by a train that is here now.
pub(crate) fn mark_releases(
    alloc: Global,
    state: TrainState,
    tick: u64,
    releases: &[Release],
    old: &[(RouteNo, SectionNo, Option<u64>)],
) -> Result<Vec<(RouteNo, SectionNo, Option<u64>)>, AllocError>
    ensures { IfOk result (λ v. v.items ≡ mark_releases state tick releases.now old.now) }
{
    releases
        .iter()
        .zip(old.iter())
        .map(|(release, entry)| {
            (
                release.route,
                release.section,
                first_tick(entry.2, release.event.has_happened(state), tick),
            )
        })
        .collect(alloc)
}

/// The holds that have ended for a train that has passed these nodes by now.
pub(crate) fn mark_holds(
    alloc: Global,
    passes: &[(NodeNo, Option<u64>)],
    tick: u64,
    holds: &[Hold],
    old: &[(RouteNo, SectionNo, Option<u64>)],
) -> Result<Vec<(RouteNo, SectionNo, Option<u64>)>, AllocError>
    ensures { IfOk result (λ v. v.items ≡ mark_holds passes.now tick tick holds.now old.now) }
{
    holds
        .iter()
        .zip(old.iter())
        .map(|(hold, entry)| {
            (
                hold.route,
                hold.section,
                first_tick(entry.2, has_ended(passes, hold, tick), tick),
            )
        })
        .collect(alloc)
}

/// The visits made by a train that is here now.
pub(crate) fn mark_visits(
    alloc: Global,
    state: TrainState,
    tick: u64,
    places: &[Option<PathNode>],
    old: &[Option<(NodeNo, u64)>],
) -> Result<Vec<Option<(NodeNo, u64)>>, AllocError>
    ensures { IfOk result (λ v. v.items ≡ mark_visits state tick places.now old.now) }
{
    places
        .iter()
        .zip(old.iter())
        .map(|(place, made)| made_or(*made, *place, state, tick))
        .collect(alloc)
}

/// The visits at which a train has stood its ticks that has stood so many in all now.
pub(crate) fn mark_dwells(
    alloc: Global,
    stood: u64,
    tick: u64,
    dwells: &[Dwell],
    old: &[Option<u64>],
) -> Result<Vec<Option<u64>>, AllocError>
    ensures { IfOk result (λ v. v.items ≡ mark_dwells stood tick dwells.now old.now) }
{
    dwells
        .iter()
        .zip(old.iter())
        .map(|(dwell, done)| stood_or(*done, *dwell, stood, tick))
        .collect(alloc)
}

/// The commands of a path, none of them granted.
pub(crate) fn none_granted(
    alloc: Global,
    path: &[RouteNo],
) -> Result<Vec<(RouteNo, Option<u64>)>, AllocError>
    ensures { IfOk result (λ v. v.items ≡ map (λ r. (r, None)) path.now) }
{
    path.iter().map(|route| (*route, None)).collect(alloc)
}

/// The nodes of a path, none of them passed.
pub(crate) fn none_passed(
    alloc: Global,
    path_nodes: &[PathNode],
) -> Result<Vec<(NodeNo, Option<u64>)>, AllocError>
    ensures { IfOk result (λ v. v.items ≡ map (λ path_node. (path_node.node, None)) path_nodes.now) }
{
    path_nodes
        .iter()
        .map(|path_node| (path_node.node, None))
        .collect(alloc)
}

/// The sections of a path, none of them released.
pub(crate) fn none_released(
    alloc: Global,
    releases: &[Release],
) -> Result<Vec<(RouteNo, SectionNo, Option<u64>)>, AllocError>
    ensures { IfOk result (λ v. v.items ≡ map (λ r. (r.route, r.section, None)) releases.now) }
{
    releases
        .iter()
        .map(|release| (release.route, release.section, None))
        .collect(alloc)
}

/// The holds of a path, none of them ended.
pub(crate) fn none_ended(
    alloc: Global,
    holds: &[Hold],
) -> Result<Vec<(RouteNo, SectionNo, Option<u64>)>, AllocError>
    ensures { IfOk result (λ v. v.items ≡ map (λ h. (h.route, h.section, None)) holds.now) }
{
    holds
        .iter()
        .map(|hold| (hold.route, hold.section, None))
        .collect(alloc)
}

/// The visits of a train, none of them made.
pub(crate) fn none_visited(
    alloc: Global,
    places: &[Option<PathNode>],
) -> Result<Vec<Option<(NodeNo, u64)>>, AllocError>
    ensures { IfOk result (λ v. v.items ≡ map (λ _. None) places.now) }
{
    places.iter().map(|_| None).collect(alloc)
}

/// The visits of a train, at none of which it has stood.
pub(crate) fn none_stood(alloc: Global, dwells: &[Dwell]) -> Result<Vec<Option<u64>>, AllocError>
    ensures { IfOk result (λ v. v.items ≡ map (λ _. None) dwells.now) }
{
    dwells.iter().map(|_| None).collect(alloc)
}

/// The tick at which something came: the one it has, or this one where it comes by now.
fn first_tick(old: Option<u64>, comes: bool, tick: u64) -> Option<u64>
    ensures { result ≡ or_this old comes tick }
{
    match old {
        Some(earlier) => Some(earlier),
        None if comes => Some(tick),
        None => None,
    }
}

/// The tick at which a train passed a node of its path.
fn pass_mark(passes: &[(NodeNo, Option<u64>)], node: usize) -> Option<u64>
    ensures { result ≡ pass_mark passes.now node }
{
    let pass = passes.get(node)?;
    pass.1
}

/// Whether what came at a tick, if it did, is so many ticks ago by now.
fn comes_by(came: Option<u64>, ticks: u64, now: u64) -> bool
    ensures { result ≡ comes_by came ticks now }
{
    let Some(tick) = came else {
        return false;
    };
    tick <= now && ticks <= now - tick
}

/// Whether a hold has ended by now.
fn has_ended(passes: &[(NodeNo, Option<u64>)], hold: &Hold, tick: u64) -> bool
    ensures { result ≡ comes_by (pass_mark passes.now hold.now.node) hold.now.event.ticks tick }
{
    comes_by(pass_mark(passes, hold.node), hold.event.ticks, tick)
}

/// The tick at which a train has stood its ticks at a visit, if it has to stand there.
fn stood_or(old: Option<u64>, dwell: Dwell, stood: u64, tick: u64) -> Option<u64>
    ensures { result ≡ stood_or old dwell stood tick }
{
    if dwell.ticks == 0 {
        return None;
    }
    first_tick(old, dwell.until <= stood, tick)
}

/// A visit that is made already, or else made now at its place.
fn made_or(
    old: Option<(NodeNo, u64)>,
    place: Option<PathNode>,
    state: TrainState,
    tick: u64,
) -> Option<(NodeNo, u64)>
    ensures { result ≡ made_or old place state tick }
{
    match (old, place) {
        (Some(made), _) => Some(made),
        (None, Some(path_node)) => {
            if path_node.event.has_happened(state) {
                Some((path_node.node, tick))
            } else {
                None
            }
        }
        (None, None) => None,
    }
}
