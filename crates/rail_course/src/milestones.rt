//! Places on a path, in the order in which a train comes to them.

ghost use Rattle.std.specs.Prelude.{◌≡◌, IfOk, map};
ghost use Rattle.std.specs.List.{enumerate_from};
ghost use Rattle.rail_course.specs.Milestones.{AreMilestones, milestone_of};

use crate::journey::Release;
use rail_base::state::PathNode;
use std::alloc::{AllocError, Global};

/// A place on a path, in mm, and which member of a list it is the place of, counted from 0.
#[derive(Clone, Copy, Debug)]
pub struct Milestone {
    pub place: u64,
    pub index: usize,
}

/// The milestones of the nodes of a path, the nearest first.
pub(crate) fn node_milestones(
    alloc: Global,
    path_nodes: &[PathNode],
) -> Result<Vec<Milestone>, AllocError>
    ensures { IfOk result (λ ms. AreMilestones (map (λ n. n.event.place) path_nodes.now) ms.items) }
{
    let places: Vec<u64> = path_nodes
        .iter()
        .map(|node| node.event.place)
        .collect(alloc)?;
    milestones_of(alloc, places.as_slice())
}

/// The milestones of releases, the nearest first.
pub(crate) fn release_milestones(
    alloc: Global,
    releases: &[Release],
) -> Result<Vec<Milestone>, AllocError>
    ensures { IfOk result (λ ms. AreMilestones (map (λ r. r.event.place) releases.now) ms.items) }
{
    let places: Vec<u64> = releases
        .iter()
        .map(|release| release.event.place)
        .collect(alloc)?;
    milestones_of(alloc, places.as_slice())
}

/// The milestones of places, the nearest first.
fn milestones_of(alloc: Global, places: &[u64]) -> Result<Vec<Milestone>, AllocError>
    ensures { IfOk result (λ ms. AreMilestones places.now ms.items) }
{
    let mut milestones = list_milestones(alloc, places)?;
    milestones.sort_unstable_by_key(|milestone| milestone.place);
    Ok(milestones)
}

/// The milestones of places, in the order of the list.
fn list_milestones(alloc: Global, places: &[u64]) -> Result<Vec<Milestone>, AllocError>
    ensures { IfOk result (λ ms. ms.items ≡ map milestone_of (enumerate_from 0 places.now)) }
{
    places
        .iter()
        .enumerate()
        .map(|(index, place)| Milestone {
            place: *place,
            index,
        })
        .collect(alloc)
}
