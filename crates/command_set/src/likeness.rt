//! Trains with the same visits.

ghost use Rattle.std.specs.Prelude.{◌≡◌, ◌≤◌, ◌<◌, IfSome};
ghost use Rattle.std.specs.List.{list_all, zip};
ghost use Rattle.rail_base.specs.Stations.{IsTrain, train_of};
ghost use Rattle.rail_alike.specs.Tests.{are_same, is_node};

use rail_base::design::Design;
use rail_base::list::List;
use rail_base::station::{NodeNo, TrainNo};

/// The first train before this one that has the same visits.
pub(crate) fn earlier_alike(design: &Design, train: TrainNo) -> Option<TrainNo>
    requires { IsTrain design.now.station train }
    ensures known { IfSome result (λ t. 1 ≤ t.0) }
    ensures before { IfSome result (λ t. t.0 < train.0) }
    ensures alike { IfSome result (λ t. (train_of design.now.station t).visits
        ≡ (train_of design.now.station train).visits) }
{
    let visits = design.train(train).visits.as_slice();
    for number in 1..train.0 {
        let earlier = TrainNo(number);
        if are_visits(design.train(earlier).visits.as_slice(), visits) {
            return Some(earlier);
        }
    }
    None
}

/// Whether the nodes that stand beside each other are the same.
fn are_beside(one: &[NodeNo], other: &[NodeNo]) -> bool
    ensures { result ≡ list_all (λ p. is_node p.0 p.1) (zip one.now other.now) }
{
    one.iter()
        .zip(other.iter())
        .all(|(node, beside)| node.0 == beside.0)
}

/// Whether the two visits are of the same nodes in the same order.
fn same_nodes(one: &List<NodeNo>, other: &List<NodeNo>) -> bool
    ensures { result ≡ are_same is_node one.now other.now }
{
    one.len() == other.len() && are_beside(one.as_slice(), other.as_slice())
}

/// Whether the visits that stand beside each other are the same.
fn same_beside(one: &[List<NodeNo>], other: &[List<NodeNo>]) -> bool
    ensures { result ≡ list_all (λ p. are_same is_node p.0 p.1) (zip one.now other.now) }
{
    one.iter()
        .zip(other.iter())
        .all(|(visit, beside)| same_nodes(visit, beside))
}

/// Whether the two lists of visits are the same.
fn are_visits(one: &[List<NodeNo>], other: &[List<NodeNo>]) -> bool
    ensures { result ≡ are_same (are_same is_node) one.now other.now }
{
    one.len() == other.len() && same_beside(one, other)
}
