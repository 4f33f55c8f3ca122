//! How many visits are made on a route.

ghost use Rattle.std.specs.Prelude.{◌≡◌, ◌≤◌, length};
ghost use Rattle.rail_base.specs.Numbering.{after_first};
ghost use Rattle.train_ways.specs.Pairs.{made_at, made_behind};

use interlocking::has_node;
use rail_base::list::List;
use rail_base::route::Route;
use rail_base::station::NodeNo;

/// How many visits are made after a route, where so many are made at its start or before.
pub fn made_behind(visits: &[List<NodeNo>], route: &Route, before: usize) -> usize
    requires { before ≤ length visits.now }
    ensures made { result ≡ made_behind visits.now route.now before }
    ensures within { result ≤ length visits.now }
{
    let mut made = before;
    for (node, _) in after_first(route.nodes.as_slice()) {
        made = made_at(visits, *node, made);
    }
    made
}

/// How many visits are made at a node or before, where so many are made before it.
fn made_at(visits: &[List<NodeNo>], node: NodeNo, before: usize) -> usize
    requires { before ≤ length visits.now }
    ensures made { result ≡ made_at visits.now node before }
    ensures within { result ≤ length visits.now }
{
    match visits.get(before) {
        Some(set) if has_node(set.as_slice(), node) => before + 1,
        _ => before,
    }
}

/// The values behind the first.
fn after_first<T>(values: &[T]) -> &[T]
    ensures { result.now ≡ after_first values.now }
{
    match values {
        [] => values,
        [_, rest @ ..] => rest,
    }
}
