//! How routes meet at signals and nodes.

ghost use Rattle.std.specs.Prelude.{◌≡◌};
ghost use Rattle.rail_spec.specs.Plans.{end_at_one_signal, goes_on, has_node, starts_in};

use rail_base::route::{Finish, Start};
use rail_base::station::NodeNo;

/// Whether a route that starts here goes on where another ends: at a signal.
pub fn goes_on(finish: Finish, start: Start) -> bool
    ensures { result ≡ goes_on finish start }
{
    match (finish, start) {
        (Finish::Signal(end), Start::Signal(begin)) => end == begin,
        _ => false,
    }
}

/// Whether two routes end at one signal.
pub fn end_at_one_signal(one: Finish, other: Finish) -> bool
    ensures { result ≡ end_at_one_signal one other }
{
    match (one, other) {
        (Finish::Signal(one), Finish::Signal(other)) => one == other,
        _ => false,
    }
}

/// Whether a node is one of these.
pub fn has_node(nodes: &[NodeNo], node: NodeNo) -> bool
    ensures { result ≡ has_node nodes.now node }
{
    nodes.iter().any(|other| other.0 == node.0)
}

/// Whether a start is a boundary that is one of these nodes.
pub fn starts_in(nodes: &[NodeNo], start: Start) -> bool
    ensures { result ≡ starts_in nodes.now start }
{
    match start {
        Start::Boundary(node) => has_node(nodes, node),
        Start::Signal(_) => false,
    }
}
