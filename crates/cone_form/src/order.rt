//! The order in which a cone's trains and pairs stand.

ghost use Rattle.std.specs.Prelude.{◌≡◌, nat_lt};
ghost use Rattle.rail_base.specs.Members.{all_neighbors};
ghost use Rattle.cone_spec.specs.Validity.{is_before, is_pair_before};

use crate::lookup::is_command;
use cone_spec::ConeTrain;
use rail_base::plan::Command;

/// Whether the trains stand in increasing order.
pub fn trains_in_order(entries: &[ConeTrain]) -> bool
    ensures { result ≡ all_neighbors (λ a b. nat_lt a.train.0 b.train.0) entries.now }
{
    for index in 1..entries.len() {
        if entries[index - 1].train.0 >= entries[index].train.0 {
            return false;
        }
    }
    true
}

/// Whether the pairs stand in increasing order.
pub fn pairs_in_order(pairs: &[(Command, Command)]) -> bool
    ensures { result ≡ all_neighbors is_pair_before pairs.now }
{
    for index in 1..pairs.len() {
        if !is_pair_before(pairs[index - 1], pairs[index]) {
            return false;
        }
    }
    true
}

/// Whether a command is less than another: by train, and then by route.
pub(crate) fn is_before(first: Command, second: Command) -> bool
    ensures { result ≡ is_before first second }
{
    first.train.0 < second.train.0
        || first.train.0 == second.train.0 && first.route.0 < second.route.0
}

/// Whether a pair is less than another: by its first command, and then by its second.
pub(crate) fn is_pair_before(first: (Command, Command), second: (Command, Command)) -> bool
    ensures { result ≡ is_pair_before first second }
{
    is_before(first.0, second.0) || is_command(first.0, second.0) && is_before(first.1, second.1)
}
