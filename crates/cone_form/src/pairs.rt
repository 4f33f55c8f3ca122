//! Pairs of commands that stand in increasing order.

ghost use Rattle.std.specs.Prelude.{◌≡◌, true};
ghost use Rattle.rail_base.specs.Members.{all_neighbors, all_pairs};
ghost use Rattle.cone_spec.specs.Validity.{is_pair_before};

use cone_spec::Cone;
use rail_base::plan::Command;

/// Pairs of commands in increasing order: by the first command, and then by the second.
#[derive(Clone, Copy)]
pub struct SortedPairs<'a> {
    pub items: &'a [(Command, Command)],
    pub ghost sorted: { all_pairs is_pair_before items.now ≡ true },
}

/// The pairs of a cone in which they stand in increasing order.
pub fn sorted_pairs(cone: &Cone) -> SortedPairs<'_>
    requires { all_neighbors is_pair_before cone.now.pairs ≡ true }
    ensures { result.items.now ≡ cone.now.pairs }
{
    SortedPairs {
        items: cone.pairs.as_slice(),
    }
}
