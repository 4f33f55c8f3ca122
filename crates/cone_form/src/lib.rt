//! Whether what a cone names is there in a design, and what a cone says of trains and commands.
#![tactic(auto)]

ghost use Rattle.std.specs.Prelude.{◌≡◌, IfOk};
ghost use Rattle.cone_form.specs.Fits.{fits, trains_fit};

mod lookup;
mod marks;
mod order;
mod pairs;
mod places;
mod trains;
mod violations;
mod walk;

pub use crate::lookup::{entry_of, free_path, is_free, is_named, path};
pub use crate::marks::{has_mark, marks_of};
use crate::order::{pairs_in_order, trains_in_order};
pub use crate::pairs::{SortedPairs, sorted_pairs};
use crate::trains::{holders_in_paths, pairs_in_design, trains_in_design};
use crate::violations::violation_in_design;
use cone_spec::Cone;
use interlocking::Interlocking;
use std::alloc::{AllocError, Global};

/// Whether the cone speaks of the design: its trains and pairs stand in order, each path is one that a train can go,
/// and pairs, holders and the violation name what there is.
///
/// # Errors
///
/// Want of memory alone.
pub fn is_in_design(
    alloc: Global,
    interlocking: &Interlocking,
    cone: &Cone,
) -> Result<bool, AllocError>
    ensures { IfOk result (λ b. b ≡ fits interlocking.now cone.now) }
{
    if !trains_fit(interlocking, cone) {
        return Ok(false);
    }
    if !pairs_in_order(cone.pairs.as_slice()) {
        return Ok(false);
    }
    if !violation_in_design(interlocking, cone) {
        return Ok(false);
    }
    pairs_in_design(alloc, interlocking, cone)
}

/// Whether the cone's trains stand in order, what is said of each is possible, and its holders are commands of it.
fn trains_fit(interlocking: &Interlocking, cone: &Cone) -> bool
    ensures { result ≡ trains_fit interlocking.now cone.now }
{
    if !trains_in_order(cone.trains.as_slice()) {
        return false;
    }
    trains_in_design(interlocking, cone) && holders_in_paths(cone)
}
