//! The route that some names stand for.

ghost use Rattle.std.specs.Prelude.{◌≡◌, ◌<◌, ◌^◌, IfSome, length, position};
ghost use Rattle.plan_names.specs.Shown.{number_among, same_names};

use rail_base::list::{List, Name};
use rail_base::route::RouteNo;

/// The route that is shown by some names, where `shown` has the names of all routes, as `shown_routes` makes it; `None`
/// where no route is shown so.
pub fn number_named(shown: &[List<Name>], names: &[Name]) -> Option<RouteNo>
    requires { length shown.now < 2 ^ 32 }
    ensures { result ≡ number_among shown.now names.now }
{
    let index = place_of(shown, names)?;
    Some(RouteNo(index as u32 + 1))
}

/// Where some names stand first in a list.
fn place_of(shown: &[List<Name>], names: &[Name]) -> Option<usize>
    ensures place { result ≡ position (λ one. same_names one names.now) shown.now }
    ensures inside { IfSome result (λ index. index < length shown.now) }
{
    shown.iter().position(|one| are_same(one.as_slice(), names))
}

/// Whether the names are the same in the same order.
fn are_same(one: &[Name], other: &[Name]) -> bool
    ensures { result ≡ same_names one.now other.now }
{
    if one.len() != other.len() {
        return false;
    }
    for index in 0..one.len() {
        if one[index].as_bytes() != other[index].as_bytes() {
            return false;
        }
    }
    true
}
