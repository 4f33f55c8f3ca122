//! Lists of routes and others.

ghost use Rattle.std.specs.Prelude.{◌≡◌};
ghost use Rattle.bound_spec.specs.Validity.{are_increasing, is_empty};

use rail_base::route::RouteNo;

/// Whether there are none.
pub(crate) fn is_empty<T>(items: &[T]) -> bool
    ensures { result ≡ is_empty items.now }
{
    items.first().is_none()
}

/// Whether routes stand in increasing order.
pub(crate) fn are_increasing(routes: &[RouteNo]) -> bool
    ensures { result ≡ are_increasing routes.now }
{
    for index in 1..routes.len() {
        if routes[index - 1].0 >= routes[index].0 {
            return false;
        }
    }
    true
}
