//! Whether the legs of a certificate can wait for each other.

ghost use Rattle.std.specs.Prelude.{◌≡◌, All, true};
ghost use Rattle.std.specs.List.{list_all};
ghost use Rattle.rail_base.specs.Members.{all_neighbors};
ghost use Rattle.rail_base.specs.Routes.{IsRoute};
ghost use Rattle.bound_design.specs.Named.{contend_over_own_in, contend_where_they_meet_in, leg_fits};

use bound_spec::{Leg, first_routes, last_routes};
use interlocking::Interlocking;
use rail_base::plan::Command;
use rail_base::route::RouteNo;
use rail_base::station::TrainNo;

/// Whether two commands contend over an own section of the first.
pub fn contend_over_own(interlocking: &Interlocking, first: Command, second: Command) -> bool
    requires first { IsRoute interlocking.now.routes first.route }
    requires second { IsRoute interlocking.now.routes second.route }
    ensures { result ≡ contend_over_own_in interlocking.now first second }
{
    let route = interlocking.route(first.route);
    first.train != second.train && route.shares_own(interlocking.route(second.route))
}

/// Whether the last commands of each leg contend with the first of the next one, over own sections of the last,
/// whatever the routes are.
pub(crate) fn legs_meet(interlocking: &Interlocking, legs: &[Leg]) -> bool
    requires { list_all (leg_fits interlocking.now) legs.now ≡ true }
    ensures { result ≡ all_neighbors (contend_where_they_meet_in interlocking.now) legs.now }
{
    for index in 1..legs.len() {
        if !contend_where_they_meet(interlocking, &legs[index - 1], &legs[index]) {
            return false;
        }
    }
    true
}

/// Whether a command contends so with each that gives the train one of the routes.
fn contends_with(
    interlocking: &Interlocking,
    command: Command,
    train: TrainNo,
    routes: &[RouteNo],
) -> bool
    requires command { IsRoute interlocking.now.routes command.route }
    requires routes { All (IsRoute interlocking.now.routes) routes.now }
    ensures { result ≡ list_all
        (λ r. contend_over_own_in interlocking.now command (record { train = train; route = r })) routes.now }
{
    for route in routes {
        let other = Command {
            train,
            route: *route,
        };
        if !contend_over_own(interlocking, command, other) {
            return false;
        }
    }
    true
}

/// Whether each last command of a leg contends so with each first one of the next.
fn contend_where_they_meet(interlocking: &Interlocking, leg: &Leg, next: &Leg) -> bool
    requires leg { leg_fits interlocking.now leg.now ≡ true }
    requires next { leg_fits interlocking.now next.now ≡ true }
    ensures { result ≡ contend_where_they_meet_in interlocking.now leg.now next.now }
{
    for route in last_routes(leg) {
        let command = Command {
            train: leg.train,
            route: *route,
        };
        if !contends_with(interlocking, command, next.train, first_routes(next)) {
            return false;
        }
    }
    true
}
