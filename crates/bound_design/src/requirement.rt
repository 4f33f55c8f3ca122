//! What a certificate shows to fail.

ghost use Rattle.std.specs.Prelude.{◌≡◌, ◌≤◌, true, length};
ghost use Rattle.rail_base.specs.Admission.{is_from, is_visit};
ghost use Rattle.rail_base.specs.Stations.{order_of, within_of};
ghost use Rattle.rail_spec.specs.Feasible.{is_of};
ghost use Rattle.bound_design.specs.Named.{first_visit, last_train, requirement_fits, visit_said};

use bound_spec::Requirement;
use interlocking::Interlocking;
use rail_base::design::Design;
use rail_base::plan::Command;
use rail_base::station::{Order, Station, TrainNo, Within};

/// Whether a number is one of `many`, counted from 1.
pub(crate) fn is_one_of(number: u32, many: usize) -> bool
    ensures { result ≡ is_from 1 many number }
{
    1 <= number && number as usize <= many
}

/// Whether the design has what is required.
pub(crate) fn requirement_in_design(interlocking: &Interlocking, requirement: Requirement) -> bool
    ensures { result ≡ requirement_fits interlocking.now requirement }
{
    let station = &interlocking.design.station;
    match requirement {
        Requirement::Within { within } => is_one_of(within, station.withins.len()),
        Requirement::Order { order } => is_one_of(order, station.orders.len()),
        Requirement::Visit { train, visit } => is_visit(&interlocking.design, train, visit),
        Requirement::Grant { command } => is_command(interlocking, command),
    }
}

/// The within of a number.
pub(crate) fn within_of(station: &Station, within: u32) -> &Within
    requires at_least_one { 1 ≤ within }
    requires within { within ≤ length station.now.withins }
    ensures { result.now ≡ within_of station.now within }
{
    &station.withins.as_slice()[within as usize - 1]
}

/// The order of a number.
pub(crate) fn order_of(station: &Station, order: u32) -> &Order
    requires at_least_one { 1 ≤ order }
    requires within { order ≤ length station.now.orders }
    ensures { result.now ≡ order_of station.now order }
{
    &station.orders.as_slice()[order as usize - 1]
}

/// The train of the last leg.
pub(crate) fn last_train(interlocking: &Interlocking, requirement: Requirement) -> TrainNo
    requires { requirement_fits interlocking.now requirement ≡ true }
    ensures { result ≡ last_train interlocking.now requirement }
{
    let station = &interlocking.design.station;
    match requirement {
        Requirement::Within { within } => within_of(station, within).to_train,
        Requirement::Order { order } => order_of(station, order).first_train,
        Requirement::Visit { train, .. } => train,
        Requirement::Grant { command } => command.train,
    }
}

/// The train and the number of the visit from which the ticks of a within or an order are counted.
pub(crate) fn first_visit(
    interlocking: &Interlocking,
    requirement: Requirement,
) -> Option<(TrainNo, u32)>
    requires { requirement_fits interlocking.now requirement ≡ true }
    ensures { visit_said result ≡ first_visit interlocking.now requirement }
{
    let station = &interlocking.design.station;
    match requirement {
        Requirement::Within { within } => {
            let within = within_of(station, within);
            Some((within.from_train, within.from_visit))
        }
        Requirement::Order { order } => {
            let order = order_of(station, order);
            Some((order.then_train, order.then_visit))
        }
        Requirement::Visit { .. } | Requirement::Grant { .. } => None,
    }
}

/// Whether the train has a visit of this number.
fn is_visit(design: &Design, train: TrainNo, visit: u32) -> bool
    ensures { result ≡ is_visit design.now.station train visit }
{
    is_one_of(train.0, design.station.trains.len())
        && is_one_of(visit, design.train(train).visits.len())
}

/// Whether the command is one of a train and a route of the design.
fn is_command(interlocking: &Interlocking, command: Command) -> bool
    ensures { result ≡ is_of interlocking.now.design.station interlocking.now.routes command }
{
    1 <= command.train.0
        && command.train.0 as usize <= interlocking.design.station.trains.len()
        && 1 <= command.route.0
        && command.route.0 as usize <= interlocking.routes.len()
}
