//! The visits of what is required, and how many ticks between them are too many.

ghost use Rattle.std.specs.Prelude.{◌≡◌, ◌≤◌, true, length};
ghost use Rattle.std.specs.Option.{ForSome};
ghost use Rattle.rail_base.specs.Stations.{IsTrain, order_of, within_of};
ghost use Rattle.rail_spec.specs.Requirements.{most_ticks};
ghost use Rattle.bound_spec.specs.Certificates.{visit_from, visit_to};
ghost use Rattle.bound_spec.specs.Validity.{is_too_late, is_too_long, requirement_in_design};
ghost use Rattle.bound_ticks.specs.Claims.{requirement_fits};
ghost use Rattle.leg_targets.specs.Visits.{origin_of};

use bound_spec::Requirement;
use interlocking::Interlocking;
use leg_targets::Visit;
use rail_base::station::{Order, Station, Within};

/// The visit from which the ticks of a within or an order are counted.
pub fn visit_from(interlocking: &Interlocking, requirement: Requirement) -> Option<Visit>
    requires { requirement_fits interlocking.now requirement ≡ true }
    ensures visit { origin_of result ≡ visit_from interlocking.now.design.station requirement }
    ensures train { ForSome result (λ v. IsTrain interlocking.now.design.station v.train) }
{
    let station = &interlocking.design.station;
    match requirement {
        Requirement::Within { within } => {
            let within = within_of(station, within);
            Some(Visit {
                train: within.from_train,
                number: within.from_visit,
            })
        }
        Requirement::Order { order } => {
            let order = order_of(station, order);
            Some(Visit {
                train: order.then_train,
                number: order.then_visit,
            })
        }
        Requirement::Visit { .. } | Requirement::Grant { .. } => None,
    }
}

/// The visit at which the ticks end.
pub fn visit_to(interlocking: &Interlocking, requirement: Requirement) -> Option<Visit>
    requires { requirement_fits interlocking.now requirement ≡ true }
    ensures visit { origin_of result ≡ visit_to interlocking.now.design.station requirement }
    ensures train { ForSome result (λ v. IsTrain interlocking.now.design.station v.train) }
{
    let station = &interlocking.design.station;
    match requirement {
        Requirement::Within { within } => {
            let within = within_of(station, within);
            Some(Visit {
                train: within.to_train,
                number: within.to_visit,
            })
        }
        Requirement::Order { order } => {
            let order = order_of(station, order);
            Some(Visit {
                train: order.first_train,
                number: order.first_visit,
            })
        }
        Requirement::Visit { train, visit } => Some(Visit {
            train,
            number: visit,
        }),
        Requirement::Grant { .. } => None,
    }
}

/// Whether so many ticks from the one visit to the other are too many.
pub(crate) fn is_too_long(interlocking: &Interlocking, requirement: Requirement, ticks: u64) -> bool
    requires { requirement_fits interlocking.now requirement ≡ true }
    ensures { let i = interlocking.now in result
        ≡ is_too_long i.design.station i.routes requirement ticks }
{
    match requirement {
        Requirement::Within { within } => {
            most_ticks(
                interlocking,
                within_of(&interlocking.design.station, within),
            ) < ticks
        }
        Requirement::Order { .. } => true,
        Requirement::Visit { .. } | Requirement::Grant { .. } => false,
    }
}

/// Whether the second visit is too late after so many ticks of the run, where the first is made at a tick.
pub(crate) fn is_too_late(
    interlocking: &Interlocking,
    requirement: Requirement,
    tick: u64,
    ticks: u64,
) -> bool
    requires fits { requirement_fits interlocking.now requirement ≡ true }
    requires at_most_10000000 { ticks ≤ 10000000 }
    ensures { let i = interlocking.now in result
        ≡ is_too_late i.design.station i.routes requirement tick ticks }
{
    match requirement {
        Requirement::Within { within } => {
            let within = within_of(&interlocking.design.station, within);
            tick.saturating_add(most_ticks(interlocking, within)) < ticks
        }
        Requirement::Order { .. } => tick <= ticks,
        Requirement::Visit { .. } | Requirement::Grant { .. } => false,
    }
}

/// The within of a number.
fn within_of(station: &Station, within: u32) -> &Within
    requires at_least_one { 1 ≤ within }
    requires within { within ≤ length station.now.withins }
    ensures { result.now ≡ within_of station.now within }
{
    &station.withins.as_slice()[within as usize - 1]
}

/// The order of a number.
fn order_of(station: &Station, order: u32) -> &Order
    requires at_least_one { 1 ≤ order }
    requires within { order ≤ length station.now.orders }
    ensures { result.now ≡ order_of station.now order }
{
    &station.orders.as_slice()[order as usize - 1]
}

/// The most ticks that a within allows.
fn most_ticks(interlocking: &Interlocking, within: &Within) -> u64
    ensures { result ≡ most_ticks interlocking.now.design.station within.now }
{
    u64::from(within.max_ms / interlocking.design.station.tick_ms)
}
