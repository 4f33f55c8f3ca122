//! The ways in which a plan may fail on its run, one kind at a time.

ghost use Rattle.std.specs.Prelude.{◌≡◌, ◌<◌, ◌^◌, length, not, option_map, find};
ghost use Rattle.std.specs.List.{position_from};
ghost use Rattle.rail_base.specs.declared.station.Station.{Station};
ghost use Rattle.rail_base.specs.Stations.{horizon};
ghost use Rattle.rail_spec.specs.Requirements.{is_after, most_ticks};
ghost use Rattle.rail_require.specs.Ticks.{is_by, HasNumbers};
ghost use Rattle.rail_require.specs.Violations.{is_broken, is_late, is_certain, within_violations, order_violations};
ghost use Rattle.rail_require.specs.Violations.{grant_violations};
ghost use Rattle.rail_require.specs.Violations.{visit_violations};

use crate::ticks::{is_after, is_before, is_by, visit_tick};
use rail_base::design::Design;
use rail_base::history::TrainHistory;
use rail_base::plan::Violation;
use rail_base::station::{Order, TrainNo, Within};

/// The first within that fails at the tick.
pub(crate) fn late_within(design: &Design, history: &[TrainHistory], tick: u64) -> Option<Violation>
    ensures { result ≡ find (is_certain design.now.station history.now tick) (within_violations design.now.station) }
{
    let withins = design.station.withins.as_slice();
    withins
        .iter()
        .position(|within| is_late(design, history, tick, within))
        .map(|place| Violation::Within {
            within: place as u32 + 1,
        })
}

/// The first order that fails at the tick.
pub(crate) fn broken_order(
    design: &Design,
    history: &[TrainHistory],
    tick: u64,
) -> Option<Violation>
    ensures { result ≡ find (is_certain design.now.station history.now tick) (order_violations design.now.station) }
{
    let orders = design.station.orders.as_slice();
    orders
        .iter()
        .position(|order| is_broken(history, tick, order))
        .map(|place| Violation::Order {
            order: place as u32 + 1,
        })
}

/// The first command, by train, that isn't granted by the end of the tick, which is the horizon.
pub(crate) fn missing_grant(history: &[TrainHistory], tick: u64) -> Option<Violation>
    requires { HasNumbers history.now }
    ensures { (d : Station) → tick ≡ horizon d
        → result ≡ find (is_certain d history.now tick) (grant_violations history.now) }
{
    for (place, train) in history.iter().enumerate() {
        if let Some(command) = first_ungranted(train, tick) {
            return Some(Violation::Grant {
                train: TrainNo(place as u32 + 1),
                command,
            });
        }
    }
    None
}

/// The first visit, by train, that isn't made by the end of the tick, which is the horizon.
pub(crate) fn missing_visit(history: &[TrainHistory], tick: u64) -> Option<Violation>
    requires { HasNumbers history.now }
    ensures { (d : Station) → tick ≡ horizon d
        → result ≡ find (is_certain d history.now tick) (visit_violations history.now) }
{
    for (place, train) in history.iter().enumerate() {
        if let Some(visit) = first_unvisited(train, tick) {
            return Some(Violation::Visit {
                train: TrainNo(place as u32 + 1),
                visit,
            });
        }
    }
    None
}

/// Whether a within's greatest time ends at the tick, up to the horizon, and the other visit isn't made by then.
fn is_late(design: &Design, history: &[TrainHistory], tick: u64, within: &Within) -> bool
    ensures { result ≡ is_late design.now.station history.now tick within.now }
{
    let from = visit_tick(history, within.from_train, within.from_visit);
    let to = visit_tick(history, within.to_train, within.to_visit);
    tick <= design.horizon() && !is_by(to, tick) && ends_at(design, within, from, tick)
}

/// Whether the greatest time of a within ends at the tick, where it begins at one.
fn ends_at(design: &Design, within: &Within, from: Option<u64>, tick: u64) -> bool
    ensures { result ≡ is_after (most_ticks design.now.station within.now) from tick }
{
    from.is_some()
        && is_after(
            from,
            u64::from(within.max_ms / design.station.tick_ms),
            tick,
        )
}

/// Whether the later-named visit of an order is made at the tick, and the first isn't made before it.
fn is_broken(history: &[TrainHistory], tick: u64, order: &Order) -> bool
    ensures { result ≡ is_broken history.now tick order.now }
{
    let first = visit_tick(history, order.first_train, order.first_visit);
    let then = visit_tick(history, order.then_train, order.then_visit);
    is_after(then, 0, tick) && !is_before(first, tick)
}

/// The number of the train's first command that isn't granted by the end of the tick.
fn first_ungranted(train: &TrainHistory, tick: u64) -> Option<u32>
    requires { length train.now.grants < 2 ^ 32 }
    ensures { result ≡ position_from (λ g. not (is_by tick g.1)) 1 train.now.grants }
{
    train
        .grants
        .as_slice()
        .iter()
        .position(|grant| !is_by(grant.1, tick))
        .map(|place| place as u32 + 1)
}

/// The number of the train's first visit that isn't made by the end of the tick.
fn first_unvisited(train: &TrainHistory, tick: u64) -> Option<u32>
    requires { length train.now.visits < 2 ^ 32 }
    ensures { result ≡ position_from (λ v. not (is_by tick (option_map (λ m. m.1) v))) 1 train.now.visits }
{
    train
        .visits
        .as_slice()
        .iter()
        .position(|visit| !is_by(visit.map(|made| made.1), tick))
        .map(|place| place as u32 + 1)
}
