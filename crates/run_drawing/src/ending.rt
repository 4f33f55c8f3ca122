//! What came of orders and withins.

ghost use Rattle.std.specs.Prelude.{◌≡◌};
ghost use Rattle.rail_spec.specs.Requirements.{most_ticks};
ghost use Rattle.run_drawing.specs.Requirements.{ending_of_order, ending_of_within, ending_text, order_ending};
ghost use Rattle.run_drawing.specs.Requirements.{within_ending};

use drawing::Color;
use rail_base::design::Design;
use rail_base::history::TrainHistory;
use rail_base::station::{Order, Within};
use rail_require::visit_tick;

/// What came of a requirement: it is met, broken, or neither by the last tick.
#[derive(Clone, Copy, Debug, PartialEq, Eq)]
pub enum Ending {
    Met,
    Broken,
    Open,
}

impl Ending {
    /// The word for it.
    pub(crate) fn text(self) -> &'static [u8]
        ensures { result.now ≡ ending_text self }
    {
        match self {
            Ending::Met => b"met",
            Ending::Broken => b"broken",
            Ending::Open => b"open",
        }
    }

    /// The colour for it.
    pub(crate) fn color(self) -> Color {
        match self {
            Ending::Met => Color::Green,
            Ending::Broken => Color::Red,
            Ending::Open => Color::Black,
        }
    }
}

/// What came of an order.
pub(crate) fn ending_of_order(history: &[TrainHistory], order: Order) -> Ending
    ensures { result ≡ ending_of_order history.now order }
{
    order_ending(
        visit_tick(history, order.first_train, order.first_visit),
        visit_tick(history, order.then_train, order.then_visit),
    )
}

/// What came of a within by a last tick.
pub(crate) fn ending_of_within(
    design: &Design,
    history: &[TrainHistory],
    last: u64,
    within: Within,
) -> Ending
    ensures { result ≡ ending_of_within design.now.station history.now last within }
{
    within_ending(
        most_ticks(design, within),
        last,
        visit_tick(history, within.from_train, within.from_visit),
        visit_tick(history, within.to_train, within.to_visit),
    )
}

/// The most ticks that a within allows.
fn most_ticks(design: &Design, within: Within) -> u64
    ensures { result ≡ most_ticks design.now.station within }
{
    u64::from(within.max_ms / design.station.tick_ms)
}

/// What came of an order, by the ticks of its visits: met where its first visit is made before the other one, and
/// broken where the other one is made and it isn't.
fn order_ending(first: Option<u64>, then: Option<u64>) -> Ending
    ensures { result ≡ order_ending first then }
{
    match (first, then) {
        (Some(first), Some(then)) => {
            if first < then {
                Ending::Met
            } else {
                Ending::Broken
            }
        }
        (None, Some(_)) => Ending::Broken,
        (_, None) => Ending::Open,
    }
}

/// What came of a within of so many ticks, by the ticks of its visits and a last tick: met where the other visit is
/// made within it, and broken where it isn't.
fn within_ending(most: u64, last: u64, from: Option<u64>, to: Option<u64>) -> Ending
    ensures { result ≡ within_ending most last from to }
{
    match (from, to) {
        (None, _) => Ending::Open,
        (Some(from), Some(to)) => {
            if to.saturating_sub(from) <= most {
                Ending::Met
            } else {
                Ending::Broken
            }
        }
        (Some(from), None) => {
            if from <= last && most <= last - from {
                Ending::Broken
            } else {
                Ending::Open
            }
        }
    }
}
