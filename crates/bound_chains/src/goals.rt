//! Which requirements a plan may be shown to fail, and from where ticks are counted.

ghost use Rattle.std.specs.Prelude.{◌≡◌, ◌<◌, ◌+◌, ◌-◌, ◌^◌};
ghost use Rattle.bound_chains.specs.declared.goals.Beginning.TheVariants as beginning;

use crate::known::is_train;
use crate::paths::Paths;
use bound_spec::Requirement;
use interlocking::Interlocking;
use leg_targets::Visit;
use rail_base::plan::{Command, Violation};
use rail_base::station::{Order, TrainNo, Within};
use std::alloc::{AllocError, Global};

/// From where ticks are counted.
#[derive(Clone, Copy, PartialEq, Eq)]
pub enum Beginning {
    Visit,
    FirstTick,
    Start,
    /// The start of the run, where a cone shows that the first visit is made at this tick.
    Cone { tick: u64 },
}

/// A requirement that is to be shown to fail.
#[derive(Clone, Copy)]
pub struct Goal {
    pub requirement: Requirement,
    pub from: Option<Visit>,
    pub to: Option<Visit>,
    /// The train of the last leg.
    pub train: TrainNo,
    pub beginning: Beginning,
    /// It fails where a chain takes so many ticks.
    pub least: u64,
}

impl Goal {
    ghost use Rattle.bound_chains.specs.Goals.{begins_with, from_place, is_order, least_ticks, takes_any};

    /// The visit from whose place the ticks of the first leg are counted; none where they are from a grant.
    pub fn from_place(&self) -> Option<Visit>
        ensures { result ≡ from_place self.now }
    {
        match self.beginning {
            Beginning::Visit => self.from.filter(|visit| visit.number > 1),
            Beginning::FirstTick | Beginning::Start | Beginning::Cone { .. } => None,
        }
    }

    /// The visit with which the first leg begins, if it begins with one.
    pub fn begins_with(&self) -> Option<Visit>
        ensures { result ≡ begins_with self.now }
    {
        match self.beginning {
            Beginning::Visit => self.from,
            Beginning::FirstTick | Beginning::Start | Beginning::Cone { .. } => None,
        }
    }

    /// Whether any chain shows it, however few ticks it takes.
    pub fn takes_any(&self) -> bool
        ensures { result ≡ takes_any self.now }
    {
        self.is_order() && !matches!(self.beginning, Beginning::Cone { .. })
    }

    /// The goal with ticks counted from the start of the run, where the first visit is made in the first tick.
    pub fn from_first_tick(&self) -> Goal
        ensures { result ≡ record self.now { beginning = beginning.FirstTick } }
    {
        Goal {
            beginning: Beginning::FirstTick,
            ..*self
        }
    }

    /// The goal with ticks counted from the start of the run, where a cone shows that the first visit is made at a
    /// tick.
    pub fn from_cone(&self, tick: u64) -> Goal
        ensures same { record result { least = 0 } ≡ record self.now { beginning = beginning.Cone tick; least = 0 } }
        ensures least { tick + least_ticks self.now < 2 ^ 64 → result.least ≡ tick + least_ticks self.now - 1 }
    {
        let least = if self.is_order() { 0 } else { self.least };
        Goal {
            beginning: Beginning::Cone { tick },
            least: tick.saturating_add(least).saturating_sub(1),
            ..*self
        }
    }

    /// Whether its requirement is an order.
    fn is_order(&self) -> bool
        ensures { result ≡ is_order self.now.requirement }
    {
        matches!(self.requirement, Requirement::Order { .. })
    }
}

/// The requirements of two visits each, and what a plan's violation says, each from where ticks are counted first.
///
/// # Errors
///
/// Want of memory alone.
pub fn goals(
    alloc: Global,
    interlocking: &Interlocking,
    paths: &Paths,
    violation: Violation,
) -> Result<Vec<Goal>, AllocError> {
    let station = &interlocking.design.station;
    let mut goals = Vec::new(alloc);
    let mut number = 0u32;
    for within in station.withins.as_slice() {
        number = number.saturating_add(1);
        goals.push(goal_of_within(interlocking, number, within))?;
    }
    number = 0;
    for order in station.orders.as_slice() {
        number = number.saturating_add(1);
        goals.push(goal_of_order(number, order))?;
    }
    if let Some(goal) = goal_of_violation(interlocking, paths, violation) {
        goals.push(goal)?;
    }
    Ok(goals)
}

/// The goal of a within, which has a number.
fn goal_of_within(interlocking: &Interlocking, number: u32, within: &Within) -> Goal {
    let tick = interlocking.design.station.tick_ms;
    let most = within.max_ms.checked_div(tick).unwrap_or(0);
    Goal {
        requirement: Requirement::Within { within: number },
        from: Some(Visit {
            train: within.from_train,
            number: within.from_visit,
        }),
        to: Some(Visit {
            train: within.to_train,
            number: within.to_visit,
        }),
        train: within.to_train,
        beginning: Beginning::Visit,
        least: u64::from(most) + 1,
    }
}

/// The goal of an order, which has a number.
fn goal_of_order(number: u32, order: &Order) -> Goal {
    Goal {
        requirement: Requirement::Order { order: number },
        from: Some(Visit {
            train: order.then_train,
            number: order.then_visit,
        }),
        to: Some(Visit {
            train: order.first_train,
            number: order.first_visit,
        }),
        train: order.first_train,
        beginning: Beginning::Visit,
        least: 0,
    }
}

/// The goal of a visit that is to be made by the horizon.
fn goal_of_visit(interlocking: &Interlocking, train: TrainNo, visit: u32) -> Goal {
    Goal {
        requirement: Requirement::Visit { train, visit },
        from: None,
        to: Some(Visit {
            train,
            number: visit,
        }),
        train,
        beginning: Beginning::Start,
        least: interlocking.design.horizon(),
    }
}

/// The goal of a command that is to be granted by the horizon.
fn goal_of_grant(interlocking: &Interlocking, command: Command) -> Goal {
    Goal {
        requirement: Requirement::Grant { command },
        from: None,
        to: None,
        train: command.train,
        beginning: Beginning::Start,
        least: interlocking.design.horizon(),
    }
}

/// The command of a train's path, counted from 1.
fn command_at(paths: &Paths, train: TrainNo, number: u32) -> Option<Command> {
    if number == 0 {
        return None;
    }
    let given = paths.commands(train).get(number as usize - 1)?;
    Some(given.command)
}

/// The goal of a violation that is none of two visits.
fn goal_of_violation(
    interlocking: &Interlocking,
    paths: &Paths,
    violation: Violation,
) -> Option<Goal> {
    match violation {
        Violation::Visit { train, visit } => {
            if !is_train(interlocking, train) {
                return None;
            }
            Some(goal_of_visit(interlocking, train, visit))
        }
        Violation::Grant { train, command } => {
            let command = command_at(paths, train, command)?;
            Some(goal_of_grant(interlocking, command))
        }
        Violation::Path { .. } | Violation::Within { .. } | Violation::Order { .. } => None,
    }
}
