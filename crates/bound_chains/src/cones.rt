//! Cones by whose runs a visit is made at a tick.

ghost use Rattle.std.specs.Prelude.{◌≡◌, IfOk, IfSome};
ghost use Rattle.bound_spec.specs.Certificates.{violation_of};
ghost use Rattle.bound_chains.specs.Goals.{IsOriginOf};

use crate::goals::{Beginning, Goal};
use crate::horizons::horizon_at;
use crate::known::count_trains;
use crate::paths::Span;
use crate::search::ChainSearch;
use crate::waits::Wait;
use bound_spec::{Origin, Requirement};
use cone_spec::{Cone, ConeTrain};
use leg_targets::Visit;
use rail_base::list::List;
use rail_base::plan::{Command, Violation};
use rail_base::route::RouteNo;
use rail_base::station::TrainNo;
use std::alloc::AllocError;

/// No plan has more steps, so no path has more commands.
const MOST_COMMANDS: usize = 256;

/// What a cone says of a train, by places among all commands.
#[derive(Clone, Copy)]
struct Seen {
    train: TrainNo,
    horizon: u64,
    /// Its first command, what follows the last free one, and what follows the last that the cone names.
    first: usize,
    waiting: usize,
    end: usize,
    holder: Option<Wait>,
}

impl ChainSearch<'_> {
    /// From where a bound of a goal counts its ticks; none where no cone can be had.
    ///
    /// # Errors
    ///
    /// Want of memory alone.
    pub fn origin(&self, goal: &Goal) -> Result<Option<Origin>, AllocError>
        ensures { IfOk result (λ found. IfSome found (IsOriginOf goal.now)) }
    {
        match (goal.beginning, goal.from) {
            (Beginning::Visit, _) => Ok(Some(Origin::Visit)),
            (Beginning::FirstTick, _) => Ok(Some(Origin::FirstTick)),
            (Beginning::Start, _) => Ok(Some(Origin::Start)),
            (Beginning::Cone { tick }, Some(from)) => {
                let cone = self.cone(goal.requirement, from, tick)?;
                Ok(cone.map(|cone| Origin::Cone { tick, cone }))
            }
            (Beginning::Cone { .. }, None) => Ok(None),
        }
    }

    /// The cone of a requirement by which a visit is made at a tick; none where too many trains wait for each other.
    fn cone(
        &self,
        requirement: Requirement,
        visit: Visit,
        tick: u64,
    ) -> Result<Option<Cone>, AllocError>
        ensures { IfOk result (λ found. IfSome found (λ cone. cone.violation ≡ violation_of requirement)) }
    {
        let Some(horizons) = self.horizons(visit.train, tick)? else {
            return Ok(None);
        };
        let all = self.all_seen(horizons.as_slice())?;
        Ok(Some(Cone {
            trains: self.cone_trains(all.as_slice())?,
            pairs: self.cone_pairs(all.as_slice())?,
            violation: violation_of(requirement),
        }))
    }

    /// What a cone says of a train that is followed up to a tick, if it names no command of it.
    fn see_train(&self, train: TrainNo, horizon: u64) -> Seen {
        let (first, end) = self.paths.span(train);
        let free = self.count_granted(train, horizon);
        Seen {
            train,
            horizon,
            first,
            waiting: first.saturating_add(free).min(end),
            end: first,
            holder: self.held_by(train, horizon),
        }
    }

    /// What follows the last command that is needed of a train.
    fn end_of(&self, all: &[Seen], seen: &Seen) -> usize {
        let (_, end) = self.paths.span(seen.train);
        let past = past_holders(all, seen, end);
        if seen.horizon == 0 {
            past
        } else {
            past.max(seen.waiting.saturating_add(1).min(end))
        }
    }

    /// What a cone says of each train, with the commands that are needed.
    fn all_seen(&self, horizons: &[u64]) -> Result<Vec<Seen>, AllocError> {
        let mut all = Vec::new(self.alloc);
        for number in 1..count_trains(self.interlocking) + 1 {
            let train = TrainNo(number);
            all.push(self.see_train(train, horizon_at(horizons, train)))?;
        }
        let mut named = Vec::new(self.alloc);
        for seen in &all {
            let end = self.end_of(all.as_slice(), seen);
            named.push(Seen { end, ..*seen })?;
        }
        Ok(named)
    }

    /// The named commands of a train.
    fn named_path(&self, seen: &Seen) -> Result<List<RouteNo>, AllocError> {
        let mut path = Vec::new(self.alloc);
        if let Some(last) = seen.end.checked_sub(1) {
            let span = Span {
                first: seen.first,
                last,
            };
            path.extend_from_slice(self.paths.walk(span))?;
        }
        Ok(List::from_vec(path))
    }

    /// The command at a place among all.
    fn command_at(&self, place: usize) -> Option<Command> {
        let given = self.paths.given.get(place)?;
        Some(given.command)
    }

    /// The trains of which commands are named.
    fn cone_trains(&self, all: &[Seen]) -> Result<List<ConeTrain>, AllocError> {
        let mut trains = List::new(self.alloc);
        for seen in all {
            if seen.end <= seen.first {
                continue;
            }
            let holder = match seen.holder {
                Some(wait) => self.command_at(wait.other),
                None => None,
            };
            trains.push(ConeTrain {
                train: seen.train,
                horizon: seen.horizon,
                free: seen.waiting.saturating_sub(seen.first).min(MOST_COMMANDS) as u32,
                path: self.named_path(seen)?,
                holder,
            })?;
        }
        Ok(trains)
    }

    /// The pairs of commands of which one waits for the other.
    fn cone_pairs(&self, all: &[Seen]) -> Result<List<(Command, Command)>, AllocError> {
        let mut pairs = Vec::new(self.alloc);
        for wait in self.waits.as_slice() {
            if !has_wait(all, wait) {
                continue;
            }
            if let (Some(other), Some(own)) = (
                self.command_at(wait.other),
                self.command_at(wait.own),
            ) {
                pairs.push((other, own))?;
            }
        }
        pairs.sort()?;
        Ok(List::from_vec(pairs))
    }
}

/// The violation of a requirement.
fn violation_of(requirement: Requirement) -> Violation
    ensures { result ≡ violation_of requirement }
{
    match requirement {
        Requirement::Within { within } => Violation::Within { within },
        Requirement::Order { order } => Violation::Order { order },
        Requirement::Visit { train, visit } => Violation::Visit { train, visit },
        Requirement::Grant { command } => Violation::Grant {
            train: command.train,
            command: 1,
        },
    }
}

/// Whether a command is named, by its place.
fn is_named(all: &[Seen], place: usize) -> bool {
    all.iter()
        .any(|seen| seen.first <= place && place < seen.end)
}

/// Whether a command is free.
fn is_free(all: &[Seen], place: usize) -> bool {
    all.iter()
        .any(|seen| seen.first <= place && place < seen.waiting)
}

/// Whether a train is held up by a wait.
fn holds_up(seen: &Seen, wait: &Wait) -> bool {
    seen.holder.is_some_and(|holder| holder.own == wait.own && holder.other == wait.other)
}

/// Whether the cone says that a command waits for another.
fn has_wait(all: &[Seen], wait: &Wait) -> bool {
    if !is_named(all, wait.own) || !is_named(all, wait.other) {
        return false;
    }
    is_free(all, wait.own) || all.iter().any(|seen| holds_up(seen, wait))
}

/// What follows the last command of a train that holds another up, or its first where none does.
fn past_holders(all: &[Seen], own: &Seen, end: usize) -> usize {
    let mut past = own.first;
    for seen in all {
        let Some(holder) = seen.holder else {
            continue;
        };
        if own.first <= holder.other && holder.other < end {
            past = past.max(holder.other.saturating_add(1));
        }
    }
    past
}
