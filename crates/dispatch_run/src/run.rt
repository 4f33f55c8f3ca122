//! Runs, from event to event.

ghost use Rattle.std.specs.Prelude.{◌≡◌, ◌≤◌, ◌<◌, ℕ, IfOk};
ghost use Rattle.rail_spec.specs.Dispatches.{Dispatch};
ghost use Rattle.dispatch_run.specs.FollowedTrains.{IsTraffic};
ghost use Rattle.dispatch_run.specs.InTraffic.{IsProgressIn, history_in};

use crate::looks::{Look, first_looks, next_tick};
use crate::traffic::Traffic;
use crate::visits::has_looked_visit_at;
use rail_base::history::TrainHistory;
use rail_base::state::TrainState;
use std::alloc::{AllocError, Global};

/// How far a run has come: the tick, each train as it was looked at last, when it was and when it is to be looked at
/// next, what has happened by then, and whether a visit is made in the tick.
#[derive(Drop)]
pub struct Progress {
    pub tick: u64,
    pub states: Vec<TrainState>,
    pub looks: Vec<Look>,
    pub histories: Vec<TrainHistory>,
    /// Whether a visit is made in its tick.
    pub visited: bool,
}

impl Traffic<'_> {
    /// The run before the first tick.
    pub fn begin(&self, alloc: Global) -> Result<Progress, AllocError>
        ghost dispatch: { Dispatch }
        requires { IsTraffic dispatch self.now }
        ensures tick { IfOk result (λ g. g.tick ≡ 0) }
        ensures is { IfOk result (λ g. IsProgressIn self.now dispatch g) }
    {
        Ok(Progress {
            tick: 0,
            states: self.first_states(alloc)?,
            looks: first_looks(self, alloc)?,
            histories: self.first_histories(alloc)?,
            visited: false,
        })
    }

    /// The run at the next tick, up to so many, at which something may happen to a train. Nothing happens in between.
    pub fn advance(
        &self,
        alloc: Global,
        progress: Progress,
        most: u64,
    ) -> Result<Progress, AllocError>
        ghost dispatch: { Dispatch }
        requires traffic { IsTraffic dispatch self.now }
        requires progress { IsProgressIn self.now dispatch progress }
        requires ahead { progress.tick < most }
        requires at_most_86400 { most ≤ 86400 }
        ensures after { IfOk result (λ g. progress.tick < g.tick) }
        ensures within { IfOk result (λ g. g.tick ≤ most) }
        ensures at_0 { IfOk result (λ g. progress.tick ≡ 0 → g.tick ≡ 1) }
        ensures is { IfOk result (λ g. IsProgressIn self.now dispatch g) }
        ensures quiet { IfOk result (λ g. (k : ℕ) → progress.tick ≤ k → k < g.tick
            → history_in self.now dispatch k ≡ progress.histories.items) }
    {
        let tick = next_tick(progress.looks.as_slice(), progress.tick, most);
        let states = self.next_states(
            alloc,
            progress.states.as_slice(),
            progress.histories.as_slice(),
            progress.looks.as_slice(),
            tick,
        )?;
        let histories = self.next_histories(
            alloc,
            progress.histories,
            states.as_slice(),
            progress.looks.as_slice(),
            tick,
        )?;
        let visited = has_looked_visit_at(progress.looks.as_slice(), histories.as_slice(), tick);
        let looks = self.next_looks(
            alloc,
            states.as_slice(),
            histories.as_slice(),
            progress.looks.as_slice(),
            tick,
        )?;
        Ok(Progress {
            tick,
            states,
            looks,
            histories,
            visited,
        })
    }

    /// The run at a tick.
    pub fn run(&self, alloc: Global, last: u64) -> Result<Progress, AllocError>
        ghost dispatch: { Dispatch }
        requires traffic { IsTraffic dispatch self.now }
        requires at_most_86400 { last ≤ 86400 }
        ensures tick { IfOk result (λ g. g.tick ≡ last) }
        ensures is { IfOk result (λ g. IsProgressIn self.now dispatch g) }
    {
        let mut progress = self.begin(alloc)?;
        while progress.tick < last {
            progress = self.advance(alloc, progress, last)?;
        }
        Ok(progress)
    }
}
