//! The histories of trains in a run.

ghost use Rattle.std.specs.Prelude.{◌≡◌, ◌-◌, IfOk};
ghost use Rattle.tick_sim.specs.Running.{IsNowIn, history_in, train_history_in};

use crate::marks::{
    mark_dwells, mark_grants, mark_holds, mark_passes, mark_releases, mark_visits, none_ended,
    none_granted, none_passed, none_released, none_stood, none_visited,
};
use crate::ride::Ride;
use rail_base::history::{History, TrainHistory};
use rail_base::list::List;
use rail_base::state::TrainState;
use rail_course::{PlannedJourneys, state_of};
use std::alloc::{AllocError, Global};

/// What has happened to each train before the first tick.
pub(crate) fn first_histories<'a>(
    run: &'a PlannedJourneys<'a>,
    alloc: Global,
) -> Result<History, AllocError>
    ensures { IfOk result (λ h. h ≡ history_in run.now 0) }
{
    let mut histories = Vec::new(alloc);
    for journey in run.journeys.as_slice() {
        let ride = Ride { run, journey };
        histories.push(ride.first_history(alloc)?)?;
    }
    Ok(List::from_vec(histories))
}

/// What has happened to each train by a tick, at which all trains are in these states.
pub(crate) fn next_histories<'a>(
    run: &'a PlannedJourneys<'a>,
    alloc: Global,
    old: &History,
    states: &[TrainState],
    tick: u64,
) -> Result<History, AllocError>
    requires now { IsNowIn run.now tick states.now }
    requires before { old.now ≡ history_in run.now (tick - 1) }
    ensures { IfOk result (λ h. h ≡ history_in run.now tick) }
{
    let mut histories = Vec::new(alloc);
    let olds = old.as_slice();
    let journeys = run.journeys.as_slice();
    for i in 0..journeys.len() {
        let journey = &journeys[i];
        let ride = Ride { run, journey };
        histories.push(ride.next_history(alloc, &olds[i], states, tick)?)?;
    }
    Ok(List::from_vec(histories))
}

impl Ride<'_> {
    /// What has happened to the train before the first tick: nothing.
    fn first_history(&self, alloc: Global) -> Result<TrainHistory, AllocError>
        ensures { IfOk result (λ h. h ≡ train_history_in self.now.run.now 0 self.now.journey.now.train_path.train) }
    {
        let train_path = &self.journey.train_path;
        let grants = none_granted(alloc, train_path.path.as_slice())?;
        let passes = none_passed(alloc, train_path.path_nodes.as_slice())?;
        let releases = none_released(alloc, self.journey.releases.as_slice())?;
        let holds = none_ended(alloc, self.journey.holds.as_slice())?;
        let visits = none_visited(alloc, train_path.visits.as_slice())?;
        let dwells = none_stood(alloc, train_path.dwells.as_slice())?;
        Ok(TrainHistory {
            grants: List::from_vec(grants),
            passes: List::from_vec(passes),
            releases: List::from_vec(releases),
            holds: List::from_vec(holds),
            visits: List::from_vec(visits),
            dwells: List::from_vec(dwells),
        })
    }

    /// What has happened to the train by a tick, at which all trains are in these states.
    fn next_history(
        &self,
        alloc: Global,
        old: &TrainHistory,
        states: &[TrainState],
        tick: u64,
    ) -> Result<TrainHistory, AllocError>
        requires now { IsNowIn self.now.run.now tick states.now }
        requires before { old.now ≡ train_history_in self.now.run.now (tick - 1) self.now.journey.now.train_path.train }
        ensures { IfOk result (λ h. h ≡ train_history_in self.now.run.now tick self.now.journey.now.train_path.train) }
    {
        let train_path = &self.journey.train_path;
        let state = state_of(states, train_path.train);
        let grants = mark_grants(alloc, state.granted, tick, old.grants.as_slice())?;
        let passes = mark_passes(
            alloc,
            state,
            tick,
            train_path.path_nodes.as_slice(),
            old.passes.as_slice(),
        )?;
        let releases = mark_releases(
            alloc,
            state,
            tick,
            self.journey.releases.as_slice(),
            old.releases.as_slice(),
        )?;
        let holds = mark_holds(
            alloc,
            passes.as_slice(),
            tick,
            self.journey.holds.as_slice(),
            old.holds.as_slice(),
        )?;
        let visits = mark_visits(
            alloc,
            state,
            tick,
            train_path.visits.as_slice(),
            old.visits.as_slice(),
        )?;
        let dwells = mark_dwells(
            alloc,
            state.stood,
            tick,
            train_path.dwells.as_slice(),
            old.dwells.as_slice(),
        )?;
        Ok(TrainHistory {
            grants: List::from_vec(grants),
            passes: List::from_vec(passes),
            releases: List::from_vec(releases),
            holds: List::from_vec(holds),
            visits: List::from_vec(visits),
            dwells: List::from_vec(dwells),
        })
    }
}
