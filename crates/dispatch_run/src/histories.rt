//! The histories of trains in a run.

ghost use Rattle.std.specs.Prelude.{◌≡◌, ◌-◌, ◌≤◌, IfOk};
ghost use Rattle.rail_spec.specs.Dispatches.{Dispatch};
ghost use Rattle.dispatch_run.specs.FollowedTrains.{IsTraffic};
ghost use Rattle.dispatch_run.specs.InTraffic.{IsFollowedTrainIn, history_in, state_in, states_in, train_history_in};

use crate::drifts::clock_at;
use crate::marks::{
    mark_dwells, mark_grants, mark_holds, mark_passes, mark_releases, mark_visits, none_ended,
    none_granted, none_passed, none_released, none_stood, none_visited,
};
use crate::traffic::{FollowedTrain, Traffic};
use rail_base::history::TrainHistory;
use rail_base::list::List;
use rail_base::state::TrainState;
use rail_course::IDLE;
use std::alloc::{AllocError, Global};

impl Traffic<'_> {
    /// What has happened to each train before the first tick.
    pub(crate) fn first_histories(&self, alloc: Global) -> Result<Vec<TrainHistory>, AllocError>
        ghost dispatch: { Dispatch }
        requires { IsTraffic dispatch self.now }
        ensures { IfOk result (λ h. h.items ≡ history_in self.now dispatch 0) }
    {
        let mut histories = Vec::new(alloc);
        for followed_train in self.followed_trains {
            histories.push(self.first_history(alloc, followed_train)?)?;
        }
        Ok(histories)
    }

    /// All trains before the first tick.
    pub(crate) fn first_states(&self, alloc: Global) -> Result<Vec<TrainState>, AllocError>
        ghost dispatch: { Dispatch }
        requires { IsTraffic dispatch self.now }
        ensures { IfOk result (λ s. s.items ≡ states_in self.now dispatch 0) }
    {
        let mut states = Vec::new(alloc);
        for _followed_train in self.followed_trains {
            states.push(IDLE)?;
        }
        Ok(states)
    }

    /// What has happened to a train by a tick, at which it is in this state.
    pub(crate) fn history_with(
        &self,
        alloc: Global,
        followed_train: &FollowedTrain,
        old: TrainHistory,
        state: TrainState,
        tick: u64,
    ) -> Result<TrainHistory, AllocError>
        ghost dispatch: { Dispatch }
        requires followed_train { IsFollowedTrainIn self.now dispatch followed_train.now }
        requires at_least_one { 1 ≤ tick }
        requires now { state ≡ state_in self.now dispatch tick followed_train.now }
        requires before { old ≡ train_history_in self.now dispatch (tick - 1) followed_train.now }
        ensures { IfOk result (λ h. h ≡ train_history_in self.now dispatch tick followed_train.now) }
    {
        let journey = &followed_train.journey;
        let train_path = &journey.train_path;
        let TrainHistory {
            grants,
            passes,
            releases,
            holds,
            visits,
            dwells,
        } = old;
        let grants = mark_grants(alloc, state.granted, tick, grants.into_vec())?;
        let mut passes = passes.into_vec();
        mark_passes(
            state,
            tick,
            &train_path.path_nodes,
            &train_path.node_milestones,
            &mut passes,
        );
        let mut releases = releases.into_vec();
        mark_releases(
            state,
            tick,
            &journey.releases,
            &journey.release_milestones,
            &mut releases,
        );
        let holds = mark_holds(
            alloc,
            &passes,
            clock_at(followed_train.until, tick),
            tick,
            &journey.holds,
            holds.as_slice(),
        )?;
        let visits = mark_visits(
            alloc,
            state,
            tick,
            train_path.visits.as_slice(),
            visits.as_slice(),
        )?;
        let dwells = mark_dwells(
            alloc,
            state.stood,
            tick,
            train_path.dwells.as_slice(),
            dwells.as_slice(),
        )?;
        Ok(TrainHistory {
            grants: List::from_vec(grants),
            passes: List::from_vec(passes),
            releases: List::from_vec(releases),
            holds: List::from_vec(holds),
            visits: List::from_vec(visits),
            dwells: List::from_vec(dwells),
        })
    }

    /// What has happened to a train before the first tick: nothing.
    fn first_history(
        &self,
        alloc: Global,
        followed_train: &FollowedTrain,
    ) -> Result<TrainHistory, AllocError>
        ghost dispatch: { Dispatch }
        requires { IsFollowedTrainIn self.now dispatch followed_train.now }
        ensures { IfOk result (λ h. h ≡ train_history_in self.now dispatch 0 followed_train.now) }
    {
        let journey = &followed_train.journey;
        let train_path = &journey.train_path;
        let grants = none_granted(alloc, train_path.path.as_slice())?;
        let passes = none_passed(alloc, train_path.path_nodes.as_slice())?;
        let releases = none_released(alloc, journey.releases.as_slice())?;
        let holds = none_ended(alloc, journey.holds.as_slice())?;
        let visits = none_visited(alloc, train_path.visits.as_slice())?;
        let dwells = none_stood(alloc, train_path.dwells.as_slice())?;
        Ok(TrainHistory {
            grants: List::from_vec(grants),
            passes: List::from_vec(passes),
            releases: List::from_vec(releases),
            holds: List::from_vec(holds),
            visits: List::from_vec(visits),
            dwells: List::from_vec(dwells),
        })
    }
}

/// The history of a train of which nothing is known.
pub(crate) fn empty_history(alloc: Global) -> TrainHistory {
    TrainHistory {
        grants: List::new(alloc),
        passes: List::new(alloc),
        releases: List::new(alloc),
        holds: List::new(alloc),
        visits: List::new(alloc),
        dwells: List::new(alloc),
    }
}
