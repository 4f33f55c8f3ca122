//! A tick at which something may happen.

ghost use Rattle.std.specs.Prelude.{◌≡◌, ◌≤◌, IfOk, OnOk};
ghost use Rattle.rail_spec.specs.Dispatches.{Dispatch};
ghost use Rattle.dispatch_run.specs.FollowedTrains.{IsTraffic};
ghost use Rattle.dispatch_run.specs.InTraffic.{AreLookedAtIn, AreToBeMarkedIn, IsFollowedTrainIn, IsKnownIn, IsLookIn};
ghost use Rattle.dispatch_run.specs.InTraffic.{IsLookedAtIn, IsSeenIn, IsToBeMarkedIn, IsTurnIn, history_in};
ghost use Rattle.dispatch_run.specs.InTraffic.{looked_state_in, looked_states_in, train_history_in};

use crate::histories::empty_history;
use crate::looks::{Look, look_of};
use crate::moves::is_followed;
use crate::traffic::{FollowedTrain, Traffic};
use rail_base::history::TrainHistory;
use rail_base::state::TrainState;
use rail_course::{granted_on, state_of};
use std::alloc::{AllocError, Global};
use std::mem::replace;

/// The last tick that a run may have.
const LAST: u64 = 86_400;

impl Traffic<'_> {
    /// The states of all trains, each as it is looked at last, after a tick.
    pub(crate) fn next_states(
        &self,
        alloc: Global,
        states: &[TrainState],
        histories: &[TrainHistory],
        looks: &[Look],
        tick: u64,
    ) -> Result<Vec<TrainState>, AllocError>
        ghost dispatch: { Dispatch }
        requires traffic { IsTraffic dispatch self.now }
        requires turn { IsTurnIn self.now dispatch tick states.now histories.now looks.now }
        ensures { IfOk result (λ s. s.items ≡ looked_states_in self.now dispatch tick states.now looks.now) }
    {
        let mut next = Vec::new(alloc);
        for followed_train in self.followed_trains {
            next.push(self.next_state(followed_train, states, histories, looks, tick))?;
        }
        Ok(next)
    }

    /// The histories of all trains after a tick.
    pub(crate) fn next_histories(
        &self,
        alloc: Global,
        histories: Vec<TrainHistory>,
        states: &[TrainState],
        looks: &[Look],
        tick: u64,
    ) -> Result<Vec<TrainHistory>, AllocError>
        ghost dispatch: { Dispatch }
        requires traffic { IsTraffic dispatch self.now }
        requires to_be_marked { AreToBeMarkedIn self.now dispatch tick states.now looks.now histories.items }
        ensures { IfOk result (λ h. h.items ≡ history_in self.now dispatch tick) }
    {
        let mut next = histories;
        for i in 0..self.followed_trains.len() {
            let followed_train = &self.followed_trains[i];
            let train = followed_train.journey.train_path.train;
            self.mark_history(
                alloc,
                followed_train,
                &mut next[i],
                state_of(states, train),
                look_of(looks, train),
                tick,
            )?;
        }
        Ok(next)
    }

    /// The next looks at all trains after a tick.
    pub(crate) fn next_looks(
        &self,
        alloc: Global,
        states: &[TrainState],
        histories: &[TrainHistory],
        looks: &[Look],
        tick: u64,
    ) -> Result<Vec<Look>, AllocError>
        ghost dispatch: { Dispatch }
        requires traffic { IsTraffic dispatch self.now }
        requires looked { AreLookedAtIn self.now dispatch tick states.now looks.now }
        requires histories { histories.now ≡ history_in self.now dispatch tick }
        ensures { IfOk result (λ looks. IsKnownIn self.now dispatch tick states.now looks.items) }
    {
        let mut next = Vec::new(alloc);
        for followed_train in self.followed_trains {
            next.push(self.next_look(followed_train, states, histories, looks, tick))?;
        }
        Ok(next)
    }

    /// A train after a tick, where it is looked at then; else as it was looked at last. What it sees of the others is
    /// what they had come to by the tick before.
    fn next_state(
        &self,
        followed_train: &FollowedTrain,
        states: &[TrainState],
        histories: &[TrainHistory],
        looks: &[Look],
        tick: u64,
    ) -> TrainState
        ghost dispatch: { Dispatch }
        requires traffic { IsTraffic dispatch self.now }
        requires followed_train { IsFollowedTrainIn self.now dispatch followed_train.now }
        requires turn { IsTurnIn self.now dispatch tick states.now histories.now looks.now }
        ensures { result ≡ looked_state_in self.now dispatch tick states.now looks.now followed_train.now }
    {
        let train = followed_train.journey.train_path.train;
        let state = state_of(states, train);
        let look = look_of(looks, train);
        if look.until != tick {
            return state;
        }
        let before = self.drift_on(followed_train, state, look.since, tick - 1 - look.since);
        if !is_followed(followed_train.until, tick) {
            return before;
        }
        let granted = granted_on(
            states,
            histories,
            state.granted,
            followed_train.journey.waits.as_slice(),
        );
        self.move_train(followed_train, before, granted)
    }

    /// Marks what has happened to a train by a tick, where the train is looked at then.
    fn mark_history(
        &self,
        alloc: Global,
        followed_train: &FollowedTrain,
        history: &mut TrainHistory,
        state: TrainState,
        look: Look,
        tick: u64,
    ) -> Result<(), AllocError>
        ghost dispatch: { Dispatch }
        requires followed_train { IsFollowedTrainIn self.now dispatch followed_train.now }
        requires at_least_one { 1 ≤ tick }
        requires to_be_marked { IsToBeMarkedIn self.now dispatch tick followed_train.now state look history.old }
        ensures { OnOk result (history.new ≡ train_history_in self.now dispatch tick followed_train.now) }
    {
        if look.until != tick {
            return Ok(());
        }
        let old = replace(history, empty_history(alloc));
        *history = self.history_with(alloc, followed_train, old, state, tick)?;
        Ok(())
    }

    /// The next look at a train that is granted nothing in the next tick.
    fn far_look(
        &self,
        followed_train: &FollowedTrain,
        state: TrainState,
        history: &TrainHistory,
        look: Look,
        tick: u64,
    ) -> Look
        ghost dispatch: { Dispatch }
        requires traffic { IsTraffic dispatch self.now }
        requires followed_train { IsFollowedTrainIn self.now dispatch followed_train.now }
        requires at_least_one { 1 ≤ tick }
        requires at_most_86400 { tick ≤ 86400 }
        requires looked { IsLookedAtIn self.now dispatch tick followed_train.now state look }
        requires history { history.now ≡ train_history_in self.now dispatch tick followed_train.now }
        ensures seen { IsSeenIn self.now dispatch tick followed_train.now state result.since result.until }
        ensures begun { 1 ≤ result.since }
    {
        if look.until != tick {
            return look;
        }
        let idle = self.idle_ticks(followed_train, state, history, tick, LAST - tick);
        Look {
            since: tick,
            until: tick + 1 + idle,
        }
    }

    /// The next look at a train after a tick: at the next one, where it is granted a command then.
    fn next_look(
        &self,
        followed_train: &FollowedTrain,
        states: &[TrainState],
        histories: &[TrainHistory],
        looks: &[Look],
        tick: u64,
    ) -> Look
        ghost dispatch: { Dispatch }
        requires traffic { IsTraffic dispatch self.now }
        requires followed_train { IsFollowedTrainIn self.now dispatch followed_train.now }
        requires looked { AreLookedAtIn self.now dispatch tick states.now looks.now }
        requires histories { histories.now ≡ history_in self.now dispatch tick }
        ensures { IsLookIn self.now dispatch tick states.now followed_train.now result }
    {
        let train = followed_train.journey.train_path.train;
        let state = state_of(states, train);
        let history = &histories[train.0 as usize - 1];
        let look = self.far_look(followed_train, state, history, look_of(looks, train), tick);
        if !is_followed(followed_train.until, tick + 1) {
            return look;
        }
        if granted_on(
            states,
            histories,
            state.granted,
            followed_train.journey.waits.as_slice(),
        ) == state.granted
        {
            return look;
        }
        Look {
            since: look.since,
            until: tick + 1,
        }
    }
}
