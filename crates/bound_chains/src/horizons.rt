//! How far each train has to be followed to know when one makes a visit.

use crate::known::count_trains;
use crate::search::ChainSearch;
use crate::waits::Wait;
use rail_base::station::TrainNo;
use std::alloc::AllocError;

/// So often each train is looked at for what it waits for.
const MOST_ROUNDS: usize = 1024;

/// The tick up to which a train is followed.
pub(crate) fn horizon_at(horizons: &[u64], train: TrainNo) -> u64 {
    if train.0 == 0 {
        return 0;
    }
    horizons.get(train.0 as usize - 1).copied().unwrap_or(0)
}

impl ChainSearch<'_> {
    /// What holds up a train's first command that is not granted by a tick, where none of them is granted at that tick.
    pub(crate) fn held_by(&self, train: TrainNo, tick: u64) -> Option<Wait> {
        if tick == 0 {
            return None;
        }
        let granted = self.count_granted(train, tick);
        if self.count_granted(train, tick - 1) != granted {
            return None;
        }
        let (first, end) = self.paths.span(train);
        let next = first.checked_add(granted)?;
        if end <= next {
            return None;
        }
        longest(self.waits.as_slice(), next)
    }

    /// The ticks up to which the trains are followed to know what one does by a tick, none where that does not end
    /// soon.
    pub(crate) fn horizons(
        &self,
        train: TrainNo,
        tick: u64,
    ) -> Result<Option<Vec<u64>>, AllocError> {
        let count = count_trains(self.interlocking) as usize;
        let mut horizons = vec![in self.alloc; 0; count]?;
        raise(&mut horizons, train, tick);
        for _round in 0..MOST_ROUNDS {
            let by_waits = self.follow_waits(&mut horizons);
            let by_holders = self.follow_holders(&mut horizons);
            if !by_waits && !by_holders {
                return Ok(Some(horizons));
            }
        }
        Ok(None)
    }

    /// The train of a command, by its place among all.
    fn train_at(&self, place: usize) -> TrainNo {
        match self.paths.given.get(place) {
            Some(given) => given.command.train,
            None => TrainNo(0),
        }
    }

    /// Follows the trains for which granted commands have waited; whether any further than before.
    fn follow_waits(&self, horizons: &mut [u64]) -> bool {
        let mut goes_on = false;
        for wait in self.waits.as_slice() {
            let horizon = horizon_at(horizons, self.train_at(wait.own));
            if !self.is_granted_by(wait.own, horizon) {
                continue;
            }
            if let Some(tick) = wait.tick {
                let other = self.train_at(wait.other);
                goes_on = raise(horizons, other, tick) || goes_on;
            }
        }
        goes_on
    }

    /// Follows the trains that hold others up; whether any further than before.
    fn follow_holders(&self, horizons: &mut [u64]) -> bool {
        let mut goes_on = false;
        for number in 1..count_trains(self.interlocking) + 1 {
            let train = TrainNo(number);
            let horizon = horizon_at(horizons, train);
            if let Some(wait) = self.held_by(train, horizon) {
                let other = self.train_at(wait.other);
                goes_on = raise(horizons, other, horizon.saturating_sub(1)) || goes_on;
            }
        }
        goes_on
    }
}

/// Follows a train up to a tick; whether that is further than before.
fn raise(horizons: &mut [u64], train: TrainNo, tick: u64) -> bool {
    if train.0 == 0 {
        return false;
    }
    match horizons.get_mut(train.0 as usize - 1) {
        Some(horizon) => {
            let is_further = *horizon < tick;
            if is_further {
                *horizon = tick;
            }
            is_further
        }
        None => false,
    }
}

/// Whether the first ends later, or not at all where the second does.
fn is_longer(one: Option<u64>, other: Option<u64>) -> bool {
    match (one, other) {
        (None, other) => other.is_some(),
        (Some(one), Some(other)) => other < one,
        (Some(_), None) => false,
    }
}

/// Of what a command waits for that which takes longest.
fn longest(waits: &[Wait], own: usize) -> Option<Wait> {
    let mut longest: Option<Wait> = None;
    for wait in waits {
        if wait.own != own {
            continue;
        }
        let is_longest = match longest {
            Some(known) => is_longer(wait.tick, known.tick),
            None => true,
        };
        if is_longest {
            longest = Some(*wait);
        }
    }
    longest
}
