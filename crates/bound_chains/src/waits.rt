//! Which commands of a plan wait for which others, and what its run says of them.

ghost use Rattle.std.specs.Prelude.{◌≡◌};
ghost use Rattle.std.specs.Option.{option_copied};
ghost use Rattle.bound_chains.specs.Runs.{history_of, visit_tick};

use crate::known::{contend, route};
use crate::paths::Given;
use crate::search::ChainSearch;
use leg_targets::Visit;
use rail_base::history::TrainHistory;
use rail_base::plan::Command;
use rail_base::route::{Route, RouteNo};
use rail_base::station::{SectionNo, TrainNo};
use std::alloc::AllocError;

/// A command that waits for one of another train, by their places among all.
#[derive(Clone, Copy)]
pub(crate) struct Wait {
    pub own: usize,
    pub other: usize,
    /// The tick at which the other has released all that the two share, where that has come.
    pub tick: Option<u64>,
}

impl ChainSearch<'_> {
    /// The tick at which a visit is made, where that has come.
    pub fn visit_tick(&self, visit: Visit) -> Option<u64>
        ensures { result ≡ visit_tick self.now.history.now visit }
    {
        if visit.number == 0 {
            return None;
        }
        let history = self.history_of(visit.train)?;
        match history.visits.as_slice().get(visit.number as usize - 1)? {
            Some(made) => Some(made.1),
            None => None,
        }
    }

    /// Whether a command is granted by a tick.
    pub(crate) fn is_granted_by(&self, place: usize, tick: u64) -> bool {
        self.grant_tick(place)
            .is_some_and(|granted| granted <= tick)
    }

    /// How many commands of a train are granted by a tick.
    pub(crate) fn count_granted(&self, train: TrainNo, tick: u64) -> usize {
        let (first, end) = self.paths.span(train);
        let mut count = 0usize;
        for place in first..end {
            if self.is_granted_by(place, tick) {
                count = count.saturating_add(1);
            }
        }
        count
    }

    /// What each command waits for.
    pub(crate) fn find_waits(&self) -> Result<Vec<Wait>, AllocError> {
        let mut waits = Vec::new(self.alloc);
        for (own, given) in self.paths.given.iter().enumerate() {
            self.push_waits(&mut waits, own, given)?;
        }
        Ok(waits)
    }

    /// What has happened to a train.
    fn history_of(&self, train: TrainNo) -> Option<&TrainHistory>
        ensures { option_copied result ≡ history_of self.now.history.now train }
    {
        if train.0 == 0 {
            return None;
        }
        self.history.as_slice().get(train.0 as usize - 1)
    }

    /// The tick at which a command is granted, by its place among all, where that has come.
    fn grant_tick(&self, place: usize) -> Option<u64> {
        let given = self.paths.given.get(place)?;
        let history = self.history_of(given.command.train)?;
        let grant = history
            .grants
            .as_slice()
            .get(place.checked_sub(given.first)?)?;
        grant.1
    }

    /// The tick at which the other command has released all that it shares with one, where that has come.
    fn clear_tick(&self, own: Command, other: Command) -> Option<u64> {
        let route = route(self.interlocking, own.route)?;
        let history = self.history_of(other.train)?;
        let own = last_release(history.releases.as_slice(), other.route, route)?;
        let held = last_release(history.holds.as_slice(), other.route, route)?;
        Some(own.max(held))
    }

    /// Adds what a command waits for.
    fn push_waits(
        &self,
        waits: &mut Vec<Wait>,
        own: usize,
        given: &Given,
    ) -> Result<(), AllocError> {
        for (other, earlier) in self.paths.given.iter().enumerate() {
            if earlier.step < given.step
                && contend(self.interlocking, earlier.command, given.command)
            {
                let tick = self.clear_tick(given.command, earlier.command);
                waits.push(Wait { own, other, tick })?;
            }
        }
        Ok(())
    }
}

/// The last tick at which a route releases one of its sections that another has, or 1; none where one has not come.
fn last_release(
    releases: &[(RouteNo, SectionNo, Option<u64>)],
    number: RouteNo,
    other: &Route,
) -> Option<u64> {
    let mut last = 1;
    for release in releases {
        if release.0 == number && other.has_section(release.1) {
            last = last.max(release.2?);
        }
    }
    Some(last)
}
