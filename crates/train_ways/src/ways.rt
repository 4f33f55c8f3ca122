//! What can be asked of a train's ways.

ghost use Rattle.std.specs.Prelude.{IfOk, IfSome, None, ◌≡◌};
ghost use Rattle.rail_base.specs.Stations.{IsTrain, train_of};
ghost use Rattle.interlocking.specs.Plans.{on};
ghost use Rattle.way_spec.specs.Ways.{AreLive, HasWay, IsFewestRoutes, IsFirstUnmade};
ghost use Rattle.train_ways.specs.Search.{IsSearch};

use crate::onward::OnwardRoutes;
use crate::pairs::{all_made, ends, next_pairs, starts};
use crate::reached::{least_to, live_among, most_made, signals_of};
use graph_steps::{least_steps, turned_back};
use rail_base::list::List;
use rail_base::route::RouteNo;
use rail_base::station::TrainNo;
use std::alloc::{AllocError, Global};

/// The pairs of a train, with the numbers of steps to those that are reached.
#[derive(Drop)]
struct Search {
    /// How many visits the train has.
    width: usize,
    /// How many visits are made after the route of each pair.
    made: Vec<usize>,
    /// The pairs that can come next after each.
    next: Vec<List<usize>>,
    /// The least number of steps to each.
    found: Vec<Option<usize>>,
}

impl OnwardRoutes<'_> {
    /// The first visit of a train that no walk makes on which those before are made, counted from 1; none where some
    /// way of the train makes all.
    ///
    /// # Errors
    ///
    /// Want of memory alone.
    pub fn first_unmade(&self, alloc: Global, train: TrainNo) -> Result<Option<u32>, AllocError>
        requires { IsTrain self.now.interlocking.now.design.station train }
        ensures none { IfOk result (λ visit. visit ≡ None → on self.now.interlocking.now HasWay train) }
        ensures some { IfOk result (λ visit. IfSome visit (λ k. on self.now.interlocking.now IsFirstUnmade train k)) }
    {
        let search = self.search(alloc, train)?;
        let most = most_made(&search.made, &search.found);
        Ok(if most == search.width {
            None
        } else {
            Some(most as u32 + 1)
        })
    }

    /// How many routes the shortest way of a train has; none where it has no way.
    ///
    /// # Errors
    ///
    /// Want of memory alone.
    pub fn fewest_routes(&self, alloc: Global, train: TrainNo) -> Result<Option<u32>, AllocError>
        requires { IsTrain self.now.interlocking.now.design.station train }
        ensures none { IfOk result (λ fewest. fewest ≡ None → on self.now.interlocking.now HasWay train → ⊥) }
        ensures some { IfOk result (λ fewest. IfSome fewest
            (λ n. on self.now.interlocking.now IsFewestRoutes train n)) }
    {
        let search = self.search(alloc, train)?;
        Ok(match least_to(&search.made, &search.found, search.width) {
            Some(steps) => Some(steps as u32 + 1),
            None => None,
        })
    }

    /// The live routes of a train, those that stand in some way of it, in order.
    ///
    /// # Errors
    ///
    /// Want of memory alone.
    pub fn live_routes(&self, alloc: Global, train: TrainNo) -> Result<Vec<RouteNo>, AllocError>
        requires { IsTrain self.now.interlocking.now.design.station train }
        ensures { IfOk result (λ live. on self.now.interlocking.now AreLive train live.items) }
    {
        let search = self.search(alloc, train)?;
        let back = turned_back(alloc, &search.next)?;
        let ends = ends(alloc, &search.made, search.width)?;
        let left = least_steps(alloc, &back, &ends)?;
        let live = live_among(
            alloc,
            &self.interlocking.routes,
            search.width,
            &search.found,
            &left,
        )?;
        Ok(live)
    }

    /// The pairs of a train, with the numbers of steps to those that are reached.
    fn search(&self, alloc: Global, train: TrainNo) -> Result<Search, AllocError>
        requires { IsTrain self.now.interlocking.now.design.station train }
        ensures { IfOk result (λ search. IsSearch self.now.interlocking.now.routes
            (train_of self.now.interlocking.now.design.station train).visits search) }
    {
        let visits = self.interlocking.design.train(train).visits.as_slice();
        let made = all_made(alloc, self.interlocking, visits)?;
        let next = next_pairs(alloc, self.interlocking, &self.lists, visits, &made)?;
        let starts = starts(alloc, self.interlocking, visits)?;
        let found = least_steps(alloc, &next, &starts)?;
        Ok(Search {
            width: visits.len(),
            made,
            next,
            found,
        })
    }
}
