//! What orders say before the first plan.

ghost use Rattle.std.specs.Prelude.{◌≡◌, ◌≤◌, ◌<◌, ◌+◌, [], IfOk, IfErr, length, take};
ghost use Rattle.order_bounds.specs.Orders.{orders_first};

use crate::outcome::Outcome;
use crate::rounds::{PlanSearch, SearchState};
use clause_spec::BaseKind;
use order_bounds::{line_of_order, pairs_of_order};
use rail_base::plan::Command;

impl PlanSearch<'_> {
    ghost use Rattle.verify_loop.specs.Asking.{EndsWith, IsBeginning, IsFirst, IsPairList, IsSearch, SearchesLive};
    ghost use Rattle.verify_loop.specs.Asking.{most_steps, said_before, said_to, station_of};

    /// A search that has the first clauses alone, with what orders say, where live commands are searched.
    pub(crate) fn with_orders(&self, search: SearchState) -> Result<SearchState, Outcome>
        requires first { IsFirst self.now }
        requires begun { IsBeginning self.now search [] }
        ensures begun { IfOk result (IsSearch self.now) }
        ensures ends { IfErr result (EndsWith self.now) }
    {
        match self.aim.base {
            BaseKind::Live(_) => self.with_all_orders(search),
            BaseKind::Plain | BaseKind::Sorted | BaseKind::Normal => Ok(search),
        }
    }

    /// The same over live commands: order after order.
    fn with_all_orders(&self, search: SearchState) -> Result<SearchState, Outcome>
        requires live { SearchesLive self.now }
        requires first { IsFirst self.now }
        requires begun { IsBeginning self.now search [] }
        ensures begun { IfOk result (λ s. IsBeginning self.now s (orders_first self.now.aim.base (station_of self.now)
            (most_steps self.now))) }
        ensures ends { IfErr result (EndsWith self.now) }
    {
        let mut search = search;
        for order in 1..self.interlocking.design.station.orders.len() as u32 + 1 {
            search = self.with_order(search, order)?;
        }
        Ok(search)
    }

    /// The same with what one more order says.
    fn with_order(&self, search: SearchState, order: u32) -> Result<SearchState, Outcome>
        requires live { SearchesLive self.now }
        requires first { IsFirst self.now }
        requires at_least_one { 1 ≤ order }
        requires within { order ≤ length (station_of self.now).orders }
        requires begun { IsBeginning self.now search (said_before self.now order) }
        ensures begun { IfOk result (λ s. IsBeginning self.now s (said_before self.now (order + 1))) }
        ensures ends { IfErr result (EndsWith self.now) }
    {
        let Ok(pairs) = pairs_of_order(self.alloc, &self.by_design().contention, order) else {
            return Err(Outcome::Memory);
        };
        let pairs = pairs.as_slice();
        let mut search = search;
        for place in 0..pairs.len() {
            search = self.with_pair(search, order, pairs, place)?;
        }
        Ok(search)
    }

    /// The same with what the order says of one more pair.
    fn with_pair(
        &self,
        search: SearchState,
        order: u32,
        pairs: &[(Command, Command)],
        place: usize,
    ) -> Result<SearchState, Outcome>
        requires live { SearchesLive self.now }
        requires first { IsFirst self.now }
        requires at_least_one { 1 ≤ order }
        requires within { order ≤ length (station_of self.now).orders }
        requires pairs { IsPairList self.now order pairs.now }
        requires place { place < length pairs.now }
        requires begun { IsBeginning self.now search (said_to self.now order (take place pairs.now)) }
        ensures begun { IfOk result (λ s. IsBeginning self.now s
            (said_to self.now order (take (place + 1) pairs.now))) }
        ensures ends { IfErr result (EndsWith self.now) }
    {
        match line_of_order(self.alloc, &self.by_design(), order, pairs[place]) {
            Ok(Some(line)) => self.add_line(search, &line),
            Ok(None) => Ok(search),
            Err(_) => Err(Outcome::Memory),
        }
    }
}
