//! How many steps plans have at the least, and need at the most.

ghost use Rattle.std.specs.Prelude.{IfOk, IfSome, None, ◌≡◌, ◌≤◌, max};
ghost use Rattle.rail_base.specs.declared.station.TrainNo.{TrainNo};
ghost use Rattle.rail_base.specs.Stations.{IsTrain};
ghost use Rattle.interlocking.specs.Plans.{on};
ghost use Rattle.way_spec.specs.Ways.{HasWay, IsFewestSteps, IsMostRoutes, IsMostSteps};

use crate::onward::OnwardRoutes;
use crate::reached::signals_of;
use rail_base::station::TrainNo;
use std::alloc::{AllocError, Global};

impl OnwardRoutes<'_> {
    /// How many routes the longest of the trains' shortest ways has, so that no plan has fewer steps; none where some
    /// train has no way.
    ///
    /// # Errors
    ///
    /// Want of memory alone.
    pub fn fewest_steps(&self, alloc: Global) -> Result<Option<u32>, AllocError>
        ensures none { IfOk result (λ fewest. fewest ≡ None → (t : TrainNo)
            × IsTrain self.now.interlocking.now.design.station t
            × (on self.now.interlocking.now HasWay t → ⊥)) }
        ensures some { IfOk result (λ fewest. IfSome fewest (λ n. on self.now.interlocking.now IsFewestSteps n)) }
    {
        let mut most = 0;
        for number in 1..self.interlocking.design.station.trains.len() as u32 + 1 {
            match self.fewest_routes(alloc, TrainNo(number))? {
                Some(fewest) => most = greater(most, fewest),
                None => return Ok(None),
            }
        }
        Ok(Some(most))
    }

    /// How many steps are enough: where some plan of any number of steps meets the design, one of at most so many
    /// does. It is the sum, over all trains, of the signals at which a live route of the train starts, and one.
    ///
    /// # Errors
    ///
    /// Want of memory alone.
    pub fn most_steps(&self, alloc: Global) -> Result<u64, AllocError>
        ensures { IfOk result (λ most. on self.now.interlocking.now IsMostSteps most) }
    {
        let mut most = 0;
        for number in 1..self.interlocking.design.station.trains.len() as u32 + 1 {
            most += self.most_routes(alloc, TrainNo(number))? as u64;
        }
        Ok(most)
    }

    /// How many routes a train has at the most in a plan.
    fn most_routes(&self, alloc: Global, train: TrainNo) -> Result<usize, AllocError>
        requires { IsTrain self.now.interlocking.now.design.station train }
        ensures most { IfOk result (λ most. on self.now.interlocking.now IsMostRoutes train most) }
        ensures few { IfOk result (λ most. most ≤ 2001) }
    {
        let live = self.live_routes(alloc, train)?;
        let signals = signals_of(alloc, &self.interlocking.routes, &live)?;
        Ok(signals.as_slice().len() + 1)
    }
}

/// The greater of two numbers.
fn greater(one: u32, other: u32) -> u32
    ensures { result ≡ max one other }
{
    one.max(other)
}
