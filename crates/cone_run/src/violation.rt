//! Whether the violation of a cone is certain in its run.

ghost use Rattle.std.specs.Prelude.{◌≡◌, ◌≤◌, IfOk};
ghost use Rattle.rail_base.specs.Stations.{IsTrain};
ghost use Rattle.rail_base.specs.declared.plan.Violation.TheVariants as violation;
ghost use Rattle.cone_run.specs.Layouts.{comes_after, comes_late, shows_violation, station_of, ShowsWithin, ShowsOrder};

use crate::checked::ConeRun;
use crate::visits::place_of;
use crate::waits::{free_of, horizon_of};
use cone_form::path;
use rail_base::plan::Violation;
use rail_base::station::{Order, TrainNo, Within};
use rail_course::{path_nodes_of, visits_of};
use std::alloc::{AllocError, Global};

impl ConeRun<'_> {
    /// Whether the violation is certain.
    pub(crate) fn shows_violation(&self, alloc: Global) -> Result<bool, AllocError>
        ensures { IfOk result (λ b. b ≡ shows_violation self.now.layout self.now.layout.cone.now.violation) }
    {
        let station = &self.layout.interlocking.design.station;
        match self.layout.cone.violation {
            Violation::Path { train, visit } => self.shows_path(alloc, train, visit),
            Violation::Within { within } => {
                Ok(self.shows_within(&station.withins.as_slice()[within as usize - 1]))
            }
            Violation::Order { order } => {
                Ok(self.shows_order(&station.orders.as_slice()[order as usize - 1]))
            }
            Violation::Grant { train, command } => Ok(self.shows_grant(train, command)),
            Violation::Visit { train, visit } => Ok(self.shows_visit(train, visit)),
        }
    }

    /// Whether a train's path misses a visit.
    fn shows_path(&self, alloc: Global, train: TrainNo, visit: u32) -> Result<bool, AllocError>
        requires { IsTrain (station_of self.now.layout) train }
        ensures { IfOk result (λ b. b ≡ shows_violation self.now.layout (violation.Path train visit)) }
    {
        let interlocking = self.layout.interlocking;
        let routes = path(self.layout.cone, train);
        let path_nodes = path_nodes_of(alloc, interlocking, routes)?;
        let visits = interlocking.design.train(train).visits.as_slice();
        let visits = visits_of(alloc, visits, &path_nodes)?;
        Ok(place_of(visits.as_slice(), visit).is_none())
    }

    /// Whether the second visit of a within, whose first is made at this tick, is certain to come too late.
    fn comes_late(&self, within: &Within, tick: u64) -> bool
        requires train { IsTrain (station_of self.now.layout) within.now.to_train }
        requires tick { tick ≤ 86400 }
        ensures { result ≡ comes_late self.now.layout within.now tick }
    {
        let most = u64::from(within.max_ms / self.layout.interlocking.design.station.tick_ms);
        let last = tick + most;
        if horizon_of(self.layout.cone, within.to_train) < last {
            return false;
        }
        self.visit_tick(last, within.to_train, within.to_visit)
            .is_none()
    }

    /// Whether a within is certain to fail.
    fn shows_within(&self, within: &Within) -> bool
        requires from { IsTrain (station_of self.now.layout) within.now.from_train }
        requires to { IsTrain (station_of self.now.layout) within.now.to_train }
        ensures { ShowsWithin self.now.layout within.now result }
    {
        let last = horizon_of(self.layout.cone, within.from_train);
        match self.visit_tick(last, within.from_train, within.from_visit) {
            Some(tick) => self.comes_late(within, tick),
            None => false,
        }
    }

    /// Whether the first visit of an order, whose second is made at this tick, is certain not to come before it.
    fn comes_after(&self, order: &Order, tick: u64) -> bool
        requires train { IsTrain (station_of self.now.layout) order.now.first_train }
        requires tick { 1 ≤ tick }
        ensures { result ≡ comes_after self.now.layout order.now tick }
    {
        if horizon_of(self.layout.cone, order.first_train) < tick - 1 {
            return false;
        }
        self.visit_tick(tick - 1, order.first_train, order.first_visit)
            .is_none()
    }

    /// Whether an order is certain to fail.
    fn shows_order(&self, order: &Order) -> bool
        requires first { IsTrain (station_of self.now.layout) order.now.first_train }
        requires then_ { IsTrain (station_of self.now.layout) order.now.then_train }
        ensures { ShowsOrder self.now.layout order.now result }
    {
        let last = horizon_of(self.layout.cone, order.then_train);
        match self.visit_tick(last, order.then_train, order.then_visit) {
            Some(tick) => self.comes_after(order, tick),
            None => false,
        }
    }

    /// Whether a command waits up to the horizon of the design.
    fn shows_grant(&self, train: TrainNo, command: u32) -> bool
        ensures { result ≡ shows_violation self.now.layout (violation.Grant train command) }
    {
        let cone = self.layout.cone;
        let last = self.layout.interlocking.design.horizon();
        horizon_of(cone, train) == last && free_of(cone, train) < command
    }

    /// Whether a visit is not made up to the horizon of the design.
    fn shows_visit(&self, train: TrainNo, visit: u32) -> bool
        requires { IsTrain (station_of self.now.layout) train }
        ensures { result ≡ shows_violation self.now.layout (violation.Visit train visit) }
    {
        let last = horizon_of(self.layout.cone, train);
        if last != self.layout.interlocking.design.horizon() {
            return false;
        }
        self.visit_tick(last, train, visit).is_none()
    }
}
