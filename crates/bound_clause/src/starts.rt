//! What a certificate says of the commands with which a train begins in the first tick.

ghost use Rattle.std.specs.Prelude.{◌≡◌, OnOk, option_map};
ghost use Rattle.rail_base.specs.Routes.{IsRoute, route_at};
ghost use Rattle.rail_base.specs.Stations.{IsTrain};
ghost use Rattle.bound_spec.specs.Certificates.{visit_from};
ghost use Rattle.bound_clause.specs.Said.{said_before, said_of_start, said_of_starts};
ghost use Rattle.bound_clause.specs.Spoken.{pairs_in, routes_in, station_of, Adds, of_design, begins};
ghost use Rattle.bound_clause.specs.Spoken.{origin_literals};

use crate::numbered::NumberedBound;
use crate::remainder::Remainder;
use bound_spec::{Origin, Requirement};
use interlocking::has_node;
use rail_base::plan::Command;
use rail_base::route::{RouteNo, Start, route_at};
use rail_base::station::TrainNo;
use std::alloc::{AllocError, Global};

impl NumberedBound<'_> {
    /// Puts what is said of the origin's first tick at the end.
    pub(crate) fn push_origin(
        &self,
        alloc: Global,
        clause: &mut Remainder,
    ) -> Result<(), AllocError>
        ensures { OnOk result (Adds self.now clause.old clause.new (origin_literals self.now)) }
    {
        match (&self.bound.origin, self.train_from()) {
            (Origin::FirstTick, Some(train)) => self.push_starts(alloc, clause, train),
            _ => Ok(()),
        }
    }

    /// Whether the route of a command starts at a boundary of its train's first visit.
    fn begins(&self, command: Command) -> bool
        requires train { IsTrain (station_of self.now) command.train }
        requires route { IsRoute (routes_in self.now) command.route }
        ensures { result ≡ begins self.now command }
    {
        let interlocking = self.contention.interlocking;
        let start = route_at(&interlocking.routes, command.route).start;
        let visits = interlocking.design.train(command.train).visits.as_slice();
        match (start, visits.first()) {
            (Start::Boundary(node), Some(nodes)) => has_node(nodes.as_slice(), node),
            _ => false,
        }
    }

    /// Puts that some command that contends with this one is given before it at the end of a clause.
    fn push_before(
        &self,
        alloc: Global,
        clause: &mut Remainder,
        command: Command,
    ) -> Result<(), AllocError>
        ensures { OnOk result (Adds self.now clause.old clause.new (said_before (pairs_in self.now) command)) }
    {
        let others = self.contention.pairs.rivals(alloc, command)?;
        for other in &others {
            self.say_before(clause, (*other, command), false)?;
        }
        Ok(())
    }

    /// The same, where the command is one with which its train can begin.
    fn push_start(
        &self,
        alloc: Global,
        clause: &mut Remainder,
        command: Command,
    ) -> Result<(), AllocError>
        requires train { IsTrain (station_of self.now) command.train }
        requires route { IsRoute (routes_in self.now) command.route }
        ensures { OnOk result (Adds self.now clause.old clause.new (of_design self.now said_of_start command)) }
    {
        if self.begins(command) {
            self.push_before(alloc, clause, command)?;
        }
        Ok(())
    }

    /// The same of each command of a train.
    fn push_starts(
        &self,
        alloc: Global,
        clause: &mut Remainder,
        train: TrainNo,
    ) -> Result<(), AllocError>
        requires { IsTrain (station_of self.now) train }
        ensures { OnOk result (Adds self.now clause.old clause.new (of_design self.now said_of_starts train)) }
    {
        for number in 1..self.contention.interlocking.routes.len() as u32 + 1 {
            let route = RouteNo(number);
            self.push_start(alloc, clause, Command { train, route })?;
        }
        Ok(())
    }

    /// The train of the visit from which ticks are counted.
    fn train_from(&self) -> Option<TrainNo>
        ensures { result ≡ option_map (λ v. v.train) (visit_from (station_of self.now) self.now.bound.now.requirement) }
    {
        let station = &self.contention.interlocking.design.station;
        match self.bound.requirement {
            Requirement::Within { within } => {
                Some(station.withins.as_slice()[within as usize - 1].from_train)
            }
            Requirement::Order { order } => {
                Some(station.orders.as_slice()[order as usize - 1].then_train)
            }
            Requirement::Visit { .. } | Requirement::Grant { .. } => None,
        }
    }
}
