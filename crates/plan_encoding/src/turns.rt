//! Each train comes in turn with the next one that is like it.

ghost use Rattle.std.specs.Prelude.{◌≡◌, ◌≤◌, IfOk, OnOk, IfErr};
ghost use Rattle.rail_base.specs.Routes.{IsRoute};
ghost use Rattle.rail_base.specs.Stations.{IsTrain};
ghost use Rattle.rail_alike.specs.Turns.{AreNamed};
ghost use Rattle.alike_clause_spec.specs.Turns.{begins};
ghost use Rattle.live_clause_spec.specs.Listed.{live_beginnings, live_in_turn};
ghost use Rattle.plan_encoding.specs.Families.{all_in_turn, begun_clause, begun_throughout};
ghost use Rattle.plan_encoding.specs.Encoders.{HasCommands, IsCommand, Emits, Stops, among, over};
ghost use Rattle.plan_encoding.specs.Encoders.{station, table, written};

use crate::encoder::Encoder;
use crate::links::push_if;
use crate::sink::{BaseFault, ClauseSink};
use interlocking::starts_in;
use rail_base::plan::Command;
use rail_base::route::{RouteNo, route_at};
use rail_base::station::TrainNo;
use sat_clause::Lit;
use std::alloc::{AllocError, Global};

impl Encoder<'_> {
    /// Emits that the trains of each pair come in turn.
    pub fn emit_turns(
        &self,
        alloc: Global,
        sink: &mut ClauseSink,
        pairs: &[(TrainNo, TrainNo)],
    ) -> Result<(), BaseFault>
        requires { AreNamed (station self.now) pairs.now }
        ensures ok { OnOk result (Emits self.now (all_in_turn self.now pairs.now) sink.old sink.new) }
        ensures err { IfErr result (Stops self.now (all_in_turn self.now pairs.now) sink.old) }
    {
        for pair in pairs {
            self.emit_turns_of(alloc, sink, *pair)?;
        }
        Ok(())
    }

    /// The routes of a train's commands with which it may begin.
    fn beginnings(&self, alloc: Global, train: TrainNo) -> Result<Vec<RouteNo>, AllocError>
        requires { IsTrain (station self.now) train }
        ensures value { IfOk result (λ rs. rs.items ≡ among self.now live_beginnings train) }
        ensures known { IfOk result (λ rs. HasCommands self.now train rs.items) }
    {
        let mut routes = Vec::new(alloc);
        for route in self.routes_of(train) {
            let belongs = self.begins(train, *route);
            push_if(&mut routes, *route, belongs)?;
        }
        Ok(routes)
    }

    /// Emits that two trains come in turn.
    fn emit_turns_of(
        &self,
        alloc: Global,
        sink: &mut ClauseSink,
        pair: (TrainNo, TrainNo),
    ) -> Result<(), BaseFault>
        requires earlier { IsTrain (station self.now) pair.0 }
        requires later { IsTrain (station self.now) pair.1 }
        ensures ok { OnOk result (Emits self.now (among self.now live_in_turn pair) sink.old sink.new) }
        ensures err { IfErr result (Stops self.now (among self.now live_in_turn pair) sink.old) }
    {
        let first = self.beginnings(alloc, pair.0)?;
        let then = self.beginnings(alloc, pair.1)?;
        for route in &then {
            let command = Command {
                train: pair.1,
                route: *route,
            };
            self.emit_begun(alloc, sink, pair.0, &first, command)?;
        }
        Ok(())
    }

    /// Whether a train may begin with a route.
    fn begins(&self, train: TrainNo, route: RouteNo) -> bool
        requires train { IsTrain (station self.now) train }
        requires route { IsRoute (table self.now) route }
        ensures { result ≡ over self.now begins train route }
    {
        let start = route_at(&self.interlocking.routes, route).start;
        match self
            .interlocking
            .design
            .train(train)
            .visits
            .as_slice()
            .first()
        {
            Some(set) => starts_in(set.as_slice(), start),
            None => false,
        }
    }

    /// The clause that, where a command is given by a step, one of these routes is given to an earlier train by it.
    fn begun_clause(
        &self,
        alloc: Global,
        earlier: TrainNo,
        routes: &[RouteNo],
        command: Command,
        step: u32,
    ) -> Result<Vec<Lit>, AllocError>
        requires routes { HasCommands self.now earlier routes.now }
        requires command { IsCommand self.now command }
        requires step { step ≤ self.now.steps.count }
        ensures { IfOk result
            (λ clause. clause.items ≡ written self.now (begun_clause earlier routes.now command step)) }
    {
        let mut clause = Vec::new(alloc);
        clause.push(self.not_given_lit(command, step))?;
        self.push_all_given(&mut clause, earlier, routes, step)?;
        Ok(clause)
    }

    /// Lists this for each step.
    fn emit_begun(
        &self,
        alloc: Global,
        sink: &mut ClauseSink,
        earlier: TrainNo,
        routes: &[RouteNo],
        command: Command,
    ) -> Result<(), BaseFault>
        requires routes { HasCommands self.now earlier routes.now }
        requires command { IsCommand self.now command }
        ensures ok { OnOk result (Emits self.now (begun_throughout self.now earlier routes.now command)
            sink.old sink.new) }
        ensures err { IfErr result (Stops self.now (begun_throughout self.now earlier routes.now command) sink.old) }
    {
        for step in 1..self.steps.count + 1 {
            let clause = self.begun_clause(alloc, earlier, routes, command, step)?;
            sink.emit(&clause)?;
        }
        Ok(())
    }
}
