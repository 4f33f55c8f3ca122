//! A command waits until enough track is given to a contending train to clear the shared sections.

ghost use Rattle.std.specs.Prelude.{◌≡◌, ◌≤◌, ◌+◌, ◌++◌, All, IfOk, OnOk, IfErr};
ghost use Rattle.std.specs.List.{list_any};
ghost use Rattle.rail_base.specs.Routes.{IsRoute, route_at};
ghost use Rattle.rail_base.specs.Stations.{IsTrain};
ghost use Rattle.rail_spec.specs.Plans.{is_start};
ghost use Rattle.clause_spec.specs.Clauses.{chain_length};
ghost use Rattle.live_clause_spec.specs.Listed.{live_onward, live_waits};
ghost use Rattle.command_set.specs.Commands.{is_among};
ghost use Rattle.plan_encoding.specs.Families.{all_wait, each_with, one_given, one_not_given};
ghost use Rattle.plan_encoding.specs.Encoders.{HasCommands, IsCommand, Emits, Stops, among, commands};
ghost use Rattle.plan_encoding.specs.Encoders.{station, table, written};
ghost use Rattle.plan_encoding.specs.Waits.{frame_of, waits_at, waits_for_it, waits_in, waits_on};

use crate::encoder::Encoder;
use crate::releases::{clearing, releases};
use crate::sink::{BaseFault, ClauseSink};
use crate::tables::Tables;
use crate::wait::{Releasing, Wait};
use live_contending::row_of;
use rail_base::plan::Command;
use rail_base::route::{RouteNo, Start, route_at};
use rail_base::station::TrainNo;
use sat_clause::Lit;
use std::alloc::{AllocError, Global};

impl Encoder<'_> {
    /// Puts at the end of a clause that a train is given routes by a step.
    pub fn push_all_given(
        &self,
        clause: &mut Vec<Lit>,
        train: TrainNo,
        routes: &[RouteNo],
        step: u32,
    ) -> Result<(), AllocError>
        requires routes { HasCommands self.now train routes.now }
        requires step { step ≤ self.now.steps.count }
        ensures { OnOk result (clause.new.items ≡ clause.old.items
            ++ written self.now (one_given train routes.now step)) }
    {
        for route in routes {
            let command = Command {
                train,
                route: *route,
            };
            clause.push(self.given_lit(command, step))?;
        }
        Ok(())
    }

    /// Whether one of the routes starts there.
    fn start_there(&self, chain: &[RouteNo], start: Start) -> bool
        requires { All (IsRoute (table self.now)) chain.now }
        ensures { result ≡ list_any (λ v. is_start (route_at (table self.now) v).start start) chain.now }
    {
        for route in chain {
            if route_at(&self.interlocking.routes, *route).start == start {
                return true;
            }
        }
        false
    }

    /// Puts at the end of a clause that a train is not given routes by a step.
    fn push_none_given(
        &self,
        clause: &mut Vec<Lit>,
        train: TrainNo,
        routes: &[RouteNo],
        step: u32,
    ) -> Result<(), AllocError>
        requires routes { HasCommands self.now train routes.now }
        requires step { step ≤ self.now.steps.count }
        ensures { OnOk result (clause.new.items ≡ clause.old.items
            ++ written self.now (one_not_given train routes.now step)) }
    {
        for route in routes {
            let command = Command {
                train,
                route: *route,
            };
            clause.push(self.not_given_lit(command, step))?;
        }
        Ok(())
    }
}

impl Tables<'_> {
    /// Emits that all contending commands wait for each other. With one step there is nothing to list.
    pub fn emit_waits(&self, alloc: Global, sink: &mut ClauseSink) -> Result<(), BaseFault>
        ensures ok { OnOk result (Emits self.now.encoder (all_wait self.now.encoder) sink.old sink.new) }
        ensures err { IfErr result (Stops self.now.encoder (all_wait self.now.encoder) sink.old) }
    {
        if self.encoder.steps.count == 1 {
            return Ok(());
        }
        for command in self.encoder.commands() {
            let rivals = self.rivals(alloc, *command)?;
            self.emit_waits_for(alloc, sink, *command, &rivals)?;
        }
        Ok(())
    }

    /// The routes of a train's commands with which a chain goes on: all that start where its last one ends, unless one
    /// of the chain starts there.
    fn onward(
        &self,
        alloc: Global,
        train: TrainNo,
        chain: &[RouteNo],
        last: RouteNo,
    ) -> Result<Vec<RouteNo>, AllocError>
        requires train { IsTrain (station self.now.encoder) train }
        requires chain { All (IsRoute (table self.now.encoder)) chain.now }
        requires last { IsRoute (table self.now.encoder) last }
        ensures value { IfOk result (λ rs. rs.items
            ≡ live_onward (is_among (commands self.now.encoder)) (table self.now.encoder) train chain.now last) }
        ensures known { IfOk result (λ rs. HasCommands self.now.encoder train rs.items) }
    {
        let row = row_of(&self.going_on, last);
        let Some(first) = row.first() else {
            return Ok(Vec::new(alloc));
        };
        let start = route_at(&self.encoder.interlocking.routes, *first).start;
        if self.encoder.start_there(chain, start) {
            return Ok(Vec::new(alloc));
        }
        self.encoder.routes_among(alloc, train, row)
    }

    /// Emits that rivals wait for a command; for one whose route exits no chain is emitted.
    fn emit_waits_for(
        &self,
        alloc: Global,
        sink: &mut ClauseSink,
        first: Command,
        rivals: &[Command],
    ) -> Result<(), BaseFault>
        requires first { IsCommand self.now.encoder first }
        requires rivals { All (IsCommand self.now.encoder) rivals.now }
        ensures ok { OnOk result
            (Emits self.now.encoder (each_with (among self.now.encoder live_waits) first rivals.now)
            sink.old sink.new) }
        ensures err { IfErr result
            (Stops self.now.encoder (each_with (among self.now.encoder live_waits) first rivals.now) sink.old) }
    {
        if rivals.is_empty() {
            return Ok(());
        }
        let route = route_at(&self.encoder.interlocking.routes, first.route);
        if route.exits() {
            return Ok(());
        }
        let parts = releases(alloc, route)?;
        let releasing = Releasing {
            tables: self,
            first,
            parts: &parts,
        };
        for second in rivals {
            releasing.emit_waits_of(alloc, sink, *second)?;
        }
        Ok(())
    }
}

impl Wait<'_> {
    /// The clause of a chain at a step.
    fn wait_clause(
        &self,
        alloc: Global,
        chain: &[RouteNo],
        further: &[RouteNo],
        step: u32,
    ) -> Result<Vec<Lit>, AllocError>
        requires chain { HasCommands (frame_of self.now) self.now.first.train chain.now }
        requires further { HasCommands (frame_of self.now) self.now.first.train further.now }
        requires step { step + 1 ≤ (frame_of self.now).steps.count }
        ensures { IfOk result (λ clause. clause.items
            ≡ written (frame_of self.now) (waits_in self.now chain.now further.now step)) }
    {
        let encoder = self.tables.encoder;
        let mut clause = Vec::new(alloc);
        encoder.push_none_given(&mut clause, self.first.train, chain, step)?;
        clause.push(encoder.not_given_lit(self.second, step + 1))?;
        clause.push(encoder.given_lit(self.second, step))?;
        encoder.push_all_given(&mut clause, self.first.train, further, step)?;
        Ok(clause)
    }

    /// Emits that a command waits for a chain, at each step.
    fn emit_wait(
        &self,
        alloc: Global,
        sink: &mut ClauseSink,
        chain: &[RouteNo],
        further: &[RouteNo],
    ) -> Result<(), BaseFault>
        requires chain { HasCommands (frame_of self.now) self.now.first.train chain.now }
        requires further { HasCommands (frame_of self.now) self.now.first.train further.now }
        ensures ok { OnOk result (Emits (frame_of self.now) (waits_at self.now chain.now further.now)
            sink.old sink.new) }
        ensures err { IfErr result (Stops (frame_of self.now) (waits_at self.now chain.now further.now) sink.old) }
    {
        for step in 1..self.tables.encoder.steps.count {
            let clause = self.wait_clause(alloc, chain, further, step)?;
            sink.emit(&clause)?;
        }
        Ok(())
    }

    /// Emits that a command waits, for each chain that begins with the given routes and then this one.
    fn emit_chains(
        &self,
        alloc: Global,
        sink: &mut ClauseSink,
        chain: &mut Vec<RouteNo>,
        covered: u128,
        route: RouteNo,
        more: u32,
    ) -> Result<(), BaseFault>
        requires chain { HasCommands (frame_of self.now) self.now.first.train chain.old.items }
        requires covered { covered ≡ chain_length (table (frame_of self.now)) chain.old.items }
        requires within_bound { covered ≤ self.now.bound }
        requires route { IsCommand (frame_of self.now) (record { train = self.now.first.train; route = route }) }
        ensures same { OnOk result (chain.new.items ≡ chain.old.items) }
        ensures ok { OnOk result (Emits (frame_of self.now)
            (waits_on self.now more chain.old.items route) sink.old sink.new) }
        ensures err { IfErr result (Stops (frame_of self.now)
            (waits_on self.now more chain.old.items route) sink.old) }
    {
        if more == 0 {
            return Ok(());
        }
        let encoder = self.tables.encoder;
        let last = route_at(&encoder.interlocking.routes, route);
        if last.exits() {
            return Ok(());
        }
        let total = covered + u128::from(last.length_mm());
        if total >= self.bound {
            return Ok(());
        }
        chain.push(route)?;
        let further = self.tables.onward(alloc, self.first.train, chain, route)?;
        self.emit_wait(alloc, sink, chain, &further)?;
        for next in &further {
            self.emit_chains(alloc, sink, chain, total, *next, more - 1)?;
        }
        chain.pop();
        Ok(())
    }
}

impl Releasing<'_> {
    /// Emits that a command waits for this one.
    fn emit_waits_of(
        &self,
        alloc: Global,
        sink: &mut ClauseSink,
        second: Command,
    ) -> Result<(), BaseFault>
        requires second { IsCommand self.now.tables.now.encoder second }
        ensures ok { OnOk result (Emits self.now.tables.now.encoder (waits_for_it self.now second) sink.old sink.new) }
        ensures err { IfErr result (Stops self.now.tables.now.encoder (waits_for_it self.now second) sink.old) }
    {
        let tables = self.tables;
        let interlocking = tables.encoder.interlocking;
        let length = interlocking.design.vehicle_of(self.first.train).length_mm;
        let wait = Wait {
            tables,
            first: self.first,
            second,
            bound: clearing(self.parts, interlocking.sections(second.route), length),
        };
        let more = interlocking.routes.len() as u32;
        let mut chain = Vec::new(alloc);
        wait.emit_chains(alloc, sink, &mut chain, 0, self.first.route, more)
    }
}
