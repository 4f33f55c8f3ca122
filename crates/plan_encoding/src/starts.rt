//! A route starts at a boundary of the first visit, or where an earlier one of the train ends.

ghost use Rattle.std.specs.Prelude.{◌≡◌, ◌≤◌, IfOk, OnOk, IfErr};
ghost use Rattle.rail_base.specs.Stations.{IsTrain, first_visit, train_of};
ghost use Rattle.rail_spec.specs.Plans.{has_node};
ghost use Rattle.live_clause_spec.specs.Listed.{live_starts_rightly};
ghost use Rattle.plan_encoding.specs.Families.{all_start_rightly, led_clause, led_always, never_given};
ghost use Rattle.plan_encoding.specs.Encoders.{HasCommands, IsCommand, Emits, Stops, among, station, written};

use crate::encoder::Encoder;
use crate::sink::{BaseFault, ClauseSink};
use crate::tables::Tables;
use interlocking::has_node;
use live_contending::row_of;
use rail_base::plan::Command;
use rail_base::route::{RouteNo, Start, route_at};
use rail_base::station::{NodeNo, TrainNo};
use sat_clause::Lit;
use std::alloc::{AllocError, Global};

impl Tables<'_> {
    /// Emits that the routes of all commands start rightly.
    pub fn emit_starts(&self, alloc: Global, sink: &mut ClauseSink) -> Result<(), BaseFault>
        ensures ok { OnOk result (Emits self.now.encoder (all_start_rightly self.now.encoder) sink.old sink.new) }
        ensures err { IfErr result (Stops self.now.encoder (all_start_rightly self.now.encoder) sink.old) }
    {
        for command in self.encoder.commands() {
            self.emit_starts_of(alloc, sink, *command)?;
        }
        Ok(())
    }

    /// Emits that a command's route starts rightly.
    fn emit_starts_of(
        &self,
        alloc: Global,
        sink: &mut ClauseSink,
        command: Command,
    ) -> Result<(), BaseFault>
        requires command { IsCommand self.now.encoder command }
        ensures ok { OnOk result (Emits self.now.encoder (among self.now.encoder live_starts_rightly command)
            sink.old sink.new) }
        ensures err { IfErr result
            (Stops self.now.encoder (among self.now.encoder live_starts_rightly command) sink.old) }
    {
        match route_at(&self.encoder.interlocking.routes, command.route).start {
            Start::Boundary(node) => {
                if self.encoder.may_start(command.train, node) {
                    return Ok(());
                }
                self.encoder.emit_never(sink, command)
            }
            Start::Signal(_) => {
                let row = row_of(&self.leading, command.route);
                let leading = self.encoder.routes_among(alloc, command.train, row)?;
                self.encoder.emit_led(alloc, sink, command, &leading)
            }
        }
    }
}

impl Encoder<'_> {
    /// Emits that a command is given by no step.
    fn emit_never(&self, sink: &mut ClauseSink, command: Command) -> Result<(), BaseFault>
        requires command { IsCommand self.now command }
        ensures ok { OnOk result (Emits self.now (never_given self.now command) sink.old sink.new) }
        ensures err { IfErr result (Stops self.now (never_given self.now command) sink.old) }
    {
        for step in 1..self.steps.count + 1 {
            sink.emit(&[self.not_given_lit(command, step)])?;
        }
        Ok(())
    }

    /// The clause that, where a command is given by a step, one of these routes is given by the step before.
    fn led_clause(
        &self,
        alloc: Global,
        command: Command,
        leading: &[RouteNo],
        step: u32,
    ) -> Result<Vec<Lit>, AllocError>
        requires command { IsCommand self.now command }
        requires leading { HasCommands self.now command.train leading.now }
        requires at_least_one { 1 ≤ step }
        requires step { step ≤ self.now.steps.count }
        ensures { IfOk result (λ clause. clause.items ≡ written self.now (led_clause command leading.now step)) }
    {
        let mut clause = Vec::new(alloc);
        clause.push(self.not_given_lit(command, step))?;
        for route in leading {
            let before = Command {
                train: command.train,
                route: *route,
            };
            self.push_if_given(&mut clause, before, step - 1)?;
        }
        Ok(clause)
    }

    /// Lists that, by whichever step a command is given, one of these routes is given by the step before.
    fn emit_led(
        &self,
        alloc: Global,
        sink: &mut ClauseSink,
        command: Command,
        leading: &[RouteNo],
    ) -> Result<(), BaseFault>
        requires command { IsCommand self.now command }
        requires leading { HasCommands self.now command.train leading.now }
        ensures ok { OnOk result (Emits self.now (led_always self.now command leading.now) sink.old sink.new) }
        ensures err { IfErr result (Stops self.now (led_always self.now command leading.now) sink.old) }
    {
        for step in 1..self.steps.count + 1 {
            let clause = self.led_clause(alloc, command, leading, step)?;
            sink.emit(&clause)?;
        }
        Ok(())
    }

    /// Whether a node is one of a train's first visit.
    fn may_start(&self, train: TrainNo, node: NodeNo) -> bool
        requires { IsTrain (station self.now) train }
        ensures { result ≡ has_node (first_visit (train_of (station self.now) train)) node }
    {
        match self
            .interlocking
            .design
            .train(train)
            .visits
            .as_slice()
            .first()
        {
            Some(set) => has_node(set.as_slice(), node),
            None => false,
        }
    }
}
