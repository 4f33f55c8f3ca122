//! What is given in a step can't be given in the step before.

ghost use Rattle.std.specs.Prelude.{◌≡◌, ◌≤◌, ◌++◌, All, IfOk, OnOk, IfErr};
ghost use Rattle.normal_clause_spec.specs.Clauses.{keepers};
ghost use Rattle.plan_encoding.specs.Encoders.{IsCommand, over};
ghost use Rattle.plan_encoding.specs.Normal.{EmitsNormal, StopsNormal, all_kept, before_it, commands_on};
ghost use Rattle.plan_encoding.specs.Normal.{kept_always, kept_by, normal_written};

use crate::normal::{NormalEncoder, NormalTables};
use crate::sink::{BaseFault, ClauseSink};
use live_contending::row_of;
use rail_base::plan::Command;
use rail_base::route::RouteNo;
use rail_base::station::TrainNo;
use sat_clause::Lit;
use std::alloc::{AllocError, Global};

impl NormalTables<'_> {
    /// Emits that no command could be given a step earlier.
    pub fn emit_kept(&self, alloc: Global, sink: &mut ClauseSink) -> Result<(), BaseFault>
        ensures ok { OnOk result (EmitsNormal self.now.normal.encoder (all_kept self.now.normal.encoder)
            sink.old sink.new) }
        ensures err { IfErr result (StopsNormal self.now.normal.encoder (all_kept self.now.normal.encoder) sink.old) }
    {
        for command in self.normal.encoder.commands() {
            let before = self.before(alloc, *command)?;
            self.normal.emit_kept_of(alloc, sink, *command, &before)?;
        }
        Ok(())
    }

    /// The commands of which one is given in the step before that of a command: those of its train that lead to its
    /// start, and those of other trains that can keep it from a section.
    fn before(&self, alloc: Global, command: Command) -> Result<Vec<Command>, AllocError>
        requires command { IsCommand self.now.normal.encoder command }
        ensures { IfOk result (λ cs. cs.items ≡ before_it self.now.normal.encoder command) }
    {
        let mut commands = Vec::new(alloc);
        add_commands(
            &mut commands,
            command.train,
            row_of(&self.leading, command.route),
        )?;
        self.add_keepers(&mut commands, command)?;
        Ok(commands)
    }

    /// Adds the commands of other trains that can keep a command from a section.
    fn add_keepers(&self, commands: &mut Vec<Command>, command: Command) -> Result<(), AllocError>
        requires command { IsCommand self.now.normal.encoder command }
        ensures { OnOk result (commands.new.items
            ≡ commands.old.items ++ over self.now.normal.encoder keepers command) }
    {
        let row = row_of(&self.keepers, command.route);
        let trains = &self.normal.encoder.interlocking.design.station.trains;
        for number in 1..trains.len() as u32 + 1 {
            if number != command.train.0 {
                add_commands(commands, TrainNo(number), row)?;
            }
        }
        Ok(())
    }
}

impl NormalEncoder<'_> {
    /// The clause that, where a command is given in a step, one of these is given in the step before.
    fn kept_clause(
        &self,
        alloc: Global,
        command: Command,
        before: &[Command],
        step: u32,
    ) -> Result<Vec<Lit>, AllocError>
        requires command { IsCommand self.now.encoder command }
        requires before { All (IsCommand self.now.encoder) before.now }
        requires at_least_one { 1 ≤ step }
        requires step { step ≤ self.now.encoder.steps.count }
        ensures { IfOk result (λ clause. clause.items
            ≡ normal_written self.now.encoder (kept_by command before.now step)) }
    {
        let mut clause = Vec::new(alloc);
        clause.push(self.not_in_lit(command, step))?;
        for other in before {
            clause.push(self.in_lit(*other, step - 1))?;
        }
        Ok(clause)
    }

    /// Emits this for each step from the second on.
    fn emit_kept_of(
        &self,
        alloc: Global,
        sink: &mut ClauseSink,
        command: Command,
        before: &[Command],
    ) -> Result<(), BaseFault>
        requires command { IsCommand self.now.encoder command }
        requires before { All (IsCommand self.now.encoder) before.now }
        ensures ok { OnOk result (EmitsNormal self.now.encoder (kept_always self.now.encoder command before.now)
            sink.old sink.new) }
        ensures err { IfErr result
            (StopsNormal self.now.encoder (kept_always self.now.encoder command before.now) sink.old) }
    {
        for step in 2..self.encoder.steps.count + 1 {
            let clause = self.kept_clause(alloc, command, before, step)?;
            sink.emit(&clause)?;
        }
        Ok(())
    }
}

/// Adds the commands of a train with these routes.
fn add_commands(
    commands: &mut Vec<Command>,
    train: TrainNo,
    routes: &[RouteNo],
) -> Result<(), AllocError>
    ensures { OnOk result (commands.new.items ≡ commands.old.items ++ commands_on train routes.now) }
{
    for route in routes {
        commands.push(Command {
            train,
            route: *route,
        })?;
    }
    Ok(())
}
