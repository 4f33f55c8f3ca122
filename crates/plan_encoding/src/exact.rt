//! A command is given in a step where it is given by it, and not by the step before.

ghost use Rattle.std.specs.Prelude.{◌≡◌, ◌≤◌, ◌-◌, IfOk, OnOk, IfErr};
ghost use Rattle.normal_clause_spec.specs.Clauses.{exactly, exactly_in, not_before};
ghost use Rattle.plan_encoding.specs.Encoders.{IsCommand, over};
ghost use Rattle.plan_encoding.specs.Normal.{EmitsNormal, StopsNormal, all_exact, new_clause, normal_written};

use crate::normal::{NormalEncoder, NormalTables};
use crate::sink::{BaseFault, ClauseSink};
use rail_base::plan::Command;
use sat_clause::Lit;
use std::alloc::{AllocError, Global};

impl NormalTables<'_> {
    /// Emits this for all commands.
    pub fn emit_exact(&self, alloc: Global, sink: &mut ClauseSink) -> Result<(), BaseFault>
        ensures ok { OnOk result (EmitsNormal self.now.normal.encoder (all_exact self.now.normal.encoder)
            sink.old sink.new) }
        ensures err { IfErr result (StopsNormal self.now.normal.encoder (all_exact self.now.normal.encoder) sink.old) }
    {
        for command in self.normal.encoder.commands() {
            self.normal.emit_exact_of(alloc, sink, *command)?;
        }
        Ok(())
    }
}

impl NormalEncoder<'_> {
    /// Emits this for each step of a command.
    fn emit_exact_of(
        &self,
        alloc: Global,
        sink: &mut ClauseSink,
        command: Command,
    ) -> Result<(), BaseFault>
        requires command { IsCommand self.now.encoder command }
        ensures ok { OnOk result (EmitsNormal self.now.encoder (over self.now.encoder exactly command)
            sink.old sink.new) }
        ensures err { IfErr result (StopsNormal self.now.encoder (over self.now.encoder exactly command) sink.old) }
    {
        for step in 1..self.encoder.steps.count + 1 {
            self.emit_exact_in(alloc, sink, command, step)?;
        }
        Ok(())
    }

    /// Emits what the variable of a command and a step says.
    fn emit_exact_in(
        &self,
        alloc: Global,
        sink: &mut ClauseSink,
        command: Command,
        step: u32,
    ) -> Result<(), BaseFault>
        requires command { IsCommand self.now.encoder command }
        requires at_least_one { 1 ≤ step }
        requires step { step ≤ self.now.encoder.steps.count }
        ensures ok { OnOk result (EmitsNormal self.now.encoder (over self.now.encoder exactly_in command step)
            sink.old sink.new) }
        ensures err { IfErr result
            (StopsNormal self.now.encoder (over self.now.encoder exactly_in command step) sink.old) }
    {
        sink.emit(&[
            self.not_in_lit(command, step),
            self.encoder.given_lit(command, step),
        ])?;
        self.emit_not_before(sink, command, step)?;
        let clause = self.new_clause(alloc, command, step)?;
        sink.emit(&clause)
    }

    /// Emits that a command which is given in a step is not given by the step before.
    fn emit_not_before(
        &self,
        sink: &mut ClauseSink,
        command: Command,
        step: u32,
    ) -> Result<(), BaseFault>
        requires command { IsCommand self.now.encoder command }
        requires at_least_one { 1 ≤ step }
        requires step { step ≤ self.now.encoder.steps.count }
        ensures ok { OnOk result
            (EmitsNormal self.now.encoder (over self.now.encoder not_before command (step - 1)) sink.old sink.new) }
        ensures err { IfErr result
            (StopsNormal self.now.encoder (over self.now.encoder not_before command (step - 1)) sink.old) }
    {
        if step == 1 {
            return Ok(());
        }
        sink.emit(&[
            self.not_in_lit(command, step),
            self.encoder.not_given_lit(command, step - 1),
        ])
    }

    /// The clause that a command which is given by a step, and not by the step before, is given in it.
    fn new_clause(&self, alloc: Global, command: Command, step: u32) -> Result<Vec<Lit>, AllocError>
        requires command { IsCommand self.now.encoder command }
        requires at_least_one { 1 ≤ step }
        requires step { step ≤ self.now.encoder.steps.count }
        ensures { IfOk result (λ clause. clause.items ≡ normal_written self.now.encoder (new_clause command step)) }
    {
        let mut clause = Vec::new(alloc);
        clause.push(self.encoder.not_given_lit(command, step))?;
        self.encoder.push_if_given(&mut clause, command, step - 1)?;
        clause.push(self.in_lit(command, step))?;
        Ok(clause)
    }
}
