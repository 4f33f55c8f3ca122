//! Contending commands are not given in one step.

ghost use Rattle.std.specs.Prelude.{◌≡◌, ◌≤◌, All, IfOk, OnOk, IfErr};
ghost use Rattle.clause_spec.specs.Clauses.{not_at_once};
ghost use Rattle.plan_encoding.specs.Families.{all_apart, apart, each_with};
ghost use Rattle.plan_encoding.specs.Encoders.{IsCommand, Emits, Stops, over, written};
ghost use Rattle.plan_encoding.specs.Waiting.{apart_once};

use crate::encoder::Encoder;
use crate::sink::{BaseFault, ClauseSink};
use crate::tables::Tables;
use rail_base::plan::Command;
use sat_clause::Lit;
use std::alloc::{AllocError, Global};

impl Tables<'_> {
    /// Emits that no contending commands are given in one step.
    pub fn emit_apart(&self, alloc: Global, sink: &mut ClauseSink) -> Result<(), BaseFault>
        ensures ok { OnOk result (Emits self.now.encoder (all_apart self.now.encoder) sink.old sink.new) }
        ensures err { IfErr result (Stops self.now.encoder (all_apart self.now.encoder) sink.old) }
    {
        for command in self.encoder.commands() {
            let rivals = self.rivals(alloc, *command)?;
            self.encoder
                .emit_apart_from(alloc, sink, *command, &rivals)?;
        }
        Ok(())
    }
}

impl Encoder<'_> {
    /// The clause that of two commands not both are new in a step.
    fn apart(
        &self,
        alloc: Global,
        first: Command,
        second: Command,
        step: u32,
    ) -> Result<Vec<Lit>, AllocError>
        requires first { IsCommand self.now first }
        requires second { IsCommand self.now second }
        requires at_least_one { 1 ≤ step }
        requires step { step ≤ self.now.steps.count }
        ensures { IfOk result (λ clause. clause.items ≡ written self.now (apart first second step)) }
    {
        let mut clause = Vec::new(alloc);
        clause.push(self.not_given_lit(first, step))?;
        self.push_if_given(&mut clause, first, step - 1)?;
        clause.push(self.not_given_lit(second, step))?;
        self.push_if_given(&mut clause, second, step - 1)?;
        Ok(clause)
    }

    /// Emits that two commands are not given in one step.
    fn emit_apart_of(
        &self,
        alloc: Global,
        sink: &mut ClauseSink,
        first: Command,
        second: Command,
    ) -> Result<(), BaseFault>
        requires first { IsCommand self.now first }
        requires second { IsCommand self.now second }
        ensures ok { OnOk result (Emits self.now (over self.now not_at_once (first, second)) sink.old sink.new) }
        ensures err { IfErr result (Stops self.now (over self.now not_at_once (first, second)) sink.old) }
    {
        for step in 1..self.steps.count + 1 {
            let clause = self.apart(alloc, first, second, step)?;
            sink.emit(&clause)?;
        }
        Ok(())
    }

    /// Lists this of two commands, if the first one's train is the earlier of the two.
    fn emit_apart_once(
        &self,
        alloc: Global,
        sink: &mut ClauseSink,
        first: Command,
        second: Command,
    ) -> Result<(), BaseFault>
        requires first { IsCommand self.now first }
        requires second { IsCommand self.now second }
        ensures ok { OnOk result (Emits self.now (over self.now apart_once (first, second)) sink.old sink.new) }
        ensures err { IfErr result (Stops self.now (over self.now apart_once (first, second)) sink.old) }
    {
        if first.train.0 >= second.train.0 {
            return Ok(());
        }
        self.emit_apart_of(alloc, sink, first, second)
    }

    /// Lists this of a command and its rivals.
    fn emit_apart_from(
        &self,
        alloc: Global,
        sink: &mut ClauseSink,
        first: Command,
        rivals: &[Command],
    ) -> Result<(), BaseFault>
        requires first { IsCommand self.now first }
        requires rivals { All (IsCommand self.now) rivals.now }
        ensures ok { OnOk result (Emits self.now (each_with (over self.now apart_once) first rivals.now)
            sink.old sink.new) }
        ensures err { IfErr result (Stops self.now (each_with (over self.now apart_once) first rivals.now) sink.old) }
    {
        for second in rivals {
            self.emit_apart_once(alloc, sink, first, *second)?;
        }
        Ok(())
    }
}
