//! What is given stays given, and by a step all may be given.

ghost use Rattle.std.specs.Prelude.{◌≤◌, OnOk, IfErr};
ghost use Rattle.clause_spec.specs.Clauses.{stays_given};
ghost use Rattle.live_clause_spec.specs.Listed.{live_all_given};
ghost use Rattle.plan_encoding.specs.Families.{all_by_steps, all_stay};
ghost use Rattle.plan_encoding.specs.Encoders.{IsCommand, Emits, Stops, among, over};

use crate::encoder::Encoder;
use crate::selectors::Selectors;
use crate::sink::{BaseFault, ClauseSink};
use crate::tables::Tables;
use rail_base::plan::Command;
use sat_clause::Lit;

impl Tables<'_> {
    /// Emits that all commands stay given.
    pub fn emit_stays(&self, sink: &mut ClauseSink) -> Result<(), BaseFault>
        ensures ok { OnOk result (Emits self.now.encoder (all_stay self.now.encoder) sink.old sink.new) }
        ensures err { IfErr result (Stops self.now.encoder (all_stay self.now.encoder) sink.old) }
    {
        for command in self.encoder.commands() {
            self.encoder.emit_stays_of(sink, *command)?;
        }
        Ok(())
    }
}

impl Selectors<'_> {
    /// Lists this for each step but the last.
    pub fn emit_by_steps(&self, sink: &mut ClauseSink) -> Result<(), BaseFault>
        ensures ok { OnOk result (Emits self.now.tables.now.encoder
            (all_by_steps self.now.tables.now.encoder) sink.old sink.new) }
        ensures err { IfErr result (Stops self.now.tables.now.encoder
            (all_by_steps self.now.tables.now.encoder) sink.old) }
    {
        for step in 1..self.tables.encoder.steps.count {
            self.emit_by_step(sink, step)?;
        }
        Ok(())
    }

    /// Emits that by a step all commands are given that are given at all.
    fn emit_by_step(&self, sink: &mut ClauseSink, step: u32) -> Result<(), BaseFault>
        requires at_least_one { 1 ≤ step }
        requires step { step ≤ self.now.tables.now.encoder.steps.count }
        ensures ok { OnOk result (Emits self.now.tables.now.encoder
            (among self.now.tables.now.encoder live_all_given step) sink.old sink.new) }
        ensures err { IfErr result (Stops self.now.tables.now.encoder
            (among self.now.tables.now.encoder live_all_given step) sink.old) }
    {
        let encoder = self.tables.encoder;
        let by = Lit {
            var: self.last + step,
            negated: true,
        };
        for command in encoder.commands() {
            sink.emit(&[
                by,
                encoder.not_given_lit(*command, encoder.steps.count),
                encoder.given_lit(*command, step),
            ])?;
        }
        Ok(())
    }
}

impl Encoder<'_> {
    /// Emits that a command stays given.
    fn emit_stays_of(&self, sink: &mut ClauseSink, command: Command) -> Result<(), BaseFault>
        requires command { IsCommand self.now command }
        ensures ok { OnOk result (Emits self.now (over self.now stays_given command) sink.old sink.new) }
        ensures err { IfErr result (Stops self.now (over self.now stays_given command) sink.old) }
    {
        for step in 1..self.steps.count {
            sink.emit(&[
                self.not_given_lit(command, step),
                self.given_lit(command, step + 1),
            ])?;
        }
        Ok(())
    }
}
