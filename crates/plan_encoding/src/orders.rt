//! Which of two contending commands is given before the other.

ghost use Rattle.std.specs.Prelude.{◌≡◌, ◌≤◌, IfOk, OnOk, IfErr, false, true};
ghost use Rattle.plan_encoding.specs.Families.{all_in_order, last_pair};
ghost use Rattle.plan_encoding.specs.Encoders.{Emits, Stops, written};
ghost use Rattle.plan_encoding.specs.Orders.{all_earlier, all_first, earlier, orders_of, said_by};

use crate::pair::{Contenders, Pair};
use crate::sink::{BaseFault, ClauseSink};
use crate::tables::Tables;
use sat_clause::Lit;
use std::alloc::{AllocError, Global};

impl Tables<'_> {
    /// Emits what the variables of all pairs say, and gives how many variables there are up to these.
    pub fn emit_orders(&self, alloc: Global, sink: &mut ClauseSink) -> Result<u32, BaseFault>
        ensures last_pair { IfOk result (λ last. last ≡ last_pair self.now.encoder) }
        ensures bound { IfOk result (λ last. last ≤ 73536000) }
        ensures ok { OnOk result (Emits self.now.encoder (all_in_order self.now.encoder) sink.old sink.new) }
        ensures err { IfErr result (Stops self.now.encoder (all_in_order self.now.encoder) sink.old) }
    {
        let commands = self.encoder.commands();
        let mut last = commands.len() as u32 * self.encoder.steps.count;
        for command in commands {
            let rivals = self.rivals(alloc, *command)?;
            let contenders = Contenders {
                encoder: self.encoder,
                first: *command,
                rivals: &rivals,
                last,
            };
            contenders.emit_orders_of(alloc, sink)?;
            last += rivals.len() as u32;
        }
        Ok(last)
    }
}

impl Pair<'_> {
    /// The literal that the first is given before the second.
    fn holds(&self) -> Lit
        ensures { result ≡ record { var = self.now.variable; negated = false } }
    {
        Lit {
            var: self.variable,
            negated: false,
        }
    }

    /// The literal that it is not.
    fn fails(&self) -> Lit
        ensures { result ≡ record { var = self.now.variable; negated = true } }
    {
        Lit {
            var: self.variable,
            negated: true,
        }
    }

    /// The clause that, where the second of a pair is given by a step and the first is before it, that one is given by
    /// the step before.
    fn order_clause(&self, alloc: Global, step: u32) -> Result<Vec<Lit>, AllocError>
        requires at_least_one { 1 ≤ step }
        requires step { step ≤ self.now.encoder.steps.count }
        ensures { IfOk result (λ clause. clause.items ≡ written self.now.encoder (earlier self.now step)) }
    {
        let mut clause = Vec::new(alloc);
        clause.push(self.fails())?;
        clause.push(self.encoder.not_given_lit(self.second, step))?;
        self.encoder
            .push_if_given(&mut clause, self.first, step - 1)?;
        Ok(clause)
    }

    /// Emits that where the first is before the second, it is given in an earlier step.
    fn emit_earlier(&self, alloc: Global, sink: &mut ClauseSink) -> Result<(), BaseFault>
        ensures ok { OnOk result (Emits self.now.encoder (all_earlier self.now) sink.old sink.new) }
        ensures err { IfErr result (Stops self.now.encoder (all_earlier self.now) sink.old) }
    {
        for step in 1..self.encoder.steps.count + 1 {
            let clause = self.order_clause(alloc, step)?;
            sink.emit(&clause)?;
        }
        Ok(())
    }

    /// Emits that where the first is given in an earlier step, it is before the second.
    fn emit_before(&self, sink: &mut ClauseSink) -> Result<(), BaseFault>
        ensures ok { OnOk result (Emits self.now.encoder (all_first self.now) sink.old sink.new) }
        ensures err { IfErr result (Stops self.now.encoder (all_first self.now) sink.old) }
    {
        for step in 1..self.encoder.steps.count {
            sink.emit(&[
                self.holds(),
                self.encoder.not_given_lit(self.first, step),
                self.encoder.given_lit(self.second, step),
                self.encoder
                    .not_given_lit(self.second, self.encoder.steps.count),
            ])?;
        }
        Ok(())
    }

    /// Emits what the variable of the pair says.
    fn emit_order(&self, alloc: Global, sink: &mut ClauseSink) -> Result<(), BaseFault>
        ensures ok { OnOk result (Emits self.now.encoder (said_by self.now) sink.old sink.new) }
        ensures err { IfErr result (Stops self.now.encoder (said_by self.now) sink.old) }
    {
        let last = self.encoder.steps.count;
        sink.emit(&[self.fails(), self.encoder.given_lit(self.second, last)])?;
        self.emit_earlier(alloc, sink)?;
        self.emit_before(sink)
    }
}

impl Contenders<'_> {
    /// Emits what the variables of the pairs say.
    fn emit_orders_of(&self, alloc: Global, sink: &mut ClauseSink) -> Result<(), BaseFault>
        ensures ok { OnOk result (Emits self.now.encoder (orders_of self.now) sink.old sink.new) }
        ensures err { IfErr result (Stops self.now.encoder (orders_of self.now) sink.old) }
    {
        let rivals = self.rivals;
        let mut variable = self.last;
        for second in rivals {
            variable += 1;
            let pair = Pair {
                encoder: self.encoder,
                first: self.first,
                second: *second,
                variable,
            };
            pair.emit_order(alloc, sink)?;
        }
        Ok(())
    }
}
