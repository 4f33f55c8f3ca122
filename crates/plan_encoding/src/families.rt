//! All clauses of a base, emitted family by family.

ghost use Rattle.std.specs.Prelude.{OnOk, IfErr};
ghost use Rattle.plan_encoding.specs.Bases.{plain_clauses};
ghost use Rattle.plan_encoding.specs.Families.{alone, together, defining};
ghost use Rattle.plan_encoding.specs.Encoders.{Emits, Stops, among};

use crate::selectors::Selectors;
use crate::sink::{BaseFault, ClauseSink};
use crate::tables::Tables;
use std::alloc::Global;

impl Tables<'_> {
    /// Emits all clauses, family by family.
    pub fn emit_all(&self, alloc: Global, sink: &mut ClauseSink) -> Result<(), BaseFault>
        ensures ok { OnOk result (Emits self.now.encoder (among self.now.encoder plain_clauses) sink.old sink.new) }
        ensures err { IfErr result (Stops self.now.encoder (among self.now.encoder plain_clauses) sink.old) }
    {
        self.emit_alone(alloc, sink)?;
        self.emit_together(alloc, sink)?;
        self.emit_defining(alloc, sink)
    }

    /// Emits that what is given stays given, that routes start rightly, and that none exclude each other.
    fn emit_alone(&self, alloc: Global, sink: &mut ClauseSink) -> Result<(), BaseFault>
        ensures ok { OnOk result (Emits self.now.encoder (alone self.now.encoder) sink.old sink.new) }
        ensures err { IfErr result (Stops self.now.encoder (alone self.now.encoder) sink.old) }
    {
        self.emit_stays(sink)?;
        self.emit_starts(alloc, sink)?;
        self.emit_excluded(sink)
    }

    /// Emits that contending commands stand in different steps, and wait for each other.
    fn emit_together(&self, alloc: Global, sink: &mut ClauseSink) -> Result<(), BaseFault>
        ensures ok { OnOk result (Emits self.now.encoder (together self.now.encoder) sink.old sink.new) }
        ensures err { IfErr result (Stops self.now.encoder (together self.now.encoder) sink.old) }
    {
        self.emit_apart(alloc, sink)?;
        self.emit_waits(alloc, sink)
    }

    /// Emits that all visits are made, and what the variables of pairs and of steps say.
    fn emit_defining(&self, alloc: Global, sink: &mut ClauseSink) -> Result<(), BaseFault>
        ensures ok { OnOk result (Emits self.now.encoder (defining self.now.encoder) sink.old sink.new) }
        ensures err { IfErr result (Stops self.now.encoder (defining self.now.encoder) sink.old) }
    {
        self.emit_visits(alloc, sink)?;
        let last = self.emit_orders(alloc, sink)?;
        let selectors = Selectors { tables: self, last };
        selectors.emit_by_steps(sink)
    }
}
