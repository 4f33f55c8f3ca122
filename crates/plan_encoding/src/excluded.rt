//! No train is given two routes that exclude each other.

ghost use Rattle.std.specs.Prelude.{OnOk, IfErr};
ghost use Rattle.rail_base.specs.Stations.{IsTrain};
ghost use Rattle.live_clause_spec.specs.Listed.{live_excluded};
ghost use Rattle.plan_encoding.specs.Families.{none_excluded};
ghost use Rattle.plan_encoding.specs.Encoders.{Emits, Stops, among, station};

use crate::sink::{BaseFault, ClauseSink};
use crate::tables::Tables;
use rail_base::plan::Command;
use rail_base::station::TrainNo;

impl Tables<'_> {
    /// Emits that no train is given two routes that exclude each other.
    pub fn emit_excluded(&self, sink: &mut ClauseSink) -> Result<(), BaseFault>
        ensures ok { OnOk result (Emits self.now.encoder (none_excluded self.now.encoder) sink.old sink.new) }
        ensures err { IfErr result (Stops self.now.encoder (none_excluded self.now.encoder) sink.old) }
    {
        for train in &self.trains {
            self.emit_excluded_of(sink, *train)?;
        }
        Ok(())
    }

    /// Emits that a train is given no two routes that exclude each other.
    fn emit_excluded_of(&self, sink: &mut ClauseSink, train: TrainNo) -> Result<(), BaseFault>
        requires train { IsTrain (station self.now.encoder) train }
        ensures ok { OnOk result (Emits self.now.encoder (among self.now.encoder live_excluded train)
            sink.old sink.new) }
        ensures err { IfErr result (Stops self.now.encoder (among self.now.encoder live_excluded train) sink.old) }
    {
        let last = self.encoder.steps.count;
        let commands = self.encoder.pairs.commands();
        for pair in &self.exclusions {
            let one = Command {
                train,
                route: pair.0,
            };
            let other = Command {
                train,
                route: pair.1,
            };
            if commands.contains(one) && commands.contains(other) {
                sink.emit(&[
                    self.encoder.not_given_lit(one, last),
                    self.encoder.not_given_lit(other, last),
                ])?;
            }
        }
        Ok(())
    }
}
