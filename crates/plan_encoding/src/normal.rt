//! The clauses of normal plans, and what they are emitted for.

ghost use Rattle.std.specs.Prelude.{◌≡◌, ◌≤◌, IfOk, OnOk, IfErr};
ghost use Rattle.rail_spec.specs.Plans.{all_commands};
ghost use Rattle.clause_spec.specs.Variables.{variable_count};
ghost use Rattle.normal_clause_spec.specs.Variables.{GivenIn, is_in, is_not_in, normal_number_of, normal_numbered};
ghost use Rattle.normal_clause_spec.specs.Clauses.{normal_clauses};
ghost use Rattle.route_keepers.specs.Keepers.{keepers_of};
ghost use Rattle.plan_encoding.specs.Encoders.{IsCommand, commands, over, station, table};
ghost use Rattle.plan_encoding.specs.Normal.{EmitsNormal, StopsNormal};
ghost use Rattle.plan_encoding.specs.Tables.{leading as leading_of, rows_by};

use crate::encoder::Encoder;
use crate::sink::{BaseFault, ClauseSink};
use rail_base::list::List;
use rail_base::plan::Command;
use rail_base::route::RouteNo;
use route_keepers::keepers;
use sat_clause::Lit;
use std::alloc::{AllocError, Global};

/// An encoder of all commands, and how many variables the plain base has. Behind these come those that commands are
/// given in steps.
#[derive(Clone, Copy)]
pub struct NormalEncoder<'a> {
    pub encoder: Encoder<'a>,
    pub count: u32,
    pub ghost every_command: { commands encoder ≡ all_commands (station encoder) (table encoder) },
    pub ghost counted: { count ≡ over encoder variable_count },
    pub ghost at_most_73536256: { count ≤ 73536256 },
}

/// For each route of an encoder others, in rising order.
#[derive(Drop)]
pub struct NormalTables<'a> {
    pub normal: NormalEncoder<'a>,
    /// The routes that end where it starts.
    pub leading: Vec<List<RouteNo>>,
    /// The routes that can keep a train from a section of it.
    pub keepers: Vec<List<RouteNo>>,
    pub ghost led: { leading.items ≡ rows_by leading_of (table normal.encoder) },
    pub ghost kept: { keepers.items ≡ rows_by keepers_of (table normal.encoder) },
}

impl<'a> NormalEncoder<'a> {
    /// The tables of the encoder.
    pub fn tables(self, alloc: Global) -> Result<NormalTables<'a>, AllocError>
        ensures { IfOk result (λ tables. tables.normal ≡ self.entry) }
    {
        let leading = self.encoder.network(alloc)?.all_leading(alloc)?;
        let keepers = keepers(alloc, self.encoder.interlocking)?;
        Ok(NormalTables {
            normal: self,
            leading,
            keepers,
        })
    }

    /// The literal that a command is given in a step.
    pub fn in_lit(&self, command: Command, step: u32) -> Lit
        requires command { IsCommand self.now.encoder command }
        requires step { step ≤ self.now.encoder.steps.count }
        ensures { result ≡ over self.now.encoder normal_numbered (is_in command step) }
    {
        Lit {
            var: self.in_number(command, step),
            negated: false,
        }
    }

    /// The literal that a command is not given in a step.
    pub fn not_in_lit(&self, command: Command, step: u32) -> Lit
        requires command { IsCommand self.now.encoder command }
        requires step { step ≤ self.now.encoder.steps.count }
        ensures { result ≡ over self.now.encoder normal_numbered (is_not_in command step) }
    {
        Lit {
            var: self.in_number(command, step),
            negated: true,
        }
    }

    /// The number of the variable that a command is given in a step.
    fn in_number(&self, command: Command, step: u32) -> u32
        requires command { IsCommand self.now.encoder command }
        requires step { step ≤ self.now.encoder.steps.count }
        ensures { result ≡ over self.now.encoder normal_number_of (GivenIn command step) }
    {
        self.count + self.encoder.given_number(command, step)
    }
}

impl NormalTables<'_> {
    /// Emits all clauses of normal plans.
    pub fn emit_normal(&self, alloc: Global, sink: &mut ClauseSink) -> Result<(), BaseFault>
        ensures ok { OnOk result (EmitsNormal self.now.normal.encoder (over self.now.normal.encoder normal_clauses)
            sink.old sink.new) }
        ensures err { IfErr result
            (StopsNormal self.now.normal.encoder (over self.now.normal.encoder normal_clauses) sink.old) }
    {
        self.emit_exact(alloc, sink)?;
        self.emit_kept(alloc, sink)
    }
}
