//! The pairs of commands that contend.

ghost use Rattle.std.specs.Prelude.{◌≡◌, ◌≤◌, IfOk, length};
ghost use Rattle.rail_spec.specs.Plans.{all_commands};
ghost use Rattle.clause_spec.specs.Variables.{pairs};
ghost use Rattle.live_clause_spec.specs.Variables.{live_pairs};
ghost use Rattle.command_set.specs.Commands.{AreCommandsOf, is_among};

use crate::rows::TrainRows;
use crate::sharing::rows_of_trains;
use crate::starts::starts_of;
use command_set::CommandSet;
use interlocking::Interlocking;
use std::alloc::{AllocError, Global};
use std::marker::Model;

/// Commands, and all pairs of them that contend: of different trains, by routes that share a section. The pairs stand
/// by their first and then by their second command, each by its train and then by its route.
#[derive(Drop)]
pub struct ContendingPairs {
    pub(crate) commands: CommandSet,
    pub(crate) rows: TrainRows,
    /// For each command how many pairs stand before its own, and at last how many there are.
    pub(crate) starts: Vec<usize>,
}

impl Model for ContendingPairs {
    ghost use Rattle.live_contending.specs.Pairs.{ArePairs, Contending};
    ghost use Rattle.live_contending.specs.Rows.{row_at, train_count};
    ghost use Rattle.live_contending.specs.Pairs.{pairs_by_rows};

    ghost Value = { Contending };

    ghost view = { λ p. record {
      commands = p.commands;
      pairs = pairs_by_rows (train_count p.rows) (row_at p.rows) p.commands;
    } };

    ghost invariant = { λ p. ArePairs p.commands p.rows p.starts.items };
}

impl ContendingPairs {
    /// The contending pairs of commands of a design.
    ///
    /// # Errors
    ///
    /// Want of memory alone.
    pub fn new(
        alloc: Global,
        interlocking: &Interlocking,
        commands: CommandSet,
    ) -> Result<ContendingPairs, AllocError>
        requires { AreCommandsOf interlocking.now.design.station interlocking.now.routes commands }
        ensures commands { IfOk result (λ found. found.commands ≡ commands) }
        ensures pairs { IfOk result (λ found. found.pairs ≡ live_pairs (is_among commands)
            interlocking.now.design.station interlocking.now.routes) }
        ensures all { IfOk result (λ found.
            commands ≡ all_commands interlocking.now.design.station interlocking.now.routes →
            found.pairs ≡ pairs interlocking.now.design.station interlocking.now.routes) }
    {
        let rows = rows_of_trains(alloc, interlocking, &commands)?;
        let starts = starts_of(alloc, commands.commands(), &rows)?;
        Ok(ContendingPairs {
            commands,
            rows,
            starts,
        })
    }

    /// The commands.
    pub fn commands(&self) -> &CommandSet
        ensures { result.now ≡ self.now.commands }
    {
        &self.commands
    }

    /// How many pairs there are.
    pub fn count(&self) -> usize
        ensures { result ≡ length self.now.pairs }
    {
        self.starts[self.commands.count()]
    }
}
