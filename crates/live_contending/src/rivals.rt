//! The commands that contend with a command.

ghost use Rattle.std.specs.Prelude.{◌≡◌, ◌≤◌, ◌++◌, ◌==◌, if◌then◌else◌, [], IfOk, OnOk, filter, map};
ghost use Rattle.rail_spec.specs.Plans.{is_command};
ghost use Rattle.command_set.specs.Commands.{commands_in};
ghost use Rattle.live_contending.specs.Pairs.{rivals};
ghost use Rattle.live_contending.specs.Rivals.{GivesRivals};
ghost use Rattle.live_contending.specs.Rows.{row_at, train_count};

use crate::pairs::ContendingPairs;
use crate::rows::TrainRows;
use rail_base::plan::Command;
use rail_base::route::RouteNo;
use rail_base::station::TrainNo;
use std::alloc::{AllocError, Global};

impl ContendingPairs {
    /// The commands that contend with a command, by train and then by route: the second commands of its pairs.
    ///
    /// # Errors
    ///
    /// Want of memory alone.
    pub fn rivals(&self, alloc: Global, command: Command) -> Result<Vec<Command>, AllocError>
        ensures pairs { IfOk result (λ cs. map (λ c. (command, c)) cs.items
            ≡ filter (λ p. is_command p.0 command) self.now.pairs) }
        ensures all { GivesRivals self.now command result }
    {
        if !self.commands.contains(command) {
            return Ok(Vec::new(alloc));
        }
        rivals_by_rows(alloc, &self.rows, command)
    }
}

/// Adds a train's commands with the routes of a row, unless the train is this one.
fn add_rivals(
    rivals: &mut Vec<Command>,
    own: TrainNo,
    train: TrainNo,
    row: &[RouteNo],
) -> Result<(), AllocError>
    ensures { OnOk result (rivals.new.items ≡ rivals.old.items
        ++ (if own.0 == train.0 then [] else commands_in train.0 row.now)) }
{
    if own.0 == train.0 {
        return Ok(());
    }
    for route in row {
        rivals.push(Command {
            train,
            route: *route,
        })?;
    }
    Ok(())
}

/// The commands of other trains with the routes of a command's rows.
fn rivals_by_rows(
    alloc: Global,
    rows: &TrainRows,
    command: Command,
) -> Result<Vec<Command>, AllocError>
    requires { train_count rows.now ≤ 128 }
    ensures { IfOk result (λ cs. cs.items ≡ rivals (train_count rows.now) (row_at rows.now) command) }
{
    let mut rivals = Vec::new(alloc);
    for number in 1..rows.trains() as u32 + 1 {
        let train = TrainNo(number);
        add_rivals(
            &mut rivals,
            command.train,
            train,
            rows.row(train, command.route),
        )?;
    }
    Ok(rivals)
}
