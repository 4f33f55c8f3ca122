//! How many pairs stand before each command's own.

ghost use Rattle.std.specs.Prelude.{◌≡◌, ◌≤◌, ◌-◌, IfOk, length};
ghost use Rattle.command_set.specs.Blocks.{member_count};
ghost use Rattle.live_contending.specs.Pairs.{AreStarts, rivals_of_train};
ghost use Rattle.live_contending.specs.Rows.{AreShort, row_at, train_count};

use crate::rows::TrainRows;
use rail_base::plan::Command;
use rail_base::station::TrainNo;
use std::alloc::{AllocError, Global};

/// For each command how many pairs stand before its own, and at last how many there are.
pub(crate) fn starts_of(
    alloc: Global,
    commands: &[Command],
    rows: &TrainRows,
) -> Result<Vec<usize>, AllocError>
    requires few { length commands.now ≤ 256000 }
    requires trains { train_count rows.now ≤ 128 }
    requires short { AreShort rows.now }
    ensures { IfOk result (λ starts. AreStarts (train_count rows.now) (row_at rows.now) commands.now starts.items) }
{
    let mut starts = Vec::new(alloc);
    let mut sum = 0;
    for command in commands {
        starts.push(sum)?;
        sum += rivals_before(rows, *command, rows.trains() as u32 + 1);
    }
    starts.push(sum)?;
    Ok(starts)
}

/// How many commands contend with a command that are of trains before this one.
pub(crate) fn rivals_before(rows: &TrainRows, command: Command, train: u32) -> usize
    requires short { AreShort rows.now }
    requires known { 1 ≤ train }
    requires few { train ≤ 129 }
    ensures { result ≡ member_count (rivals_of_train (row_at rows.now) command) 1 (train - 1) }
{
    let mut count = 0;
    for number in 1..train {
        count += rivals_of(rows, command, TrainNo(number));
    }
    count
}

/// How many commands of a train contend with a command: none of its own train.
fn rivals_of(rows: &TrainRows, command: Command, train: TrainNo) -> usize
    requires { AreShort rows.now }
    ensures value { result ≡ length (rivals_of_train (row_at rows.now) command train.0) }
    ensures bound { result ≤ 2000 }
{
    if command.train.0 == train.0 {
        return 0;
    }
    rows.row(train, command.route).len()
}
