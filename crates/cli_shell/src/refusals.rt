//! Replies of one line.

ghost use Rattle.std.specs.Prelude.{◌≡◌, true};
ghost use Rattle.cli_shell.specs.Statuses.{is_answered};
ghost use Rattle.cli_shell.specs.Texts.{usage_line, too_long_line, design_refused_line, too_large_line};
ghost use Rattle.cli_shell.specs.Texts.{no_within_line, plan_refused_line};
ghost use Rattle.cli_shell.specs.Answers.{one_line};
ghost use Rattle.cli_shell.specs.Replies.{RepliesWith, ending_of};

use crate::ending::Ending;
use crate::input::InputFile;
use crate::reply::Reply;
use crate::status::Status;
use crate::texts::{
    design_refused_line, no_within_line, plan_refused_line, too_large_line, too_long_line,
    usage_line,
};
use design_table::{Code, Place};
use rail_base::design::Design;
use rail_plan::fault::PlanCode;
use rail_plan::place::PlanPlace;
use std::alloc::{AllocError, Global};

/// A reply of one line. The error is want of memory.
pub fn one_line(alloc: Global, status: Status, line: Vec<u8>) -> Result<Reply, AllocError>
    requires { is_answered status ≡ true }
    ensures { RepliesWith result (one_line status line.items) }
{
    let mut lines = Vec::new(alloc);
    lines.push(line)?;
    Ok(Reply { status, lines })
}

/// The words ask for nothing. The error is want of memory.
pub fn usage(alloc: Global) -> Result<Reply, AllocError>
    ensures { RepliesWith result (one_line Status.Usage usage_line) }
{
    one_line(alloc, Status::Usage, usage_line(alloc)?)
}

/// A file is longer than its limit. The error is want of memory.
pub fn too_long(alloc: Global, file: InputFile) -> Result<Reply, AllocError>
    ensures { RepliesWith result (one_line Status.TooLong (too_long_line file)) }
{
    one_line(alloc, Status::TooLong, too_long_line(alloc, file)?)
}

/// The design is refused, with this code at this place. The error is want of memory.
pub fn design_refused(alloc: Global, code: Code, place: Place) -> Result<Reply, AllocError>
    ensures { RepliesWith result (one_line Status.DesignRefused (design_refused_line code place)) }
{
    one_line(
        alloc,
        Status::DesignRefused,
        design_refused_line(alloc, code, place)?,
    )
}

/// The clauses of the design are too many. The error is want of memory.
pub fn too_large(alloc: Global) -> Result<Reply, AllocError>
    ensures { RepliesWith result (one_line Status.DesignRefused too_large_line) }
{
    one_line(alloc, Status::DesignRefused, too_large_line(alloc)?)
}

/// The design has no within of the number that is asked for. The error is want of memory.
pub fn no_within(alloc: Global) -> Result<Reply, AllocError>
    ensures { RepliesWith result (one_line Status.DesignRefused no_within_line) }
{
    one_line(alloc, Status::DesignRefused, no_within_line(alloc)?)
}

/// The plan is refused, with this code at this place. The error is want of memory.
pub fn plan_refused(
    alloc: Global,
    design: &Design,
    code: PlanCode,
    place: PlanPlace,
) -> Result<Reply, AllocError>
    ensures { RepliesWith result (one_line Status.PlanRefused (plan_refused_line design.now.station code place)) }
{
    one_line(
        alloc,
        Status::PlanRefused,
        plan_refused_line(alloc, design, code, place)?,
    )
}

/// The work ends with a reply, or for want of memory.
pub fn ending_of(reply: Result<Reply, AllocError>) -> Ending
    ensures { result ≡ ending_of reply }
{
    match reply {
        Ok(reply) => Ending::RefusedWith(reply),
        Err(_) => Ending::Memory,
    }
}
