//! The lines that are printed of a proof, each with its LF. An error is want of memory.

ghost use Rattle.std.specs.Prelude.{◌≡◌, IfOk};
ghost use Rattle.proof_shell.specs.Texts.{yes_line, no_line};

use cli_shell::counted_line;
use log_checker::Reason;
use rail_text::put_number;
use std::alloc::{AllocError, Global};

/// `yes steps <k>`
pub(crate) fn yes_line(alloc: Global, steps: u32) -> Result<Vec<u8>, AllocError>
    ensures { IfOk result (λ line. line.items ≡ yes_line steps) }
{
    counted_line(alloc, b"yes steps ", u64::from(steps))
}

/// `no line <number> <reason>`
pub(crate) fn no_line(alloc: Global, number: u64, reason: Reason) -> Result<Vec<u8>, AllocError>
    ensures { IfOk result (λ line. line.items ≡ no_line number reason) }
{
    let mut line = Vec::from_slice(alloc, b"no line ")?;
    put_number(&mut line, number)?;
    line.push(b' ')?;
    line.extend_from_slice(reason.words().as_bytes())?;
    line.push(b'\n')?;
    Ok(line)
}
