//! What is printed.

ghost use Rattle.std.specs.Prelude.{◌≡◌, [], ◌∷◌, IfOk, true};
ghost use Rattle.rail_outside.specs.Lines.{lines_of};
ghost use Rattle.named_files.specs.Replies.{is_unread};
ghost use Rattle.named_files.specs.Reports.{PrintsUnread, ReportsOf, unread_line};
ghost use Rattle.cli_shell.specs.Uses.{Counts};

use crate::unmade::Unmade;
use cli_shell::{Reply, Status, print};
use rail_outside::{Sink, SinkFault, put_lines};
use std::alloc::{AllocError, Global};

/// The line that says that the file of this name could not be read.
fn unread_lines(alloc: Global, name: &str) -> Result<Vec<Vec<u8>>, AllocError>
    ensures { IfOk result (λ lines. lines_of lines.items ≡ unread_line name.now ∷ []) }
{
    let mut line = Vec::from_slice(alloc, b"not read ")?;
    line.extend_from_slice(name.as_bytes())?;
    line.push(b'\n')?;
    let mut lines = Vec::new(alloc);
    lines.push(line)?;
    Ok(lines)
}

/// Says that the file of this name could not be read.
fn print_unread<O: Sink>(alloc: Global, name: &str, out: &mut O) -> Status
    ensures prints { PrintsUnread name.now result
        (O.written out.old) (O.written out.new) (O.puts out.old) (O.puts out.new) }
    ensures counts { Counts O.fault_count out.old out.new (result ≡ Status.SinkFault) }
{
    match unread_lines(alloc, name) {
        Ok(lines) => match put_lines(lines.as_slice(), out) {
            Ok(()) => Status::ShelfFault,
            Err(SinkFault::Failed) => Status::SinkFault,
            Err(SinkFault::Memory) => Status::Memory,
        },
        Err(AllocError) => Status::Memory,
    }
}

/// Prints a reply line by line, or that a file could not be read, and says how the run ends: by the status of the
/// reply, a fault of the shelf or of the sink, or want of memory.
pub fn report<O: Sink>(alloc: Global, made: Result<Reply, Unmade<'_>>, out: &mut O) -> Status
    ensures reports { ReportsOf made.entry result
        (O.written out.old) (O.written out.new) (O.puts out.old) (O.puts out.new) }
    ensures unread { result ≡ Status.ShelfFault → is_unread made.entry ≡ true }
    ensures counts { Counts O.fault_count out.old out.new (result ≡ Status.SinkFault) }
{
    match made {
        Ok(reply) => print(&reply, out),
        Err(Unmade::Refused(reply)) => print(&reply, out),
        Err(Unmade::Memory) => Status::Memory,
        Err(Unmade::Unread(name)) => print_unread(alloc, name, out),
    }
}
