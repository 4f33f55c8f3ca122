//! What is printed of a reply.

ghost use Rattle.std.specs.Prelude.{◌≡◌, ◌≢◌, [], ◌∷◌, IfOk, Err, true};
ghost use Rattle.rail_outside.specs.Lines.{lines_of};
ghost use Rattle.cli_shell.specs.Uses.{Counts};
ghost use Rattle.cli_shell.specs.Answers.{ReplySeen};
ghost use Rattle.cli_shell.specs.Replies.{Replies, RepliesWith};
ghost use Rattle.design_cli.specs.Answers.{unread_line};
ghost use Rattle.design_cli.specs.Reports.{PrintsAnswer, PrintsUnread, Reports, is_reply};

use cli_shell::{Ending, Reply, Status, print};
use rail_outside::{Sink, SinkFault, put_lines};
use std::alloc::{AllocError, Global};

/// The line that says that the file of this name could not be read.
fn unread_lines(alloc: Global, name: &str) -> Result<Vec<Vec<u8>>, AllocError>
    ensures { IfOk result (λ lines. lines_of lines.items ≡ unread_line name.now ∷ []) }
{
    let mut line = Vec::from_slice(alloc, b"not read ")?;
    line.extend_from_slice(name.as_bytes())?;
    line.push(b'\n')?;
    let mut lines = Vec::new(alloc);
    lines.push(line)?;
    Ok(lines)
}

/// Says that the file of this name could not be read.
fn print_unread<O: Sink>(alloc: Global, name: &str, out: &mut O) -> Status
    ensures prints { PrintsUnread name.now result
        (O.written out.old) (O.written out.new) (O.puts out.old) (O.puts out.new) }
    ensures counts { Counts O.fault_count out.old out.new (result ≡ Status.SinkFault) }
{
    match unread_lines(alloc, name) {
        Ok(lines) => match put_lines(lines.as_slice(), out) {
            Ok(()) => Status::ShelfFault,
            Err(SinkFault::Failed) => Status::SinkFault,
            Err(SinkFault::Memory) => Status::Memory,
        },
        Err(AllocError) => Status::Memory,
    }
}

/// Prints a reply, where there is memory for one.
pub(crate) fn print_reply<O: Sink>(reply: Result<Reply, AllocError>, out: &mut O) -> Status
    ensures prints { (a : ReplySeen) → RepliesWith reply a → PrintsAnswer a result
        (O.written out.old) (O.written out.new) (O.puts out.old) (O.puts out.new) }
    ensures counts { Counts O.fault_count out.old out.new (result ≡ Status.SinkFault) }
    ensures no_shelf { result ≢ Status.ShelfFault }
{
    match reply {
        Ok(reply) => print(&reply, out),
        Err(AllocError) => Status::Memory,
    }
}

/// Prints a reply for the file of this name, or that it could not be read.
pub(crate) fn print_for_file<O: Sink>(
    alloc: Global,
    reply: Result<Reply, Ending>,
    name: &str,
    out: &mut O,
) -> Status
    ensures prints { (a : ReplySeen) → Replies reply a → Reports a (name.now ∷ []) result
        (O.written out.old) (O.written out.new) (O.puts out.old) (O.puts out.new) }
    ensures done { result ≡ Status.Done → is_reply reply ≡ true }
    ensures unread { result ≡ Status.ShelfFault → reply ≡ Err Ending.ShelfFault }
    ensures counts { Counts O.fault_count out.old out.new (result ≡ Status.SinkFault) }
{
    match reply {
        Ok(reply) => print(&reply, out),
        Err(Ending::RefusedWith(reply)) => print(&reply, out),
        Err(Ending::Memory) => Status::Memory,
        Err(Ending::ShelfFault) => print_unread(alloc, name, out),
    }
}
