//! Replies, printed.

ghost use Rattle.std.specs.Prelude.{◌≡◌, ◌≢◌};
ghost use Rattle.cli_shell.specs.Uses.{Counts};
ghost use Rattle.cli_shell.specs.Prints.{Prints};
ghost use Rattle.cli_shell.specs.Replies.{reply_seen};

use crate::reply::Reply;
use crate::status::Status;
use rail_outside::{Sink, SinkFault, put_lines};

/// Prints a reply line by line, and says how the run ends: by the status of the reply, want of memory or a fault of the
/// sink.
pub fn print<O: Sink>(reply: &Reply, out: &mut O) -> Status
    ensures prints { Prints (reply_seen reply.now) result
        (O.written out.old) (O.written out.new) (O.puts out.old) (O.puts out.new) }
    ensures counts { Counts O.fault_count out.old out.new (result ≡ Status.SinkFault) }
    ensures no_shelf { result ≢ Status.ShelfFault }
{
    match put_lines(reply.lines.as_slice(), out) {
        Ok(()) => reply.status,
        Err(SinkFault::Failed) => Status::SinkFault,
        Err(SinkFault::Memory) => Status::Memory,
    }
}
