//! The top call.

ghost use Rattle.std.specs.Prelude.{◌≡◌, ◌≢◌, ◌≤◌, ◌↔◌, true, None, Some};
ghost use Rattle.rail_outside.specs.Growth.{Rose, GrowsByPrefix};
ghost use Rattle.rail_words.specs.Words.{texts_of};
ghost use Rattle.cli_shell.specs.Statuses.{is_answered};
ghost use Rattle.draw_cli.specs.Answers.{asks_to};
ghost use Rattle.draw_cli.specs.Replies.{NamesUnread, PrintsAnswer, PrintsUsage};
ghost use Rattle.draw_cli.specs.Wanted.{wanted_of};
ghost use Rattle.draw_cli.specs.Words.{asked_by, wanted_by};

use crate::drawn::{reply_to, usage_made};
use crate::wanted::{CommandWords, Wanted, both_words, read_wanted};
use cli_shell::Status;
use named_files::report;
use rail_outside::{Shelf, Sink};
use rail_words::WordsFault;
use std::alloc::{AllocError, Global};

/// Does what the words of a command line ask for, the first of which is the program's name: reads the design that they
/// name from the shelf, and the plan if they name one, and prints a drawing of the track, or of the plan's run up to
/// its deciding tick. All of its text is made before the first line is printed.
///
/// Where the shelf's files are known, what is printed is an answer for these files: what `rcv routes` or `rcv
/// simulate` answers where it refuses one of them, and else the status 0 and a drawing with the names of all sections,
/// and of all nodes and signals or of all trains and visits. Want of memory, a fault of the shelf, with a line that
/// names the file, or a fault of the sink may come in its place.
pub fn run_draw<S: Shelf, O: Sink>(
    alloc: Global,
    words: &[String],
    shelf: &mut S,
    out: &mut O,
) -> Status
    // Over any shelf, an answer for some bytes of the files is printed; where its files are known, they are theirs.
    ensures answer { PrintsAnswer (S.known_files shelf.old) (wanted_of (texts_of words.now)) result
        (O.written out.old) (O.written out.new) (O.puts out.old) (O.puts out.new) }

    // A line that a file could not be read names the one at which the work stops: no file behind it was asked for.
    ensures unread { result ≡ Status.ShelfFault → NamesUnread (wanted_of (texts_of words.now))
        (O.written out.old) (O.written out.new) (S.asked shelf.old) (S.asked shelf.new) }

    // Status 2 comes exactly where the words ask for nothing.
    ensures usage { is_answered result ≡ true → (result ≡ Status.Usage) ↔ (wanted_of (texts_of words.now) ≡ None) }

    // A fault comes only where its side has counted one.
    ensures shelf_fault { result ≡ Status.ShelfFault → Rose (S.fault_count shelf.old) (S.fault_count shelf.new) }
    ensures sink_fault { result ≡ Status.SinkFault → Rose (O.fault_count out.old) (O.fault_count out.new) }
    ensures shelf_count { S.fault_count shelf.old ≤ S.fault_count shelf.new }
    ensures sink_count { O.fault_count out.old ≤ O.fault_count out.new }

    // Nothing is stored, and nothing is asked for but the named files, in their order.
    ensures stored { S.known_files shelf.new ≡ S.known_files shelf.old }
    ensures asked { GrowsByPrefix (S.asked shelf.old) (S.asked shelf.new) (asks_to (wanted_of (texts_of words.now))) }
{
    match both_words(alloc, words) {
        Ok(both) => run_asked(alloc, &both, shelf, out),
        Err(AllocError) => Status::Memory,
    }
}

/// Does what words ask for that are given with both commands.
fn run_asked<S: Shelf, O: Sink>(
    alloc: Global,
    both: &CommandWords,
    shelf: &mut S,
    out: &mut O,
) -> Status
    ensures answer { PrintsAnswer (S.known_files shelf.old) (asked_by both.now) result
        (O.written out.old) (O.written out.new) (O.puts out.old) (O.puts out.new) }
    ensures unread { result ≡ Status.ShelfFault → NamesUnread (asked_by both.now)
        (O.written out.old) (O.written out.new) (S.asked shelf.old) (S.asked shelf.new) }
    ensures shelf_fault { result ≡ Status.ShelfFault → Rose (S.fault_count shelf.old) (S.fault_count shelf.new) }
    ensures sink_fault { result ≡ Status.SinkFault → Rose (O.fault_count out.old) (O.fault_count out.new) }
    ensures shelf_count { S.fault_count shelf.old ≤ S.fault_count shelf.new }
    ensures sink_count { O.fault_count out.old ≤ O.fault_count out.new }
    ensures stored { S.known_files shelf.new ≡ S.known_files shelf.old }
    ensures asked { GrowsByPrefix (S.asked shelf.old) (S.asked shelf.new) (asks_to (asked_by both.now)) }
{
    match read_wanted(alloc, both.routes.as_slice(), both.simulate.as_slice()) {
        Ok(wanted) => run_wanted(alloc, wanted, shelf, out),
        Err(WordsFault::Usage) => print_usage(alloc, out),
        Err(WordsFault::Memory) => Status::Memory,
    }
}

/// Prints how the program is used.
fn print_usage<O: Sink>(alloc: Global, out: &mut O) -> Status
    ensures answer { PrintsUsage result (O.written out.old) (O.written out.new) (O.puts out.old) (O.puts out.new) }
    ensures no_shelf { result ≢ Status.ShelfFault }
    ensures sink_fault { result ≡ Status.SinkFault → Rose (O.fault_count out.old) (O.fault_count out.new) }
    ensures sink_count { O.fault_count out.old ≤ O.fault_count out.new }
{
    let made = usage_made(alloc);
    report(alloc, made, out)
}

/// Prints the drawing that is wanted.
fn run_wanted<S: Shelf, O: Sink>(
    alloc: Global,
    wanted: Wanted<'_>,
    shelf: &mut S,
    out: &mut O,
) -> Status
    ensures answer { PrintsAnswer (S.known_files shelf.old) (Some (wanted_by wanted.entry)) result
        (O.written out.old) (O.written out.new) (O.puts out.old) (O.puts out.new) }
    ensures unread { result ≡ Status.ShelfFault → NamesUnread (Some (wanted_by wanted.entry))
        (O.written out.old) (O.written out.new) (S.asked shelf.old) (S.asked shelf.new) }
    ensures shelf_fault { result ≡ Status.ShelfFault → Rose (S.fault_count shelf.old) (S.fault_count shelf.new) }
    ensures sink_fault { result ≡ Status.SinkFault → Rose (O.fault_count out.old) (O.fault_count out.new) }
    ensures shelf_count { S.fault_count shelf.old ≤ S.fault_count shelf.new }
    ensures sink_count { O.fault_count out.old ≤ O.fault_count out.new }
    ensures stored { S.known_files shelf.new ≡ S.known_files shelf.old }
    ensures asked { GrowsByPrefix (S.asked shelf.old) (S.asked shelf.new) (asks_to (Some (wanted_by wanted.entry))) }
{
    let made = reply_to(alloc, shelf, wanted);
    report(alloc, made, out)
}
