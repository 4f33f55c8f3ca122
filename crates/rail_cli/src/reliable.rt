//! Runs over a shelf and a sink that never fail.

ghost use Rattle.std.specs.Prelude.{◌≡◌, ◌≢◌, ◌++◌, Some};
ghost use Rattle.std.specs.List.{concat};
ghost use Rattle.rail_outside.specs.Reliable.{files_on, bytes_in};
ghost use Rattle.rail_words.specs.Requests.{request_of};
ghost use Rattle.rail_words.specs.Words.{texts_of};
ghost use Rattle.rail_cli.specs.Answers.{answer_of};
ghost use Rattle.rail_cli.specs.Ended.{Ended};
ghost use Rattle.rail_cli.specs.Searches.{Finds, Leaves};

use crate::run::run_words;
use cli_shell::Status;
use rail_outside::{ReliableShelf, ReliableSink};
use std::alloc::Global;

/// Does what the words of a command line ask for over a shelf and a sink that never fail: it gives the one answer, or
/// memory ran out.
pub fn run_words_reliably(
    alloc: Global,
    words: &[String],
    shelf: &mut ReliableShelf,
    out: &mut ReliableSink,
) -> Status
    ensures answer { result ≢ Status.Memory → (found : Ended)
        × Finds (files_on shelf.old) (request_of (texts_of words.now)) found
        × (result ≡ (answer_of (files_on shelf.old) found (texts_of words.now)).status)
        × (bytes_in out.new
        ≡ bytes_in out.old ++ concat (answer_of (files_on shelf.old) found (texts_of words.now)).lines) }
    ensures no_shelf_fault { result ≢ Status.ShelfFault }
    ensures no_sink_fault { result ≢ Status.SinkFault }
    ensures files { Leaves (request_of (texts_of words.now)) result
        (Some (files_on shelf.old)) (Some (files_on shelf.new)) }
{
    run_words(alloc, words, shelf, out)
}
