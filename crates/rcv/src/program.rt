//! The program, up to the number that it ends with.

ghost use Rattle.std.specs.Prelude.{ℕ, List};
ghost use Rattle.rail_words.specs.Words.{texts_of};
ghost use Rattle.rcv.specs.Ends.{EndsWith};

use cli_shell::Status;
use rail_cli::run_watched;
use rail_files::{FileShelf, OutSink, ProgressSink, command_words};
use std::alloc::AllocError;
use std::io::IsTerminal;

/// Does what the words of the command line ask for, and gives the number to end with.
pub(crate) fn run(rt: HostRuntime) -> u8
    ensures { (words : List (List ℕ)) × EndsWith words result }
{
    match command_words(&rt) {
        Ok(words) => run_over_files(rt, words.as_slice()),
        Err(AllocError) => Status::Memory.code(),
    }
}

/// The number of the status with which these words are done, over real files and standard output. How far a search is
/// goes to standard error, where they ask for it.
fn run_over_files(rt: HostRuntime, words: &[String]) -> u8
    ensures { EndsWith (texts_of words.now) result }
{
    let alloc = rt.alloc();
    let mut out = OutSink::new(rt.stdout());
    let error = rt.stderr();
    let terminal = error.is_terminal();
    let mut progress = ProgressSink::new(error, terminal);
    let mut shelf = FileShelf::new(alloc, rt);
    run_watched(alloc, words, &mut shelf, &mut out, &mut progress).code()
}
