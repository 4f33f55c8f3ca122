//! The top call.

ghost use Rattle.std.specs.Prelude.{◌≡◌, ◌≢◌, ◌≤◌, true, IfOk, Some};
ghost use Rattle.rail_base.specs.declared.station.Station.{Station};
ghost use Rattle.rail_outside.specs.Files.{Files};
ghost use Rattle.rail_outside.specs.Growth.{Rose, GrowsByPrefix};
ghost use Rattle.rail_words.specs.Requests.{IsInTimeInRange};
ghost use Rattle.rail_words.specs.Words.{texts_of};
ghost use Rattle.cli_shell.specs.Statuses.{is_answered};
ghost use Rattle.cli_shell.specs.Verdicts.{IsVerdict};
ghost use Rattle.why_words.specs.Wanted.{AreStepsInRange, wanted_of};
ghost use Rattle.why_words.specs.Words.{wanted_by};
ghost use Rattle.why_cli.specs.Replies.{AreCheckWords, PrintsAnswer, PrintsUsage, asks_of, asks_to};
ghost use Rattle.why_cli.specs.Shows.{Explains, ExplainsProof, IsUnrefused, IsUsageFor};

use crate::explaining::usage_made;
use crate::replying::reply_to;
use cli_shell::Status;
use named_files::report;
use rail_outside::{Shelf, Sink};
use rail_words::WordsFault;
use std::alloc::{AllocError, Global};
use why_words::{Wanted, check_words, read_wanted, words_with_proof};

/// Does what the words of a command line ask for, the first of which is the program's name: reads the design that they
/// name from the shelf, and the proof if they name one. Of a design alone it prints what is wrong with it, where it is
/// refused, or what it asks for and what to look at. Of a proof it prints the sentences about its cones and bounds, or
/// what a check answers where it is not yes; of a plan or a proof it does so over the design with the greatest time put
/// in that the words give. All of its text is made before the first line is printed.
///
/// Where the shelf's files are known, the status and the text are those of an answer that these files give; want of
/// memory, a fault of the shelf, with a line that names the file, or a fault of the sink may come in its place.
pub fn run_why<S: Shelf, O: Sink>(
    alloc: Global,
    words: &[String],
    shelf: &mut S,
    out: &mut O,
) -> Status
    // Over any shelf, an answer for some bytes of the files is printed; where its files are known, they are theirs.
    ensures answer { PrintsAnswer (S.known_files shelf.old) (wanted_of (texts_of words.now)) result
        (O.written out.old) (O.written out.new) (O.puts out.old) (O.puts out.new) }

    // Of a proof, sentences are printed only where the design, with the greatest time put in that is given, has no plan of
    // as many steps as the lines before them say. That is the number that a check of the files prints, and the sentences
    // are those about the lines of the proof.
    ensures infeasible { (files : Files) → S.known_files shelf.old ≡ Some files → (d : Station)
        → (e : Explains files (texts_of words.now) d) → result ≡ Status.Done
        → ExplainsProof files e.wanted e.proof d (O.written out.old) (O.written out.new) }

    // Where nothing is refused, a run over a proof comes to a verdict: the sentences, or the first bad line.
    ensures has_verdict { (files : Files) → S.known_files shelf.old ≡ Some files
        → IsUnrefused files (texts_of words.now) → is_answered result ≡ true → IsVerdict result }

    // Status 2 comes where the words ask for nothing, and else only where they give no number of steps.
    ensures usage { is_answered result ≡ true → IsUsageFor (wanted_of (texts_of words.now)) result }

    // A fault comes only where its side has counted one.
    ensures shelf_fault { result ≡ Status.ShelfFault → Rose (S.fault_count shelf.old) (S.fault_count shelf.new) }
    ensures sink_fault { result ≡ Status.SinkFault → Rose (O.fault_count out.old) (O.fault_count out.new) }
    ensures shelf_count { S.fault_count shelf.old ≤ S.fault_count shelf.new }
    ensures sink_count { O.fault_count out.old ≤ O.fault_count out.new }

    // Nothing is stored, and nothing is asked for but the named files, in their order.
    ensures stored { S.known_files shelf.new ≡ S.known_files shelf.old }
    ensures asked { GrowsByPrefix (S.asked shelf.old) (S.asked shelf.new) (asks_of (texts_of words.now)) }
{
    match both_words(alloc, words) {
        Ok(both) => run_asked(alloc, words, &both, shelf, out),
        Err(AllocError) => Status::Memory,
    }
}

/// The words with `check`, by themselves and with a proof behind.
#[derive(Drop)]
struct CheckWords {
    alone: Vec<String>,
    with_proof: Vec<String>,
}

/// Those for the words of a command line.
fn both_words(alloc: Global, words: &[String]) -> Result<CheckWords, AllocError>
    ensures { IfOk result (λ both. AreCheckWords (texts_of words.now) both) }
{
    let alone = check_words(alloc, words)?;
    let with_proof = words_with_proof(alloc, words)?;
    Ok(CheckWords { alone, with_proof })
}

/// Does what the words ask for, by them and by those with `check`.
fn run_asked<S: Shelf, O: Sink>(
    alloc: Global,
    words: &[String],
    check: &CheckWords,
    shelf: &mut S,
    out: &mut O,
) -> Status
    requires { AreCheckWords (texts_of words.now) check.now }
    ensures answer { PrintsAnswer (S.known_files shelf.old) (wanted_of (texts_of words.now)) result
        (O.written out.old) (O.written out.new) (O.puts out.old) (O.puts out.new) }
    ensures shelf_fault { result ≡ Status.ShelfFault → Rose (S.fault_count shelf.old) (S.fault_count shelf.new) }
    ensures sink_fault { result ≡ Status.SinkFault → Rose (O.fault_count out.old) (O.fault_count out.new) }
    ensures shelf_count { S.fault_count shelf.old ≤ S.fault_count shelf.new }
    ensures sink_count { O.fault_count out.old ≤ O.fault_count out.new }
    ensures stored { S.known_files shelf.new ≡ S.known_files shelf.old }
    ensures asked { GrowsByPrefix (S.asked shelf.old) (S.asked shelf.new) (asks_of (texts_of words.now)) }
{
    match read_wanted(
        alloc,
        words,
        check.alone.as_slice(),
        check.with_proof.as_slice(),
    ) {
        Ok(wanted) => run_wanted(alloc, wanted, shelf, out),
        Err(WordsFault::Usage) => print_usage(alloc, out),
        Err(WordsFault::Memory) => Status::Memory,
    }
}

/// Prints how the program is used.
fn print_usage<O: Sink>(alloc: Global, out: &mut O) -> Status
    ensures answer { PrintsUsage result (O.written out.old) (O.written out.new) (O.puts out.old) (O.puts out.new) }
    ensures no_shelf { result ≢ Status.ShelfFault }
    ensures sink_fault { result ≡ Status.SinkFault → Rose (O.fault_count out.old) (O.fault_count out.new) }
    ensures sink_count { O.fault_count out.old ≤ O.fault_count out.new }
{
    let made = usage_made(alloc);
    report(alloc, made, out)
}

/// Prints what is wanted.
fn run_wanted<S: Shelf, O: Sink>(
    alloc: Global,
    wanted: Wanted<'_>,
    shelf: &mut S,
    out: &mut O,
) -> Status
    requires steps { AreStepsInRange wanted.steps }
    requires in_time { IsInTimeInRange wanted.in_time }
    ensures answer { PrintsAnswer (S.known_files shelf.old) (Some (wanted_by wanted.entry)) result
        (O.written out.old) (O.written out.new) (O.puts out.old) (O.puts out.new) }
    ensures shelf_fault { result ≡ Status.ShelfFault → Rose (S.fault_count shelf.old) (S.fault_count shelf.new) }
    ensures sink_fault { result ≡ Status.SinkFault → Rose (O.fault_count out.old) (O.fault_count out.new) }
    ensures shelf_count { S.fault_count shelf.old ≤ S.fault_count shelf.new }
    ensures sink_count { O.fault_count out.old ≤ O.fault_count out.new }
    ensures stored { S.known_files shelf.new ≡ S.known_files shelf.old }
    ensures asked { GrowsByPrefix (S.asked shelf.old) (S.asked shelf.new) (asks_to (Some (wanted_by wanted.entry))) }
{
    let made = reply_to(alloc, shelf, wanted);
    report(alloc, made, out)
}
