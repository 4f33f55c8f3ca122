//! The top call.

ghost use Rattle.std.specs.Prelude.{◌≡◌, ◌≢◌, ◌≤◌, ◌↔◌, true, false, None, Some, List, IfOk, ℕ};
ghost use Rattle.rail_base.specs.declared.station.Station.{Station};
ghost use Rattle.rail_base.specs.declared.plan.Command.{Command};
ghost use Rattle.rail_outside.specs.Files.{Files};
ghost use Rattle.rail_outside.specs.Growth.{Rose, GrowsByPrefix};
ghost use Rattle.rail_words.specs.Requests.{IsRequestInRange, is_watched, request_of, trial};
ghost use Rattle.rail_spelling.specs.Lines.{CheckInTimeLine, CheckLine, SimulateLine, TightestLine, TrialLine, VerifyLine};
ghost use Rattle.rail_spelling.specs.Lines.{Word};
ghost use Rattle.rail_words.specs.Laws.{AsksForNothing};
ghost use Rattle.rail_words.specs.Words.{texts_of, request_seen};
ghost use Rattle.rail_cli.specs.Ended.{Ended};
ghost use Rattle.cli_shell.specs.Uses.{Uses};
ghost use Rattle.cli_shell.specs.Statuses.{is_answered};
ghost use Rattle.rail_cli.specs.Answers.{answer_of, asks_to, asks_of};
ghost use Rattle.rail_cli.specs.Checks.{Checks, ReportsInfeasible};
ghost use Rattle.cli_shell.specs.Prints.{Prints};
ghost use Rattle.rail_cli.specs.Prints.{PrintsSome};
ghost use Rattle.cli_shell.specs.Replies.{RefusesFile, OnReply, OnEnd};
ghost use Rattle.rail_cli.specs.Replies.{DecidesRequest, RepliesSo, RepliesSome, Tries};
ghost use Rattle.rail_cli.specs.Searches.{Finds, Tells, Leaves, Searches, ReportsPlan, ReportsNone};
ghost use Rattle.rail_cli.specs.Short.{IsVerdict, Simulated, Checked, CheckedInTime, Found, FoundLeast, FoundNone, FoundNoTime};
ghost use Rattle.rail_cli.specs.Times.{ReportsLeast, ReportsNoTime, TimeSearches};
ghost use Rattle.cli_shell.specs.Simulations.{ReportsFeasible};
ghost use Rattle.rail_cli.specs.Simulations.{Simulates, DoneWhereFeasible};
ghost use Rattle.rail_cli.specs.Trials.{ReportsTrial};
ghost use Rattle.rail_cli.specs.Verdicts.{IsUnrefused, HasVerdict};

use crate::least::time_reply;
use crate::searching::{budgets, search_reply};
use crate::trial::trial_reply;
use cli_shell::{Ending, Reply, Status, print, routes_reply, simulation_reply, usage};
use proof_shell::check_reply;
use rail_outside::{NullSink, Shelf, Sink};
use rail_words::{Asked, Request, WordsFault, read_asked};
use std::alloc::Global;

/// Does what the words of a command line ask for, the first of which is the program's name: reads the files that they
/// name from the shelf, and prints the answer. All of its text is made before the first line is printed.
///
/// Where the shelf's files are known, the status and the text are those of the answer that these files give; want of
/// memory, a fault of the shelf or a fault of the sink may come in its place. How far a search is is told nobody.
pub fn run_words<S: Shelf, O: Sink>(
    alloc: Global,
    words: &[String],
    shelf: &mut S,
    out: &mut O,
) -> Status
    ensures answer { (files : Files) → S.known_files shelf.old ≡ Some files → (found : Ended)
        × Finds files (request_of (texts_of words.now)) found
        × Prints (answer_of files found (texts_of words.now)) result
        (O.written out.old) (O.written out.new) (O.puts out.old) (O.puts out.new) }

    // Over any shelf, also one of which nothing is known, that answer is printed for some bytes of the files.
    ensures for_some_files { PrintsSome (request_of (texts_of words.now)) result
        (O.written out.old) (O.written out.new) (O.puts out.old) (O.puts out.new) }

    // A simulation answers yes exactly where the plan is feasible, and a check only where the design has no plan.
    ensures met { (files : Files) → S.known_files shelf.old ≡ Some files → (d : Station) (plan : List (List Command))
        → Simulates files (texts_of words.now) d plan → is_answered result ≡ true
        → ReportsFeasible d plan result (O.written out.old) (O.written out.new) }
    ensures infeasible { (files : Files) → S.known_files shelf.old ≡ Some files → (n : ℕ) (d : Station)
        → Checks files (texts_of words.now) n d → result ≡ Status.Done
        → ReportsInfeasible n d (O.written out.old) (O.written out.new) }

    // A search prints a plan only where it is feasible, and that there is none only where there is none.
    ensures planned { (files : Files) → S.known_files shelf.old ≡ Some files → (n : ℕ) (d : Station)
        → (s : Searches files (texts_of words.now) n d) → result ≡ Status.Done
        → ReportsPlan s.mode n d (O.written out.old) (O.written out.new) }
    ensures proven { (files : Files) → S.known_files shelf.old ≡ Some files → (n : ℕ) (d : Station)
        → (s : Searches files (texts_of words.now) n d) → result ≡ Status.No
        → ReportsNone files s.design_name s.proof_name n d (O.written out.old) (O.written out.new)
        (S.known_files shelf.new) }

    // A search for the least time of a within prints a plan that is feasible in it, and that there is none only where there is
    // none whatever the time. The log that it stores shows that less time is too little.
    ensures found_least { (files : Files) → S.known_files shelf.old ≡ Some files → (n w : ℕ) (d : Station)
        → (s : TimeSearches files (texts_of words.now) n w d) → result ≡ Status.Done
        → ReportsLeast files s.design_name s.proof_name n w d (O.written out.old) (O.written out.new)
        (S.known_files shelf.new) }
    ensures found_no_time { (files : Files) → S.known_files shelf.old ≡ Some files → (n w : ℕ) (d : Station)
        → (s : TimeSearches files (texts_of words.now) n w d) → result ≡ Status.No
        → ReportsNoTime files s.design_name s.proof_name n w d (O.written out.old) (O.written out.new)
        (S.known_files shelf.new) }

    // The same in short, of plain command lines and of files by what they spell.
    ensures simulated { (files : Files) → S.known_files shelf.old ≡ Some files → (design plan : Word)
        → SimulateLine (texts_of words.now) design plan → IsVerdict result
        → Simulated (files design) (files plan) result }
    ensures checked { (files : Files) → S.known_files shelf.old ≡ Some files → (n : ℕ) (design proof : Word)
        → CheckLine (texts_of words.now) n design proof → result ≡ Status.Done
        → Checked (files design) n (O.written out.old) (O.written out.new) }
    ensures found { (files : Files) → S.known_files shelf.old ≡ Some files → (n : ℕ) (design proof : Word)
        → (line : VerifyLine (texts_of words.now) n design proof) → result ≡ Status.Done
        → Found line.mode (files design) n (O.written out.old) (O.written out.new) }
    ensures found_none { (files : Files) → S.known_files shelf.old ≡ Some files → (n : ℕ) (design proof : Word)
        → VerifyLine (texts_of words.now) n design proof → result ≡ Status.No
        → FoundNone (files design) n (O.written out.old) (O.written out.new) }
    ensures checked_in_time { (files : Files) → S.known_files shelf.old ≡ Some files → (n w ms : ℕ)
        → (design proof : Word) → CheckInTimeLine (texts_of words.now) n w ms design proof → result ≡ Status.Done
        → CheckedInTime (files design) n w ms (O.written out.old) (O.written out.new) }
    ensures tightest { (files : Files) → S.known_files shelf.old ≡ Some files → (n w : ℕ) (design proof : Word)
        → TightestLine (texts_of words.now) n w design proof → result ≡ Status.Done
        → FoundLeast (files design) n w (O.written out.old) (O.written out.new) }
    ensures no_time { (files : Files) → S.known_files shelf.old ≡ Some files → (n w : ℕ) (design proof : Word)
        → TightestLine (texts_of words.now) n w design proof → result ≡ Status.No
        → FoundNoTime (files design) n w (O.written out.old) (O.written out.new) }

    // A trial asks nothing of the shelf, so this holds over any.
    ensures tried { (seed size : ℕ) → request_of (texts_of words.now) ≡ Some (trial seed size)
        → ReportsTrial seed size result (O.written out.old) (O.written out.new) }

    ensures tried_by_line { (seed size : ℕ) → TrialLine (texts_of words.now) seed size
        → ReportsTrial seed size result (O.written out.old) (O.written out.new) }

    // Where nothing is refused, a run comes to a verdict, unless a search has spent a budget.
    ensures has_verdict { (files : Files) → S.known_files shelf.old ≡ Some files
        → IsUnrefused files (request_of (texts_of words.now)) → is_answered result ≡ true
        → HasVerdict files (request_of (texts_of words.now)) result }
    ensures usage { is_answered result ≡ true → (result ≡ Status.Usage) ↔ AsksForNothing (texts_of words.now) }

    // A fault comes only where its side has counted one.
    ensures shelf_fault { result ≡ Status.ShelfFault → Rose (S.fault_count shelf.old) (S.fault_count shelf.new) }
    ensures sink_fault { result ≡ Status.SinkFault → Rose (O.fault_count out.old) (O.fault_count out.new) }
    ensures shelf_count { S.fault_count shelf.old ≤ S.fault_count shelf.new }
    ensures sink_count { O.fault_count out.old ≤ O.fault_count out.new }

    // Nothing is stored but what a search proves, and nothing is asked for but the named files, in their order.
    ensures stored { Leaves (request_of (texts_of words.now)) result (S.known_files shelf.old)
        (S.known_files shelf.new) }
    ensures asked { GrowsByPrefix (S.asked shelf.old) (S.asked shelf.new) (asks_of (texts_of words.now)) }
{
    let mut unseen = NullSink;
    run_watched(alloc, words, shelf, out, &mut unseen)
}

/// Does what the words of a command line ask for, the first of which is the program's name: reads the files that they
/// name from the shelf, and prints the answer. All of its text is made before the first line is printed.
///
/// Where the shelf's files are known, the status and the text are those of the answer that these files give; want of
/// memory, a fault of the shelf or a fault of the sink may come in its place.
///
/// Where the words ask for it by `--progress`, a line is put to `progress` after each question of a search, and after a
/// thousand derived clauses at the most, which tells how far it is; want of memory and a fault there leave it out.
pub fn run_watched<S: Shelf, O: Sink, P: Sink>(
    alloc: Global,
    words: &[String],
    shelf: &mut S,
    out: &mut O,
    progress: &mut P,
) -> Status
    ensures answer { (files : Files) → S.known_files shelf.old ≡ Some files → (found : Ended)
        × Finds files (request_of (texts_of words.now)) found
        × Prints (answer_of files found (texts_of words.now)) result
        (O.written out.old) (O.written out.new) (O.puts out.old) (O.puts out.new) }

    // Over any shelf, also one of which nothing is known, that answer is printed for some bytes of the files.
    ensures for_some_files { PrintsSome (request_of (texts_of words.now)) result
        (O.written out.old) (O.written out.new) (O.puts out.old) (O.puts out.new) }

    // A simulation answers yes exactly where the plan is feasible, and a check only where the design has no plan.
    ensures met { (files : Files) → S.known_files shelf.old ≡ Some files → (d : Station) (plan : List (List Command))
        → Simulates files (texts_of words.now) d plan → is_answered result ≡ true
        → ReportsFeasible d plan result (O.written out.old) (O.written out.new) }
    ensures infeasible { (files : Files) → S.known_files shelf.old ≡ Some files → (n : ℕ) (d : Station)
        → Checks files (texts_of words.now) n d → result ≡ Status.Done
        → ReportsInfeasible n d (O.written out.old) (O.written out.new) }

    // A search prints a plan only where it is feasible, and that there is none only where there is none.
    ensures planned { (files : Files) → S.known_files shelf.old ≡ Some files → (n : ℕ) (d : Station)
        → (s : Searches files (texts_of words.now) n d) → result ≡ Status.Done
        → ReportsPlan s.mode n d (O.written out.old) (O.written out.new) }
    ensures proven { (files : Files) → S.known_files shelf.old ≡ Some files → (n : ℕ) (d : Station)
        → (s : Searches files (texts_of words.now) n d) → result ≡ Status.No
        → ReportsNone files s.design_name s.proof_name n d (O.written out.old) (O.written out.new)
        (S.known_files shelf.new) }

    // A search for the least time of a within prints a plan that is feasible in it, and that there is none only where there is
    // none whatever the time. The log that it stores shows that less time is too little.
    ensures found_least { (files : Files) → S.known_files shelf.old ≡ Some files → (n w : ℕ) (d : Station)
        → (s : TimeSearches files (texts_of words.now) n w d) → result ≡ Status.Done
        → ReportsLeast files s.design_name s.proof_name n w d (O.written out.old) (O.written out.new)
        (S.known_files shelf.new) }
    ensures found_no_time { (files : Files) → S.known_files shelf.old ≡ Some files → (n w : ℕ) (d : Station)
        → (s : TimeSearches files (texts_of words.now) n w d) → result ≡ Status.No
        → ReportsNoTime files s.design_name s.proof_name n w d (O.written out.old) (O.written out.new)
        (S.known_files shelf.new) }

    // The same in short, of plain command lines and of files by what they spell.
    ensures simulated { (files : Files) → S.known_files shelf.old ≡ Some files → (design plan : Word)
        → SimulateLine (texts_of words.now) design plan → IsVerdict result
        → Simulated (files design) (files plan) result }
    ensures checked { (files : Files) → S.known_files shelf.old ≡ Some files → (n : ℕ) (design proof : Word)
        → CheckLine (texts_of words.now) n design proof → result ≡ Status.Done
        → Checked (files design) n (O.written out.old) (O.written out.new) }
    ensures found { (files : Files) → S.known_files shelf.old ≡ Some files → (n : ℕ) (design proof : Word)
        → (line : VerifyLine (texts_of words.now) n design proof) → result ≡ Status.Done
        → Found line.mode (files design) n (O.written out.old) (O.written out.new) }
    ensures found_none { (files : Files) → S.known_files shelf.old ≡ Some files → (n : ℕ) (design proof : Word)
        → VerifyLine (texts_of words.now) n design proof → result ≡ Status.No
        → FoundNone (files design) n (O.written out.old) (O.written out.new) }
    ensures checked_in_time { (files : Files) → S.known_files shelf.old ≡ Some files → (n w ms : ℕ)
        → (design proof : Word) → CheckInTimeLine (texts_of words.now) n w ms design proof → result ≡ Status.Done
        → CheckedInTime (files design) n w ms (O.written out.old) (O.written out.new) }
    ensures tightest { (files : Files) → S.known_files shelf.old ≡ Some files → (n w : ℕ) (design proof : Word)
        → TightestLine (texts_of words.now) n w design proof → result ≡ Status.Done
        → FoundLeast (files design) n w (O.written out.old) (O.written out.new) }
    ensures no_time { (files : Files) → S.known_files shelf.old ≡ Some files → (n w : ℕ) (design proof : Word)
        → TightestLine (texts_of words.now) n w design proof → result ≡ Status.No
        → FoundNoTime (files design) n w (O.written out.old) (O.written out.new) }

    // A trial asks nothing of the shelf, so this holds over any.
    ensures tried { (seed size : ℕ) → request_of (texts_of words.now) ≡ Some (trial seed size)
        → ReportsTrial seed size result (O.written out.old) (O.written out.new) }

    ensures tried_by_line { (seed size : ℕ) → TrialLine (texts_of words.now) seed size
        → ReportsTrial seed size result (O.written out.old) (O.written out.new) }

    // Where nothing is refused, a run comes to a verdict, unless a search has spent a budget.
    ensures has_verdict { (files : Files) → S.known_files shelf.old ≡ Some files
        → IsUnrefused files (request_of (texts_of words.now)) → is_answered result ≡ true
        → HasVerdict files (request_of (texts_of words.now)) result }
    ensures usage { is_answered result ≡ true → (result ≡ Status.Usage) ↔ AsksForNothing (texts_of words.now) }

    // A fault comes only where its side has counted one.
    ensures shelf_fault { result ≡ Status.ShelfFault → Rose (S.fault_count shelf.old) (S.fault_count shelf.new) }
    ensures sink_fault { result ≡ Status.SinkFault → Rose (O.fault_count out.old) (O.fault_count out.new) }
    ensures shelf_count { S.fault_count shelf.old ≤ S.fault_count shelf.new }
    ensures sink_count { O.fault_count out.old ≤ O.fault_count out.new }

    // Nothing is stored but what a search proves, and nothing is asked for but the named files, in their order.
    ensures stored { Leaves (request_of (texts_of words.now)) result (S.known_files shelf.old)
        (S.known_files shelf.new) }
    ensures asked { GrowsByPrefix (S.asked shelf.old) (S.asked shelf.new) (asks_of (texts_of words.now)) }

    // Without the word nothing is told; and what is told are numbers of the search.
    ensures quiet { is_watched (texts_of words.now) ≡ false → progress.new ≡ progress.old }
    ensures tells { (files : Files) → S.known_files shelf.old ≡ Some files
        → Tells files (request_of (texts_of words.now)) (P.puts progress.old) (P.puts progress.new) }
{
    match reply(alloc, words, shelf, progress) {
        Ok(reply) => print(&reply, out),
        Err(Ending::RefusedWith(reply)) => print(&reply, out),
        Err(Ending::Memory) => Status::Memory,
        Err(Ending::ShelfFault) => Status::ShelfFault,
    }
}

/// The reply to a request.
fn request_reply<S: Shelf, P: Sink>(
    alloc: Global,
    shelf: &mut S,
    request: Request<'_>,
    progress: &mut P,
) -> Result<Reply, Ending>
    requires range { IsRequestInRange (request_seen request) }
    ensures replies { (files : Files) → S.known_files shelf.old ≡ Some files
        → RepliesSo result files (Some (request_seen request.entry)) }
    ensures for_some_files { RepliesSome result (Some (request_seen request.entry)) }
    ensures no_usage { IfOk result (λ reply. reply.status ≢ Status.Usage) }
    ensures refuses { RefusesFile result }
    ensures tries { Tries (Some (request_seen request.entry)) result }
    ensures decides { (files : Files) → S.known_files shelf.old ≡ Some files
        → DecidesRequest files (request_seen request.entry) result }
    ensures uses { Uses S.asked S.fault_count shelf.old shelf.new
        (asks_to (Some (request_seen request.entry))) (result ≡ Err Ending.ShelfFault) }
    ensures stored { OnEnd result
        (λ s. Leaves (Some (request_seen request.entry)) s (S.known_files shelf.old) (S.known_files shelf.new)) }
    ensures tells { (files : Files) → S.known_files shelf.old ≡ Some files
        → Tells files (Some (request_seen request.entry)) (P.puts progress.old) (P.puts progress.new) }
{
    match request {
        Request::Simulate { design, plan } => simulation_reply(alloc, shelf, design, plan),
        Request::Routes { design } => routes_reply(alloc, shelf, design),
        Request::Verify {
            steps,
            conflicts,
            ticks,
            mode,
            design,
            proof,
        } => search_reply(
            alloc,
            shelf,
            steps,
            mode,
            budgets(conflicts, ticks),
            design,
            proof,
            progress,
        ),
        Request::Tightest {
            steps,
            conflicts,
            ticks,
            within,
            bounds,
            design,
            proof,
        } => time_reply(
            alloc,
            shelf,
            steps,
            within,
            bounds,
            budgets(conflicts, ticks),
            design,
            proof,
            progress,
        ),
        Request::Check {
            steps,
            in_time,
            design,
            proof,
        } => check_reply(alloc, shelf, steps, in_time, design, proof),
        Request::Trial { seed, size } => trial_reply(alloc, seed, size, progress),
    }
}

/// The reply to what words ask for. How far a search is is told where they ask for that too.
fn asked_reply<S: Shelf, P: Sink>(
    alloc: Global,
    shelf: &mut S,
    asked: Asked<'_>,
    progress: &mut P,
) -> Result<Reply, Ending>
    requires range { IsRequestInRange (request_seen asked.request) }
    ensures replies { (files : Files) → S.known_files shelf.old ≡ Some files
        → RepliesSo result files (Some (request_seen asked.entry.request)) }
    ensures for_some_files { RepliesSome result (Some (request_seen asked.entry.request)) }
    ensures no_usage { IfOk result (λ reply. reply.status ≢ Status.Usage) }
    ensures refuses { RefusesFile result }
    ensures tries { Tries (Some (request_seen asked.entry.request)) result }
    ensures decides { (files : Files) → S.known_files shelf.old ≡ Some files
        → DecidesRequest files (request_seen asked.entry.request) result }
    ensures uses { Uses S.asked S.fault_count shelf.old shelf.new
        (asks_to (Some (request_seen asked.entry.request))) (result ≡ Err Ending.ShelfFault) }
    ensures stored { OnEnd result
        (λ s. Leaves (Some (request_seen asked.entry.request)) s (S.known_files shelf.old) (S.known_files shelf.new)) }
    ensures tells { (files : Files) → S.known_files shelf.old ≡ Some files
        → Tells files (Some (request_seen asked.entry.request)) (P.puts progress.old) (P.puts progress.new) }
    ensures quiet { asked.entry.watched ≡ false → progress.new ≡ progress.old }
{
    if asked.watched {
        return request_reply(alloc, shelf, asked.request, progress);
    }
    let mut unseen = NullSink;
    request_reply(alloc, shelf, asked.request, &mut unseen)
}

/// The reply to the words of a command line.
fn reply<S: Shelf, P: Sink>(
    alloc: Global,
    words: &[String],
    shelf: &mut S,
    progress: &mut P,
) -> Result<Reply, Ending>
    ensures replies { (files : Files) → S.known_files shelf.old ≡ Some files
        → RepliesSo result files (request_of (texts_of words.now)) }
    ensures for_some_files { RepliesSome result (request_of (texts_of words.now)) }
    ensures tries { Tries (request_of (texts_of words.now)) result }
    ensures done { (files : Files) → S.known_files shelf.old ≡ Some files
        → OnReply result (λ reply. DoneWhereFeasible files (texts_of words.now) reply.status) }
    ensures usage { OnReply result (λ reply. (reply.status ≡ Status.Usage) ↔ (request_of (texts_of words.now) ≡ None)) }
    ensures uses { Uses S.asked S.fault_count shelf.old shelf.new
        (asks_of (texts_of words.now)) (result ≡ Err Ending.ShelfFault) }
    ensures stored { OnEnd result (λ s.
        Leaves (request_of (texts_of words.now)) s (S.known_files shelf.old) (S.known_files shelf.new)) }
    ensures quiet { is_watched (texts_of words.now) ≡ false → progress.new ≡ progress.old }
    ensures tells { (files : Files) → S.known_files shelf.old ≡ Some files
        → Tells files (request_of (texts_of words.now)) (P.puts progress.old) (P.puts progress.new) }
{
    match read_asked(alloc, words) {
        Ok(asked) => asked_reply(alloc, shelf, asked, progress),
        Err(WordsFault::Usage) => Ok(usage(alloc)?),
        Err(WordsFault::Memory) => Err(Ending::Memory),
    }
}
