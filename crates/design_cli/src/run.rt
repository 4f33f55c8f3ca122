//! The top call.

ghost use Rattle.std.specs.Prelude.{◌≡◌, ◌≤◌, ◌↔◌, true, None, Ok, Some, ℕ, List};
ghost use Rattle.rail_base.specs.Admission.{is_admitted};
ghost use Rattle.rail_base.specs.declared.station.Station.{Station};
ghost use Rattle.rail_outside.specs.Files.{Files};
ghost use Rattle.rail_outside.specs.Growth.{Rose, GrowsByPrefix};
ghost use Rattle.rail_words.specs.Requests.{request_of};
ghost use Rattle.rail_words.specs.Words.{texts_of};
ghost use Rattle.cli_shell.specs.Statuses.{is_answered};
ghost use Rattle.design_cli.specs.Answers.{answer_to, asks_to, design_asked, design_in_file, design_used};
ghost use Rattle.design_cli.specs.Answers.{names_in};
ghost use Rattle.design_cli.specs.Laws.{PrintsPlan};
ghost use Rattle.design_cli.specs.Reports.{PrintsDesign, PrintsSome, Reports};
ghost use Rattle.design_cli.specs.declared.wanted.Form.{Form};
ghost use Rattle.design_cli.specs.Wanted.{IsInRange, by_request, of_plan, wanted_of};
ghost use Rattle.design_cli.specs.Words.{wanted_by};

use crate::plans::{interlocking_in, plan_reply};
use crate::printing::{print_for_file, print_reply};
use crate::replies::{file_reply, made_reply, usage};
use crate::wanted::{Form, Wanted, form_of, rcv_words, read_wanted};
use cli_shell::Status;
use rail_outside::{Shelf, Sink};
use rail_words::WordsFault;
use std::alloc::{AllocError, Global};

/// Does what the words of a command line ask for, the first of which is the program's name: reads the design that they
/// name from the shelf, or makes the station of a trial, and prints it, an entry a line; or reads the design and a plan
/// over it, and prints the plan with the names of edges in place of route numbers, or the other way round. All of its
/// text is made before the first line is printed.
///
/// Where the shelf's files are known, what is printed is the answer for these files: what `rcv routes` or
/// `rcv simulate` answers where it refuses one of them, and else the status 0 and the lines of the design or the plan.
/// Want of memory, a fault of the shelf, with a line that names the file, or a fault of the sink may come in its place.
pub fn run_design<S: Shelf, O: Sink>(
    alloc: Global,
    words: &[String],
    shelf: &mut S,
    out: &mut O,
) -> Status
    ensures answer { (files : Files) → S.known_files shelf.old ≡ Some files
        → let wanted = wanted_of (texts_of words.now) in Reports (answer_to files wanted) (names_in wanted) result
        (O.written out.old) (O.written out.new) (O.puts out.old) (O.puts out.new) }

    // Over any shelf, also one of which nothing is known, the answer for some bytes of the files is printed.
    ensures for_some_files { PrintsSome (wanted_of (texts_of words.now)) result
        (O.written out.old) (O.written out.new) (O.puts out.old) (O.puts out.new) }

    // What is printed of a design is read as that design.
    ensures reads_back { (files : Files) → S.known_files shelf.old ≡ Some files → (d : Station)
        → design_asked files (wanted_of (texts_of words.now)) ≡ Ok d → result ≡ Status.Done
        → PrintsDesign d (O.written out.old) (O.written out.new) }

    // What is printed of a plan is read as that plan.
    ensures comes_back { (files : Files) → S.known_files shelf.old ≡ Some files
        → (form : Form) (design plan : List ℕ) → wanted_of (texts_of words.now) ≡ Some (of_plan form design plan)
        → result ≡ Status.Done
        → PrintsPlan form (files design) (files plan) (O.written out.old) (O.written out.new) }

    // Status 2 comes exactly where the words ask for nothing.
    ensures usage { is_answered result ≡ true → (result ≡ Status.Usage) ↔ (wanted_of (texts_of words.now) ≡ None) }

    // A fault comes only where its side has counted one.
    ensures shelf_fault { result ≡ Status.ShelfFault → Rose (S.fault_count shelf.old) (S.fault_count shelf.new) }
    ensures sink_fault { result ≡ Status.SinkFault → Rose (O.fault_count out.old) (O.fault_count out.new) }
    ensures shelf_count { S.fault_count shelf.old ≤ S.fault_count shelf.new }
    ensures sink_count { O.fault_count out.old ≤ O.fault_count out.new }

    // Nothing is stored, and nothing is asked for but the named files, in their order.
    ensures stored { S.known_files shelf.new ≡ S.known_files shelf.old }
    ensures asked { GrowsByPrefix (S.asked shelf.old) (S.asked shelf.new) (asks_to (wanted_of (texts_of words.now))) }
{
    match rcv_words(alloc, words) {
        Ok(asked) => run_asked(alloc, form_of(words), asked.as_slice(), shelf, out),
        Err(AllocError) => Status::Memory,
    }
}

/// Does the same for what `rcv` is asked for, with plans in a form.
fn run_asked<S: Shelf, O: Sink>(
    alloc: Global,
    form: Form,
    words: &[String],
    shelf: &mut S,
    out: &mut O,
) -> Status
    ensures answer { (files : Files) → S.known_files shelf.old ≡ Some files
        → let wanted = by_request form (request_of (texts_of words.now)) in
        Reports (answer_to files wanted) (names_in wanted) result
        (O.written out.old) (O.written out.new) (O.puts out.old) (O.puts out.new) }
    ensures for_some_files { PrintsSome (by_request form (request_of (texts_of words.now))) result
        (O.written out.old) (O.written out.new) (O.puts out.old) (O.puts out.new) }
    ensures admitted { (files : Files) → S.known_files shelf.old ≡ Some files → (d : Station)
        → design_used files (by_request form (request_of (texts_of words.now))) ≡ Ok d → result ≡ Status.Done
        → is_admitted d ≡ true }
    ensures shelf_fault { result ≡ Status.ShelfFault → Rose (S.fault_count shelf.old) (S.fault_count shelf.new) }
    ensures sink_fault { result ≡ Status.SinkFault → Rose (O.fault_count out.old) (O.fault_count out.new) }
    ensures shelf_count { S.fault_count shelf.old ≤ S.fault_count shelf.new }
    ensures sink_count { O.fault_count out.old ≤ O.fault_count out.new }
    ensures stored { S.known_files shelf.new ≡ S.known_files shelf.old }
    ensures asked { GrowsByPrefix (S.asked shelf.old) (S.asked shelf.new)
        (asks_to (by_request form (request_of (texts_of words.now)))) }
{
    match read_wanted(alloc, form, words) {
        Ok(wanted) => run_wanted(alloc, wanted, shelf, out),
        Err(WordsFault::Usage) => print_reply(usage(alloc), out),
        Err(WordsFault::Memory) => Status::Memory,
    }
}

/// Prints the design or the plan that is wanted.
fn run_wanted<S: Shelf, O: Sink>(
    alloc: Global,
    wanted: Wanted<'_>,
    shelf: &mut S,
    out: &mut O,
) -> Status
    requires { IsInRange (wanted_by wanted) }
    ensures answer { (files : Files) → S.known_files shelf.old ≡ Some files
        → let wanted = Some (wanted_by wanted.entry) in
        Reports (answer_to files wanted) (names_in wanted) result
        (O.written out.old) (O.written out.new) (O.puts out.old) (O.puts out.new) }
    ensures for_some_files { PrintsSome (Some (wanted_by wanted.entry)) result
        (O.written out.old) (O.written out.new) (O.puts out.old) (O.puts out.new) }
    ensures admitted { (files : Files) → S.known_files shelf.old ≡ Some files → (d : Station)
        → design_used files (Some (wanted_by wanted.entry)) ≡ Ok d → result ≡ Status.Done → is_admitted d ≡ true }
    ensures shelf_fault { result ≡ Status.ShelfFault → Rose (S.fault_count shelf.old) (S.fault_count shelf.new) }
    ensures sink_fault { result ≡ Status.SinkFault → Rose (O.fault_count out.old) (O.fault_count out.new) }
    ensures shelf_count { S.fault_count shelf.old ≤ S.fault_count shelf.new }
    ensures sink_count { O.fault_count out.old ≤ O.fault_count out.new }
    ensures stored { S.known_files shelf.new ≡ S.known_files shelf.old }
    ensures asked { GrowsByPrefix (S.asked shelf.old) (S.asked shelf.new) (asks_to (Some (wanted_by wanted.entry))) }
{
    match wanted {
        Wanted::InFile { design } => {
            let reply = file_reply(alloc, shelf, design);
            print_for_file(alloc, reply, design, out)
        }
        Wanted::OfTrial { seed, size } => {
            let reply = made_reply(alloc, seed, size);
            print_reply(reply, out)
        }
        Wanted::OfPlan { form, design, plan } => run_plan(alloc, form, design, plan, shelf, out),
    }
}

/// Prints the plan in a file over the design in another one, in a form.
fn run_plan<S: Shelf, O: Sink>(
    alloc: Global,
    form: Form,
    design: &str,
    plan: &str,
    shelf: &mut S,
    out: &mut O,
) -> Status
    ensures answer { (files : Files) → S.known_files shelf.old ≡ Some files
        → let wanted = Some (of_plan form design.now plan.now) in
        Reports (answer_to files wanted) (names_in wanted) result
        (O.written out.old) (O.written out.new) (O.puts out.old) (O.puts out.new) }
    ensures for_some_files { PrintsSome (Some (of_plan form design.now plan.now)) result
        (O.written out.old) (O.written out.new) (O.puts out.old) (O.puts out.new) }
    ensures admitted { (files : Files) → S.known_files shelf.old ≡ Some files → (d : Station)
        → design_in_file (files design.now) ≡ Ok d → result ≡ Status.Done → is_admitted d ≡ true }
    ensures shelf_fault { result ≡ Status.ShelfFault → Rose (S.fault_count shelf.old) (S.fault_count shelf.new) }
    ensures sink_fault { result ≡ Status.SinkFault → Rose (O.fault_count out.old) (O.fault_count out.new) }
    ensures shelf_count { S.fault_count shelf.old ≤ S.fault_count shelf.new }
    ensures sink_count { O.fault_count out.old ≤ O.fault_count out.new }
    ensures stored { S.known_files shelf.new ≡ S.known_files shelf.old }
    ensures asked { GrowsByPrefix (S.asked shelf.old) (S.asked shelf.new)
        (asks_to (Some (of_plan form design.now plan.now))) }
{
    match interlocking_in(alloc, shelf, design) {
        Ok(interlocking) => {
            let reply = plan_reply(alloc, shelf, &interlocking, form, plan);
            print_for_file(alloc, reply, plan, out)
        }
        Err(ending) => print_for_file(alloc, Err(ending), design, out),
    }
}
