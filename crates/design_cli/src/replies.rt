//! The reply to what is wanted.

ghost use Rattle.std.specs.Prelude.{◌≡◌, ◌≢◌, ◌≤◌, [], ◌∷◌, true, IfOk, Ok, Some, Err, ℕ, List};
ghost use Rattle.rail_base.specs.Admission.{is_admitted};
ghost use Rattle.rail_base.specs.declared.station.Station.{Station};
ghost use Rattle.rail_outside.specs.Asks.{fetched};
ghost use Rattle.rail_outside.specs.Files.{Files};
ghost use Rattle.cli_shell.specs.Uses.{OnlyFetches};
ghost use Rattle.cli_shell.specs.Answers.{design_in};
ghost use Rattle.cli_shell.specs.Replies.{OnReply, Replies, RepliesWith};
ghost use Rattle.workload.specs.Made.{made};
ghost use Rattle.design_cli.specs.Answers.{design_in_file, file_answer, printed, text_answer, usage};
ghost use Rattle.design_cli.specs.Answers.{usage_line};

use cli_shell::{Ending, InputFile, Reply, Status, admit, fetch, one_line};
use design_text::design_lines;
use rail_base::design::Design;
use rail_outside::Shelf;
use std::alloc::{AllocError, Global};
use workload::make;

/// The words ask for nothing.
pub(crate) fn usage(alloc: Global) -> Result<Reply, AllocError>
    ensures { RepliesWith result usage }
{
    one_line(alloc, Status::Usage, usage_line(alloc)?)
}

/// How the program is used.
fn usage_line(alloc: Global) -> Result<Vec<u8>, AllocError>
    ensures { IfOk result (λ line. line.items ≡ usage_line) }
{
    let mut line = Vec::from_slice(
        alloc,
        b"usage: rcv_design DESIGN; rcv_design --trial SEED SIZE; rcv_design --plan DESIGN PLAN; ",
    )?;
    line.extend_from_slice(b"rcv_design --numbers DESIGN PLAN\n")?;
    Ok(line)
}

/// The lines of a design.
fn printed(alloc: Global, design: &Design) -> Result<Reply, AllocError>
    ensures { RepliesWith result (printed design.now.station) }
{
    let lines = design_lines(alloc, design)?;
    Ok(Reply {
        status: Status::Done,
        lines,
    })
}

/// The station that a trial makes.
pub(crate) fn made_reply(alloc: Global, seed: u64, size: u32) -> Result<Reply, AllocError>
    requires at_least_one { 1 ≤ size }
    requires at_most_six { size ≤ 6 }
    ensures { RepliesWith result (printed (made seed size)) }
{
    let design = make(alloc, seed, size)?;
    let reply = printed(alloc, &design)?;
    Ok(reply)
}

/// The design in the text of a file.
fn text_reply(alloc: Global, text: &[u8]) -> Result<Reply, Ending>
    ensures replies { Replies result (text_answer text.now) }
    ensures admitted { (d : Station) → design_in text.now ≡ Ok d → OnReply result (λ reply. is_admitted d ≡ true) }
    ensures no_fault { result ≢ Err Ending.ShelfFault }
{
    let interlocking = admit(alloc, text)?;
    let reply = printed(alloc, &interlocking.design)?;
    Ok(reply)
}

/// The design in the file of a name.
pub(crate) fn file_reply<S: Shelf>(
    alloc: Global,
    shelf: &mut S,
    design: &str,
) -> Result<Reply, Ending>
    ensures replies { (files : Files) → S.known_files shelf.old ≡ Some files
        → Replies result (file_answer (files design.now)) }
    ensures for_some_bytes { (bytes : List ℕ) × Replies result (file_answer bytes) }
    ensures admitted { (files : Files) → S.known_files shelf.old ≡ Some files → (d : Station)
        → design_in_file (files design.now) ≡ Ok d → OnReply result (λ reply. is_admitted d ≡ true) }
    ensures uses { OnlyFetches S.known_files S.asked S.fault_count shelf.old shelf.new
        (fetched design.now ∷ []) (result ≡ Err Ending.ShelfFault) }
{
    let bytes = fetch(alloc, shelf, InputFile::Design, design)?;
    text_reply(alloc, bytes.as_slice())
}
