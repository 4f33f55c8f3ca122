//! The reply to a plan that is wanted.

ghost use Rattle.std.specs.Prelude.{◌≡◌, ◌≢◌, [], ◌∷◌, IfOk, OnOk, Some, Err, ℕ, List};
ghost use Rattle.rail_outside.specs.Asks.{fetched};
ghost use Rattle.rail_outside.specs.Files.{Files};
ghost use Rattle.rail_outside.specs.Growth.{grown};
ghost use Rattle.rail_outside.specs.Lines.{lines_of};
ghost use Rattle.rail_spec.specs.Feasible.{IsRunnable};
ghost use Rattle.rail_spec.specs.Track.{routes_of};
ghost use Rattle.cli_shell.specs.Uses.{OnlyFetches};
ghost use Rattle.cli_shell.specs.Replies.{ReadsOrEnds, Replies, RepliesWith};
ghost use Rattle.cli_shell.specs.Texts.{plan_line};
ghost use Rattle.design_cli.specs.Answers.{design_in_file, plan_file_answer, plan_given, plan_lines};
ghost use Rattle.design_cli.specs.Answers.{plan_printed, plan_text_answer};

use crate::wanted::Form;
use cli_shell::{Ending, InputFile, Reply, Status, admit, fetch, plan_line, read_steps};
use interlocking::Interlocking;
use named_plans::{named_lines, numbered_text};
use rail_base::design::Design;
use rail_base::plan::Plan;
use rail_outside::Shelf;
use std::alloc::{AllocError, Global};

/// The design in the file of a name, with its routes.
pub(crate) fn interlocking_in<S: Shelf>(
    alloc: Global,
    shelf: &mut S,
    design: &str,
) -> Result<Interlocking, Ending>
    ensures reads { (files : Files) → S.known_files shelf.old ≡ Some files
        → ReadsOrEnds (λ i. i.design.station) result (design_in_file (files design.now)) }
    ensures for_some_bytes { (bytes : List ℕ) × ReadsOrEnds (λ i. i.design.station) result (design_in_file bytes) }
    ensures uses { OnlyFetches S.known_files S.asked S.fault_count shelf.old shelf.new
        (fetched design.now ∷ []) (result ≡ Err Ending.ShelfFault) }
    ensures asked { OnOk result (S.asked shelf.new ≡ grown (S.asked shelf.old) (fetched design.now ∷ [])) }
{
    let bytes = fetch(alloc, shelf, InputFile::Design, design)?;
    admit(alloc, bytes.as_slice())
}

/// The plan in the file of a name, printed in a form.
pub(crate) fn plan_reply<S: Shelf>(
    alloc: Global,
    shelf: &mut S,
    interlocking: &Interlocking,
    form: Form,
    plan: &str,
) -> Result<Reply, Ending>
    ensures replies { (files : Files) → S.known_files shelf.old ≡ Some files
        → Replies result (plan_file_answer form (files plan.now) interlocking.now.design.station) }
    ensures for_some_bytes { (bytes : List ℕ)
        × Replies result (plan_file_answer form bytes interlocking.now.design.station) }
    ensures uses { OnlyFetches S.known_files S.asked S.fault_count shelf.old shelf.new
        (fetched plan.now ∷ []) (result ≡ Err Ending.ShelfFault) }
{
    let bytes = fetch(alloc, shelf, InputFile::Plan, plan)?;
    plan_text_reply(alloc, interlocking, form, bytes.as_slice())
}

/// The plan in a text, printed in a form.
fn plan_text_reply(
    alloc: Global,
    interlocking: &Interlocking,
    form: Form,
    text: &[u8],
) -> Result<Reply, Ending>
    ensures replies { Replies result (plan_text_answer form interlocking.now.design.station text.now) }
    ensures no_fault { result ≢ Err Ending.ShelfFault }
{
    let plan = plan_given(alloc, interlocking, form, text)?;
    let reply = plan_printed(alloc, interlocking, form, &plan)?;
    Ok(reply)
}

/// The plan in a text that has it in the other form.
fn plan_given(
    alloc: Global,
    interlocking: &Interlocking,
    form: Form,
    text: &[u8],
) -> Result<Plan, Ending>
    ensures reads { ReadsOrEnds (λ p. p.steps) result (plan_given form interlocking.now.design.station text.now) }
    ensures no_fault { result ≢ Err Ending.ShelfFault }
    ensures runnable { let d = interlocking.now.design.station in
        IfOk result (λ p. IsRunnable d (routes_of d) 256 p.steps) }
{
    match form {
        Form::Names => read_steps(alloc, interlocking, text),
        Form::Numbers => {
            let numbered = numbered_text(alloc, interlocking, text)?;
            read_steps(alloc, interlocking, numbered.as_slice())
        }
    }
}

/// The lines of a plan in a form.
fn plan_printed(
    alloc: Global,
    interlocking: &Interlocking,
    form: Form,
    plan: &Plan,
) -> Result<Reply, AllocError>
    requires runnable { let d = interlocking.now.design.station in IsRunnable d (routes_of d) 256 plan.now.steps }
    ensures { RepliesWith result (plan_printed form interlocking.now.design.station plan.now.steps) }
{
    let lines = plan_lines(alloc, interlocking, form, plan)?;
    Ok(Reply {
        status: Status::Done,
        lines,
    })
}

/// The lines themselves.
fn plan_lines(
    alloc: Global,
    interlocking: &Interlocking,
    form: Form,
    plan: &Plan,
) -> Result<Vec<Vec<u8>>, AllocError>
    requires runnable { let d = interlocking.now.design.station in IsRunnable d (routes_of d) 256 plan.now.steps }
    ensures { IfOk result (λ lines. lines_of lines.items
        ≡ plan_lines form interlocking.now.design.station plan.now.steps) }
{
    match form {
        Form::Names => named_lines(alloc, interlocking, plan),
        Form::Numbers => numbered_lines(alloc, &interlocking.design, plan),
    }
}

/// The line of a plan with numbers.
fn numbered_lines(alloc: Global, design: &Design, plan: &Plan) -> Result<Vec<Vec<u8>>, AllocError>
    ensures { IfOk result (λ lines. lines_of lines.items ≡ plan_line design.now.station plan.now.steps ∷ []) }
{
    let mut lines = Vec::new(alloc);
    lines.push(plan_line(alloc, design, plan)?)?;
    Ok(lines)
}
