//! What words ask for.

ghost use Rattle.std.specs.Prelude.{◌≡◌, ◌++◌, [], IfOk, OnOk, Some, None, Err, option_map};
ghost use Rattle.rail_words.specs.Requests.{request_of};
ghost use Rattle.rail_words.specs.Words.{request_seen, texts_of};
ghost use Rattle.design_cli.specs.Wanted.{IsInRange, asks_for_plan, by_request, command_for, form_of, rcv_words};
ghost use Rattle.design_cli.specs.Words.{wanted_by};

use rail_words::{Request, WordsFault, read_words};
use std::alloc::{AllocError, Global};

/// How the routes of a plan are printed.
#[derive(Clone, Copy, Debug, PartialEq, Eq)]
pub(crate) enum Form {
    /// By the names of their edges.
    Names,
    /// By their numbers.
    Numbers,
}

/// The design or the plan that is to be printed.
#[derive(Clone, Copy, Debug, PartialEq, Eq)]
pub(crate) enum Wanted<'a> {
    /// The design in the file of a name.
    InFile {
        design: &'a str,
    },
    /// The station that a trial makes of a seed, of 1 to 6 tracks and trains.
    OfTrial {
        seed: u64,
        size: u32,
    },
    /// The plan in a file over the design in another one, which has the routes in the other form.
    OfPlan {
        form: Form,
        design: &'a str,
        plan: &'a str,
    },
}

/// The form that the first word behind the program's name asks for.
pub(crate) fn form_of(words: &[String]) -> Form
    ensures { result ≡ form_of (texts_of words.now) }
{
    match words {
        [_, first, ..] if first.as_str() == "--numbers" => Form::Numbers,
        _ => Form::Names,
    }
}

/// The words by which `rcv` is asked for the same files: `trial` in place of `--trial`, `simulate` in place of `--plan`
/// and `--numbers`, or else `routes` before all others. The error is want of memory.
pub(crate) fn rcv_words(alloc: Global, words: &[String]) -> Result<Vec<String>, AllocError>
    ensures { IfOk result (λ more. texts_of more.items ≡ rcv_words (texts_of words.now)) }
{
    let mut more = Vec::new(alloc);
    match words {
        [] => {}
        [program, rest @ ..] => {
            more.push(String::from_str(alloc, program.as_str())?)?;
            push_asked(alloc, rest, &mut more)?;
        }
    }
    Ok(more)
}

/// Appends the words behind the program's name. The error is want of memory.
fn push_asked(alloc: Global, words: &[String], more: &mut Vec<String>) -> Result<(), AllocError>
    ensures { OnOk result (texts_of more.new.items ≡ texts_of more.old.items ++ command_for (texts_of words.now)) }
{
    match words {
        [first, rest @ ..] if first.as_str() == "--trial" => {
            more.push(String::from_str(alloc, "trial")?)?;
            push_words(alloc, rest, more)?;
        }
        [first, rest @ ..] if asks_for_plan(first.as_str()) => {
            more.push(String::from_str(alloc, "simulate")?)?;
            push_words(alloc, rest, more)?;
        }
        _ => {
            more.push(String::from_str(alloc, "routes")?)?;
            push_words(alloc, words, more)?;
        }
    }
    Ok(())
}

/// Whether a word asks for a plan.
fn asks_for_plan(word: &str) -> bool
    ensures { result ≡ asks_for_plan word.now }
{
    word == "--plan" || word == "--numbers"
}

/// Appends copies of words. The error is want of memory.
fn push_words(alloc: Global, words: &[String], more: &mut Vec<String>) -> Result<(), AllocError>
    ensures { OnOk result (texts_of more.new.items ≡ texts_of more.old.items ++ texts_of words.now) }
{
    for word in words {
        more.push(String::from_str(alloc, word.as_str())?)?;
    }
    Ok(())
}

/// The design for a request to list its routes, or to try a station, and the plan in a form for one to simulate it.
fn by_request<'a>(form: Form, request: Request<'a>) -> Option<Wanted<'a>>
    ensures { option_map wanted_by result ≡ by_request form (Some (request_seen request.entry)) }
{
    match request {
        Request::Routes { design } => Some(Wanted::InFile { design }),
        Request::Trial { seed, size } => Some(Wanted::OfTrial { seed, size }),
        Request::Simulate { design, plan } => Some(Wanted::OfPlan { form, design, plan }),
        Request::Verify { .. } => None,
        Request::Tightest { .. } => None,
        Request::Check { .. } => None,
    }
}

/// What words ask for in a form, given as they ask `rcv`.
pub(crate) fn read_wanted<'a>(
    alloc: Global,
    form: Form,
    words: &'a [String],
) -> Result<Wanted<'a>, WordsFault>
    ensures ok { IfOk result (λ wanted.
        by_request form (request_of (texts_of words.entry.now)) ≡ Some (wanted_by wanted)) }
    ensures usage { result ≡ Err WordsFault.Usage
        → by_request form (request_of (texts_of words.entry.now)) ≡ None }
    ensures range { IfOk result (λ wanted. IsInRange (wanted_by wanted)) }
{
    match read_words(alloc, words) {
        Ok(request) => by_request(form, request).ok_or(WordsFault::Usage),
        Err(fault) => Err(fault),
    }
}
