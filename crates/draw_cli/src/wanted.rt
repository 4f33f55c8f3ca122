//! What words ask for.

ghost use Rattle.std.specs.Prelude.{◌≡◌, ◌++◌, IfOk, OnOk, Some, None, Err, option_map};
ghost use Rattle.rail_words.specs.Requests.{request_of};
ghost use Rattle.rail_words.specs.Words.{request_seen, texts_of};
ghost use Rattle.draw_cli.specs.Wanted.{by_routes, by_simulate, routes_or_simulate, wanted_of, words_with_command};
ghost use Rattle.draw_cli.specs.Words.{asked_by, wanted_by};

use rail_words::{Request, WordsFault, read_words};
use std::alloc::{AllocError, Global};

/// A drawing, of the files of these names.
#[derive(Clone, Copy, Debug, PartialEq, Eq)]
pub(crate) enum Wanted<'a> {
    /// Of the track of a design.
    Track { design: &'a str },
    /// Of the run of a plan over a design.
    Run { design: &'a str, plan: &'a str },
}

/// The words of a command line, given with `routes` and with `simulate` after the program's name.
#[derive(Drop)]
pub(crate) struct CommandWords {
    pub(crate) routes: Vec<String>,
    pub(crate) simulate: Vec<String>,
}

/// Those for the words of a command line. The error is want of memory.
pub(crate) fn both_words(alloc: Global, words: &[String]) -> Result<CommandWords, AllocError>
    ensures { IfOk result (λ both. asked_by both ≡ wanted_of (texts_of words.now)) }
{
    let routes = words_with_command(alloc, "routes", words)?;
    let simulate = words_with_command(alloc, "simulate", words)?;
    Ok(CommandWords { routes, simulate })
}

/// The words with a command after the program's name. The error is want of memory.
fn words_with_command(
    alloc: Global,
    command: &str,
    words: &[String],
) -> Result<Vec<String>, AllocError>
    ensures { IfOk result (λ more. texts_of more.items ≡ words_with_command command.now (texts_of words.now)) }
{
    let mut more = Vec::new(alloc);
    match words {
        [] => {}
        [program, rest @ ..] => {
            more.push(String::from_str(alloc, program.as_str())?)?;
            more.push(String::from_str(alloc, command)?)?;
            push_words(alloc, rest, &mut more)?;
        }
    }
    Ok(more)
}

/// The drawing that words ask for, given with `routes` and with `simulate` after the program's name.
pub(crate) fn read_wanted<'a>(
    alloc: Global,
    routes: &'a [String],
    simulate: &'a [String],
) -> Result<Wanted<'a>, WordsFault>
    ensures ok { IfOk result (λ wanted.
        routes_or_simulate (texts_of routes.entry.now) (texts_of simulate.entry.now) ≡ Some (wanted_by wanted)) }
    ensures usage { result ≡ Err WordsFault.Usage
        → routes_or_simulate (texts_of routes.entry.now) (texts_of simulate.entry.now) ≡ None }
{
    match track_wanted(alloc, routes) {
        Ok(wanted) => Ok(wanted),
        Err(WordsFault::Usage) => run_wanted(alloc, simulate),
        Err(WordsFault::Memory) => Err(WordsFault::Memory),
    }
}

/// Appends copies of words. The error is want of memory.
fn push_words(alloc: Global, words: &[String], more: &mut Vec<String>) -> Result<(), AllocError>
    ensures { OnOk result (texts_of more.new.items ≡ texts_of more.old.items ++ texts_of words.now) }
{
    for word in words {
        more.push(String::from_str(alloc, word.as_str())?)?;
    }
    Ok(())
}

/// The drawing for a request to list routes.
fn by_routes<'a>(request: Request<'a>) -> Option<Wanted<'a>>
    ensures { option_map wanted_by result ≡ by_routes (Some (request_seen request.entry)) }
{
    match request {
        Request::Routes { design } => Some(Wanted::Track { design }),
        Request::Simulate { .. } => None,
        Request::Verify { .. } => None,
        Request::Tightest { .. } => None,
        Request::Check { .. } => None,
        Request::Trial { .. } => None,
    }
}

/// The drawing for a request to simulate.
fn by_simulate<'a>(request: Request<'a>) -> Option<Wanted<'a>>
    ensures { option_map wanted_by result ≡ by_simulate (Some (request_seen request.entry)) }
{
    match request {
        Request::Simulate { design, plan } => Some(Wanted::Run { design, plan }),
        Request::Routes { .. } => None,
        Request::Verify { .. } => None,
        Request::Tightest { .. } => None,
        Request::Check { .. } => None,
        Request::Trial { .. } => None,
    }
}

/// The drawing that words with `routes` among them ask for.
fn track_wanted<'a>(alloc: Global, words: &'a [String]) -> Result<Wanted<'a>, WordsFault>
    ensures ok { IfOk result (λ wanted.
        by_routes (request_of (texts_of words.entry.now)) ≡ Some (wanted_by wanted)) }
    ensures usage { result ≡ Err WordsFault.Usage → by_routes (request_of (texts_of words.entry.now)) ≡ None }
{
    match read_words(alloc, words) {
        Ok(request) => by_routes(request).ok_or(WordsFault::Usage),
        Err(fault) => Err(fault),
    }
}

/// The drawing that words with `simulate` among them ask for.
fn run_wanted<'a>(alloc: Global, words: &'a [String]) -> Result<Wanted<'a>, WordsFault>
    ensures ok { IfOk result (λ wanted.
        by_simulate (request_of (texts_of words.entry.now)) ≡ Some (wanted_by wanted)) }
    ensures usage { result ≡ Err WordsFault.Usage → by_simulate (request_of (texts_of words.entry.now)) ≡ None }
{
    match read_words(alloc, words) {
        Ok(request) => by_simulate(request).ok_or(WordsFault::Usage),
        Err(fault) => Err(fault),
    }
}
