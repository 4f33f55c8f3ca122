//! What words ask for.

ghost use Rattle.std.specs.Prelude.{◌≡◌, ◌++◌, IfOk, IfSome, OnOk, Some, None, Err, codes, option_map};
ghost use Rattle.rail_words.specs.Laws.{is_plain};
ghost use Rattle.rail_words.specs.Words.{request_seen, texts_of};
ghost use Rattle.rail_words.specs.Requests.{IsInTimeInRange, request_of};
ghost use Rattle.why_words.specs.Wanted.{AreStepsInRange, both_named, by_check, check_words, named, names_alone};
ghost use Rattle.why_words.specs.Wanted.{names_in_time, of_design, options_named, wanted_of, words_with_proof};
ghost use Rattle.why_words.specs.Words.{wanted_by};

use rail_words::{InTime, Request, WordsFault, read_in_time, read_words};
use std::alloc::{AllocError, Global};

/// What is to be said of a design, or of it and another file, each by its file's name.
#[derive(Clone, Copy, Debug, PartialEq, Eq)]
pub struct Wanted<'a> {
    /// For plans of so many steps, 1 to 256, where they are given.
    pub steps: Option<u32>,
    /// A greatest time that is put into a within of the design, where one is given.
    pub in_time: Option<InTime>,
    pub design: &'a str,
    /// A proof or a plan.
    pub file: Option<&'a str>,
}

/// The words with `check` after the program's name. The error is want of memory.
pub fn check_words(alloc: Global, words: &[String]) -> Result<Vec<String>, AllocError>
    ensures { IfOk result (λ more. texts_of more.items ≡ check_words (texts_of words.now)) }
{
    let mut more = Vec::new(alloc);
    match words {
        [] => {}
        [program, rest @ ..] => {
            more.push(String::from_str(alloc, program.as_str())?)?;
            more.push(String::from_str(alloc, "check")?)?;
            push_words(alloc, rest, &mut more)?;
        }
    }
    Ok(more)
}

/// The words with `check` after the program's name and a name of a proof behind them. The error is want of memory.
pub fn words_with_proof(alloc: Global, words: &[String]) -> Result<Vec<String>, AllocError>
    ensures { IfOk result (λ more. texts_of more.items ≡ words_with_proof (texts_of words.now)) }
{
    let mut more = check_words(alloc, words)?;
    more.push(String::from_str(alloc, "PROOF")?)?;
    Ok(more)
}

/// What the words ask for, the first of which is the program's name: by themselves, with `check` after that name, and so
/// with a proof behind.
pub fn read_wanted<'a>(
    alloc: Global,
    words: &'a [String],
    check: &'a [String],
    with_proof: &'a [String],
) -> Result<Wanted<'a>, WordsFault>
    requires check { texts_of check.now ≡ check_words (texts_of words.now) }
    requires with_proof { texts_of with_proof.now ≡ words_with_proof (texts_of words.now) }
    ensures ok { IfOk result (λ wanted. wanted_of (texts_of words.entry.now) ≡ Some (wanted_by wanted)) }
    ensures usage { result ≡ Err WordsFault.Usage → wanted_of (texts_of words.entry.now) ≡ None }
    ensures range { IfOk result (λ wanted. AreStepsInRange wanted.steps) }
    ensures in_time { IfOk result (λ wanted. IsInTimeInRange wanted.in_time) }
{
    if let Some(wanted) = names_alone(words) {
        return Ok(wanted);
    }
    if let Some(wanted) = names_in_time(words) {
        return Ok(wanted);
    }
    match asked_by_check(alloc, check) {
        Ok(wanted) => Ok(wanted),
        Err(WordsFault::Usage) => asked_of_design(alloc, with_proof),
        Err(WordsFault::Memory) => Err(WordsFault::Memory),
    }
}

/// What words ask `rcv check` for.
fn asked_by_check<'a>(alloc: Global, words: &'a [String]) -> Result<Wanted<'a>, WordsFault>
    ensures ok { IfOk result (λ wanted. by_check (request_of (texts_of words.entry.now)) ≡ Some (wanted_by wanted)) }
    ensures usage { result ≡ Err WordsFault.Usage → by_check (request_of (texts_of words.entry.now)) ≡ None }
    ensures range { IfOk result (λ wanted. AreStepsInRange wanted.steps) }
    ensures in_time { IfOk result (λ wanted. IsInTimeInRange wanted.in_time) }
{
    match read_words(alloc, words) {
        Ok(request) => by_check(request).ok_or(WordsFault::Usage),
        Err(fault) => Err(fault),
    }
}

/// The same, of the design alone.
fn asked_of_design<'a>(alloc: Global, words: &'a [String]) -> Result<Wanted<'a>, WordsFault>
    ensures ok { IfOk result (λ wanted.
        of_design (by_check (request_of (texts_of words.entry.now))) ≡ Some (wanted_by wanted)) }
    ensures usage { result ≡ Err WordsFault.Usage → of_design (by_check (request_of (texts_of words.entry.now))) ≡ None }
    ensures range { IfOk result (λ wanted. AreStepsInRange wanted.steps) }
    ensures in_time { IfOk result (λ wanted. wanted.in_time ≡ None) }
{
    let wanted = asked_by_check(alloc, words)?;
    if wanted.in_time.is_some() {
        return Err(WordsFault::Usage);
    }
    Ok(Wanted {
        file: None,
        ..wanted
    })
}

/// Whether a name is neither empty nor begins with a hyphen.
fn is_plain(name: &str) -> bool
    ensures { result ≡ is_plain name.now }
{
    match name.as_bytes() {
        [] => false,
        [first, ..] => *first != b'-',
    }
}

/// What a name asks for.
fn named<'a>(design: &'a str) -> Option<Wanted<'a>>
    ensures { option_map wanted_by result ≡ named design.entry.now }
{
    if is_plain(design) {
        Some(Wanted {
            steps: None,
            in_time: None,
            design,
            file: None,
        })
    } else {
        None
    }
}

/// What two names ask for.
fn both_named<'a>(design: &'a str, file: &'a str) -> Option<Wanted<'a>>
    ensures asks { option_map wanted_by result ≡ both_named design.entry.now file.entry.now }
    ensures steps { IfSome result (λ wanted. wanted.steps ≡ None) }
{
    if is_plain(design) && is_plain(file) {
        Some(Wanted {
            steps: None,
            in_time: None,
            design,
            file: Some(file),
        })
    } else {
        None
    }
}

/// What one or two names after the program's name ask for.
fn names_alone<'a>(words: &'a [String]) -> Option<Wanted<'a>>
    ensures { option_map wanted_by result ≡ names_alone (texts_of words.entry.now) }
{
    match words.len() {
        2 => named(words[1].as_str()),
        3 => both_named(words[1].as_str(), words[2].as_str()),
        _ => None,
    }
}

/// What two names behind two options and their values ask for.
fn options_named<'a>(
    first: &str,
    within: &str,
    second: &str,
    max_ms: &str,
    design: &'a str,
    file: &'a str,
) -> Option<Wanted<'a>>
    ensures asks { option_map wanted_by result
        ≡ options_named first.now within.now second.now max_ms.now design.entry.now file.entry.now }
    ensures steps { IfSome result (λ wanted. wanted.steps ≡ None) }
    ensures in_time { IfSome result (λ wanted. IsInTimeInRange wanted.in_time) }
{
    if first != "--within" || second != "--max-ms" {
        return None;
    }
    let Some(in_time) = read_in_time(within, max_ms) else {
        return None;
    };
    let Some(wanted) = both_named(design, file) else {
        return None;
    };
    Some(Wanted {
        in_time: Some(in_time),
        ..wanted
    })
}

/// What two names behind the two options of a time ask for.
fn names_in_time<'a>(words: &'a [String]) -> Option<Wanted<'a>>
    ensures asks { option_map wanted_by result ≡ names_in_time (texts_of words.entry.now) }
    ensures steps { IfSome result (λ wanted. wanted.steps ≡ None) }
    ensures in_time { IfSome result (λ wanted. IsInTimeInRange wanted.in_time) }
{
    match words.len() {
        7 => options_named(
            words[1].as_str(),
            words[2].as_str(),
            words[3].as_str(),
            words[4].as_str(),
            words[5].as_str(),
            words[6].as_str(),
        ),
        _ => None,
    }
}

/// Appends copies of words. The error is want of memory.
fn push_words(alloc: Global, words: &[String], more: &mut Vec<String>) -> Result<(), AllocError>
    ensures { OnOk result (texts_of more.new.items ≡ texts_of more.old.items ++ texts_of words.now) }
{
    for word in words {
        more.push(String::from_str(alloc, word.as_str())?)?;
    }
    Ok(())
}

/// What a check asks for.
fn by_check<'a>(request: Request<'a>) -> Option<Wanted<'a>>
    ensures { option_map wanted_by result ≡ by_check (Some (request_seen request.entry)) }
{
    match request {
        Request::Check {
            steps,
            in_time,
            design,
            proof,
        } => Some(Wanted {
            steps: Some(steps),
            in_time,
            design,
            file: Some(proof),
        }),
        Request::Simulate { .. } => None,
        Request::Routes { .. } => None,
        Request::Verify { .. } => None,
        Request::Tightest { .. } => None,
        Request::Trial { .. } => None,
    }
}
