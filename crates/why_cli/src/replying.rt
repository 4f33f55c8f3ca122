//! The reply to what is wanted.

ghost use Rattle.std.specs.Prelude.{◌≡◌, [], ◌∷◌, true, None, Some};
ghost use Rattle.named_files.specs.Replies.{is_unread};
ghost use Rattle.rail_words.specs.Requests.{IsInTimeInRange};
ghost use Rattle.why_words.specs.Wanted.{AreStepsInRange};
ghost use Rattle.why_words.specs.Words.{wanted_by};
ghost use Rattle.rail_outside.specs.Asks.{fetched};
ghost use Rattle.named_files.specs.Replies.{RepliesFor, RepliesOf};
ghost use Rattle.why_cli.specs.Replies.{IsAnswerOf, IsAnswerTo, IsBothAnswer, IsFileAnswer, asks_to};
ghost use Rattle.cli_shell.specs.Uses.{OnlyFetches};

use crate::admitting::design_for;
use crate::designs::design_reply;
use crate::explaining::text_reply;
use crate::plans::{is_plan, plan_reply};
use cli_shell::{InputFile, Reply};
use interlocking::Interlocking;
use named_files::{Unmade, fetch_named, unmade_by};
use rail_outside::Shelf;
use rail_words::InTime;
use std::alloc::{AllocError, Global};
use why_words::Wanted;

/// The reply to what is wanted.
pub(crate) fn reply_to<'a, S: Shelf>(
    alloc: Global,
    shelf: &mut S,
    wanted: Wanted<'a>,
) -> Result<Reply, Unmade<'a>>
    requires steps { AreStepsInRange wanted.steps }
    requires in_time { IsInTimeInRange wanted.in_time }
    ensures replies { let w = wanted_by wanted.entry in
        RepliesFor (S.known_files shelf.old) (Some w.design) w.file (IsAnswerTo (Some w)) result }
    ensures uses { OnlyFetches S.known_files S.asked S.fault_count shelf.old shelf.new
        (asks_to (Some (wanted_by wanted.entry))) (is_unread result ≡ true) }
{
    let Wanted {
        steps,
        in_time,
        design,
        file,
    } = wanted;
    match file {
        None => for_design(alloc, shelf, steps, design),
        Some(name) => for_both(alloc, shelf, steps, in_time, design, name),
    }
}

/// The reply on a design alone, by the name of its file.
fn for_design<'a, S: Shelf>(
    alloc: Global,
    shelf: &mut S,
    steps: Option<u32>,
    design: &'a str,
) -> Result<Reply, Unmade<'a>>
    requires { AreStepsInRange steps }
    ensures replies { RepliesFor (S.known_files shelf.old) (Some design.entry.now) None
        (IsAnswerOf steps None None) result }
    ensures uses { OnlyFetches S.known_files S.asked S.fault_count shelf.old shelf.new
        (fetched design.entry.now ∷ []) (is_unread result ≡ true) }
{
    let bytes = fetch_named(alloc, shelf, InputFile::Design, design)?;
    let reply = design_reply(alloc, bytes.as_slice(), steps)?;
    Ok(reply)
}

/// The reply on a design and another file, by their names.
fn for_both<'a, S: Shelf>(
    alloc: Global,
    shelf: &mut S,
    steps: Option<u32>,
    in_time: Option<InTime>,
    design: &'a str,
    name: &'a str,
) -> Result<Reply, Unmade<'a>>
    requires steps { AreStepsInRange steps }
    requires in_time { IsInTimeInRange in_time }
    ensures replies { RepliesFor (S.known_files shelf.old) (Some design.entry.now) (Some name.entry.now)
        (IsBothAnswer steps in_time) result }
    ensures uses { OnlyFetches S.known_files S.asked S.fault_count shelf.old shelf.new
        (fetched design.entry.now ∷ fetched name.entry.now ∷ []) (is_unread result ≡ true) }
{
    let bytes = fetch_named(alloc, shelf, InputFile::Design, design)?;
    match design_for(alloc, bytes.as_slice(), steps, in_time) {
        Ok(interlocking) => for_file(
            alloc,
            shelf,
            in_time,
            bytes.as_slice(),
            &interlocking,
            steps,
            name,
        ),
        Err(ending) => Err(unmade_by(ending)),
    }
}

/// The reply on a file that is a plan, or a proof for the steps that are given, or else as many as its head names.
fn for_file<'a, S: Shelf>(
    alloc: Global,
    shelf: &mut S,
    in_time: Option<InTime>,
    design_text: &[u8],
    interlocking: &Interlocking,
    steps: Option<u32>,
    name: &'a str,
) -> Result<Reply, Unmade<'a>>
    requires { AreStepsInRange steps }
    ensures replies { RepliesOf (S.known_files shelf.old) name.entry.now
        (IsFileAnswer in_time design_text.now steps interlocking.now.design.station) result }
    ensures uses { OnlyFetches S.known_files S.asked S.fault_count shelf.old shelf.new
        (fetched name.entry.now ∷ []) (is_unread result ≡ true) }
{
    let bytes = fetch_named(alloc, shelf, InputFile::Proof, name)?;
    if is_plan(bytes.as_slice()) {
        let reply = plan_reply(alloc, interlocking, bytes.as_slice())?;
        return Ok(reply);
    }
    match text_reply(
        alloc,
        in_time,
        design_text,
        interlocking,
        steps,
        bytes.as_slice(),
    ) {
        Ok(reply) => Ok(reply),
        Err(ending) => Err(unmade_by(ending)),
    }
}
