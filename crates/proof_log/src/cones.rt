//! Cones from the words of a line.

ghost use Rattle.std.specs.Prelude.{◌≡◌, IfOk, Some, None, Err, codes};
ghost use Rattle.proof_log.specs.Parts.{if_any, all_parts, train_path, cone_train, pair, cone, cone_trains};
ghost use Rattle.proof_log.specs.Parts.{some_cone_trains, cone_pairs};
ghost use Rattle.proof_log.specs.Reading.{words_left};
ghost use Rattle.proof_log.specs.declared.line.LineFault.TheVariants.{Text};

use crate::line::LineFault;
use crate::members::{has_member, read_members};
use crate::parts::{command, holder, pair, train_prefix, violation};
use crate::words::first_word;
use cone_spec::{Cone, ConeTrain};
use rail_base::list::List;
use rail_base::plan::Command;
use rail_base::route::RouteNo;
use rail_base::station::TrainNo;
use std::alloc::Global;

/// The routes up to the word `0`, of which there is one.
pub fn train_path<'a>(
    alloc: Global,
    words: Option<&'a [u8]>,
) -> Result<(List<RouteNo>, Option<&'a [u8]>), LineFault>
    ensures ok { IfOk result (λ found. train_path (words_left words.entry) ≡ Some (found.0, words_left found.1)) }
    ensures text { result ≡ Err Text → train_path (words_left words.entry) ≡ None }
{
    let (path, after) = read_members::<RouteNo>(alloc, words)?;
    if !has_member(&path) {
        return Err(LineFault::Text);
    }
    Ok((path, after))
}

/// The listed pairs of a cone, each after a word `p`.
pub fn cone_pairs<'a>(
    alloc: Global,
    words: Option<&'a [u8]>,
) -> Result<(List<(Command, Command)>, Option<&'a [u8]>), LineFault>
    ensures ok { IfOk result (λ found. cone_pairs (words_left words.entry) ≡ Some (found.0, words_left found.1)) }
    ensures text { result ≡ Err Text → cone_pairs (words_left words.entry) ≡ None }
{
    let mut pairs = List::new(alloc);
    let mut left = words;
    'pairs: while let Some(text) = left {
        let (word, after) = first_word(text);
        if word != b"p".as_slice() {
            return Ok((pairs, left));
        }
        let Some((both, after)) = pair(after) else {
            return Err(LineFault::Text);
        };
        if pairs.push(both).is_err() {
            return Err(LineFault::Memory);
        }
        left = after;
    }
    Ok((pairs, left))
}

/// The trains of a cone, of which there is one.
pub fn some_trains<'a>(
    alloc: Global,
    words: Option<&'a [u8]>,
) -> Result<(List<ConeTrain>, Option<&'a [u8]>), LineFault>
    ensures ok { IfOk result (λ found. some_cone_trains (words_left words.entry) ≡ Some (found.0, words_left found.1)) }
    ensures text { result ≡ Err Text → some_cone_trains (words_left words.entry) ≡ None }
{
    let (trains, after) = cone_trains(alloc, words)?;
    if !has_member(&trains) {
        return Err(LineFault::Text);
    }
    Ok((trains, after))
}

/// A cone, and the words after it.
pub fn cone<'a>(
    alloc: Global,
    words: Option<&'a [u8]>,
) -> Result<(Cone, Option<&'a [u8]>), LineFault>
    ensures ok { IfOk result (λ found. cone (words_left words.entry) ≡ Some (found.0, words_left found.1)) }
    ensures text { result ≡ Err Text → cone (words_left words.entry) ≡ None }
{
    let Some((violation, after)) = violation(words) else {
        return Err(LineFault::Text);
    };
    let (trains, after) = some_trains(alloc, after)?;
    let (pairs, after) = cone_pairs(alloc, after)?;
    Ok((
        Cone {
            trains,
            pairs,
            violation,
        },
        after,
    ))
}

/// What a cone says of a train, after the word `t`.
fn cone_train<'a>(
    alloc: Global,
    words: Option<&'a [u8]>,
) -> Result<(ConeTrain, Option<&'a [u8]>), LineFault>
    ensures ok { IfOk result (λ found. cone_train (words_left words.entry) ≡ Some (found.0, words_left found.1)) }
    ensures text { result ≡ Err Text → cone_train (words_left words.entry) ≡ None }
{
    let Some(((train, (horizon, free)), after)) = train_prefix(words) else {
        return Err(LineFault::Text);
    };
    let (path, after) = train_path(alloc, after)?;
    let Some((command, after)) = command(after) else {
        return Err(LineFault::Text);
    };
    let train = ConeTrain {
        train: TrainNo(train),
        horizon,
        free,
        path,
        holder: holder(command),
    };
    Ok((train, after))
}

/// The trains of a cone, each after a word `t`.
fn cone_trains<'a>(
    alloc: Global,
    words: Option<&'a [u8]>,
) -> Result<(List<ConeTrain>, Option<&'a [u8]>), LineFault>
    ensures ok { IfOk result (λ found. cone_trains (words_left words.entry) ≡ Some (found.0, words_left found.1)) }
    ensures text { result ≡ Err Text → cone_trains (words_left words.entry) ≡ None }
{
    let mut trains = List::new(alloc);
    let mut left = words;
    'trains: while let Some(text) = left {
        let (word, after) = first_word(text);
        if word != b"t".as_slice() {
            return Ok((trains, left));
        }
        let (train, after) = cone_train(alloc, after)?;
        if trains.push(train).is_err() {
            return Err(LineFault::Memory);
        }
        left = after;
    }
    Ok((trains, left))
}
