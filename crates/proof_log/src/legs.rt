//! Legs from the words of a line.

ghost use Rattle.std.specs.Prelude.{◌≡◌, IfOk, Some, None, Err};
ghost use Rattle.proof_log.specs.Parts.{made};
ghost use Rattle.proof_log.specs.Reading.{words_left, ReadsPart};
ghost use Rattle.proof_log.specs.declared.line.LineFault.TheVariants.{Text};
ghost use Rattle.proof_log.specs.Bounds.{among_by, among, place_of, places, some_places, leg, legs, some_legs};

use crate::cones::train_path;
use crate::line::LineFault;
use crate::members::{has_member, read_members};
use crate::parts::small_number;
use crate::requirements::route;
use crate::words::first_word;
use bound_spec::{Leg, Place};
use rail_base::list::List;
use rail_base::route::RouteNo;
use rail_base::station::TrainNo;
use std::alloc::Global;

/// The legs of a certificate, of which there is one.
pub fn some_legs<'a>(
    alloc: Global,
    words: Option<&'a [u8]>,
) -> Result<(List<Leg>, Option<&'a [u8]>), LineFault>
    ensures ok { IfOk result (λ found. some_legs (words_left words.entry) ≡ Some (found.0, words_left found.1)) }
    ensures text { result ≡ Err Text → some_legs (words_left words.entry) ≡ None }
{
    let (legs, after) = legs(alloc, words)?;
    if !has_member(&legs) {
        return Err(LineFault::Text);
    }
    Ok((legs, after))
}

/// A place of some routes, after the word `a`.
fn among<'a>(alloc: Global, words: Option<&'a [u8]>) -> Result<(Place, Option<&'a [u8]>), LineFault>
    ensures ok { ReadsPart result (made among_by (among (words_left words.entry))) }
    ensures text { result ≡ Err Text → made among_by (among (words_left words.entry)) ≡ None }
{
    let (routes, after) = train_path(alloc, words)?;
    let (without, after) = read_members::<RouteNo>(alloc, after)?;
    Ok((Place::Among { routes, without }, after))
}

/// A place, by its first word and what stands after it.
fn place_of<'a>(
    alloc: Global,
    kind: &[u8],
    words: Option<&'a [u8]>,
) -> Result<(Place, Option<&'a [u8]>), LineFault>
    ensures ok { ReadsPart result (place_of kind.now (words_left words.entry)) }
    ensures text { result ≡ Err Text → place_of kind.now (words_left words.entry) ≡ None }
{
    if kind == b"n".as_slice() {
        let Some((route, after)) = route(words) else {
            return Err(LineFault::Text);
        };
        Ok((Place::Named { route }, after))
    } else if kind == b"a".as_slice() {
        among(alloc, words)
    } else {
        Err(LineFault::Text)
    }
}

/// The places up to the next leg.
fn places<'a>(
    alloc: Global,
    words: Option<&'a [u8]>,
) -> Result<(List<Place>, Option<&'a [u8]>), LineFault>
    ensures ok { IfOk result (λ found. places (words_left words.entry) ≡ Some (found.0, words_left found.1)) }
    ensures text { result ≡ Err Text → places (words_left words.entry) ≡ None }
{
    let mut places = List::new(alloc);
    let mut left = words;
    'places: while let Some(text) = left {
        let (word, after) = first_word(text);
        if word == b"l".as_slice() {
            return Ok((places, left));
        }
        let (place, after) = place_of(alloc, word, after)?;
        if places.push(place).is_err() {
            return Err(LineFault::Memory);
        }
        left = after;
    }
    Ok((places, left))
}

/// The places of a leg, of which there is one.
fn some_places<'a>(
    alloc: Global,
    words: Option<&'a [u8]>,
) -> Result<(List<Place>, Option<&'a [u8]>), LineFault>
    ensures ok { IfOk result (λ found. some_places (words_left words.entry) ≡ Some (found.0, words_left found.1)) }
    ensures text { result ≡ Err Text → some_places (words_left words.entry) ≡ None }
{
    let (places, after) = places(alloc, words)?;
    if !has_member(&places) {
        return Err(LineFault::Text);
    }
    Ok((places, after))
}

/// A leg, after the word `l`.
fn leg<'a>(alloc: Global, words: Option<&'a [u8]>) -> Result<(Leg, Option<&'a [u8]>), LineFault>
    ensures ok { IfOk result (λ found. leg (words_left words.entry) ≡ Some (found.0, words_left found.1)) }
    ensures text { result ≡ Err Text → leg (words_left words.entry) ≡ None }
{
    let Some((train, after)) = small_number(words) else {
        return Err(LineFault::Text);
    };
    let (places, after) = some_places(alloc, after)?;
    let train = TrainNo(train);
    Ok((Leg { train, places }, after))
}

/// The legs, each after a word `l`.
fn legs<'a>(
    alloc: Global,
    words: Option<&'a [u8]>,
) -> Result<(List<Leg>, Option<&'a [u8]>), LineFault>
    ensures ok { IfOk result (λ found. legs (words_left words.entry) ≡ Some (found.0, words_left found.1)) }
    ensures text { result ≡ Err Text → legs (words_left words.entry) ≡ None }
{
    let mut legs = List::new(alloc);
    let mut left = words;
    'legs: while let Some(text) = left {
        let (word, after) = first_word(text);
        if word != b"l".as_slice() {
            return Ok((legs, left));
        }
        let (leg, after) = leg(alloc, after)?;
        if legs.push(leg).is_err() {
            return Err(LineFault::Memory);
        }
        left = after;
    }
    Ok((legs, left))
}
