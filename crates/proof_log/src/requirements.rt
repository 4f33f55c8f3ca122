//! Requirements from the words of a line.

ghost use Rattle.std.specs.Prelude.{◌≡◌};
ghost use Rattle.bound_spec.specs.declared.Requirement.TheVariants.{Within, Order};
ghost use Rattle.proof_log.specs.Parts.{made, small_number, two_numbers};
ghost use Rattle.proof_log.specs.Reading.{words_left, with_words};
ghost use Rattle.proof_log.specs.Bounds.{route, visit_by, grant_by, granted, requirement_of, requirement};

use crate::parts::{small_number, two_numbers};
use crate::words;
use crate::words::first_word;
use bound_spec::Requirement;
use rail_base::plan::Command;
use rail_base::route::RouteNo;
use rail_base::station::TrainNo;

/// A route, from 1 on, and the words after it.
pub fn route(text: Option<&[u8]>) -> Option<(RouteNo, Option<&[u8]>)>
    ensures { with_words result ≡ route (words_left text.entry) }
{
    let (word, after) = first_word(text?);
    let route = words::route(word)?;
    Some((route, after))
}

/// A requirement, and the words after it.
pub fn requirement(text: Option<&[u8]>) -> Option<(Requirement, Option<&[u8]>)>
    ensures { with_words result ≡ requirement (words_left text.entry) }
{
    let (kind, after) = first_word(text?);
    requirement_of(kind, after)
}

/// A greatest time between two visits.
fn within(text: Option<&[u8]>) -> Option<(Requirement, Option<&[u8]>)>
    ensures { with_words result ≡ made Within (small_number (words_left text.entry)) }
{
    let (within, after) = small_number(text)?;
    Some((Requirement::Within { within }, after))
}

/// That one visit is made before another.
fn order(text: Option<&[u8]>) -> Option<(Requirement, Option<&[u8]>)>
    ensures { with_words result ≡ made Order (small_number (words_left text.entry)) }
{
    let (order, after) = small_number(text)?;
    Some((Requirement::Order { order }, after))
}

/// That a visit is made.
fn visit(text: Option<&[u8]>) -> Option<(Requirement, Option<&[u8]>)>
    ensures { with_words result ≡ made visit_by (two_numbers (words_left text.entry)) }
{
    let ((train, visit), after) = two_numbers(text)?;
    let train = TrainNo(train);
    Some((Requirement::Visit { train, visit }, after))
}

/// That a command is granted.
fn grant(text: Option<&[u8]>) -> Option<(Requirement, Option<&[u8]>)>
    ensures { with_words result ≡ made grant_by (granted (words_left text.entry)) }
{
    let (train, after) = small_number(text)?;
    let (route, after) = route(after)?;
    let command = Command {
        train: TrainNo(train),
        route,
    };
    Some((Requirement::Grant { command }, after))
}

/// A requirement of a kind, by the numbers after the kind's word.
fn requirement_of<'a>(
    kind: &[u8],
    text: Option<&'a [u8]>,
) -> Option<(Requirement, Option<&'a [u8]>)>
    ensures { with_words result ≡ requirement_of kind.now (words_left text.entry) }
{
    if kind == b"within".as_slice() {
        within(text)
    } else if kind == b"order".as_slice() {
        order(text)
    } else if kind == b"visit".as_slice() {
        visit(text)
    } else if kind == b"grant".as_slice() {
        grant(text)
    } else {
        None
    }
}
