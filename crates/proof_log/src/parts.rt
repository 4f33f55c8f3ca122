//! The parts of a line that take no memory: numbers, commands and violations.

ghost use Rattle.std.specs.Prelude.{◌≡◌};
ghost use Rattle.rail_base.specs.declared.plan.Violation.TheVariants.{Within, Order};
ghost use Rattle.proof_log.specs.Parts.{made, small_number, two_numbers, plain_number, two_plain_numbers};
ghost use Rattle.proof_log.specs.Parts.{three_plain_numbers, train_prefix, command, pair};
ghost use Rattle.proof_log.specs.Parts.{path_by};
ghost use Rattle.proof_log.specs.Parts.{grant_by, visit_by, violation, violation_of, written_holder};
ghost use Rattle.proof_log.specs.Reading.{words_left, with_words};

use crate::words;
use crate::words::first_word;
use rail_base::plan::{Command, Violation};
use rail_base::route::RouteNo;
use rail_base::station::TrainNo;

/// A number of at most 32 bits, and the words after it.
pub fn small_number(text: Option<&[u8]>) -> Option<(u32, Option<&[u8]>)>
    ensures { with_words result ≡ small_number (words_left text.entry) }
{
    let (word, after) = first_word(text?);
    let number = words::small_number(word)?;
    Some((number, after))
}

/// A number of at most 18 digits, and the words after it.
pub fn plain_number(text: Option<&[u8]>) -> Option<(u64, Option<&[u8]>)>
    ensures { with_words result ≡ plain_number (words_left text.entry) }
{
    let (word, after) = first_word(text?);
    let number = words::plain_number(word)?;
    Some((number, after))
}

/// Two numbers of at most 32 bits.
pub fn two_numbers(text: Option<&[u8]>) -> Option<((u32, u32), Option<&[u8]>)>
    ensures { with_words result ≡ two_numbers (words_left text.entry) }
{
    let (first, after) = small_number(text)?;
    let (second, after) = small_number(after)?;
    Some(((first, second), after))
}

/// Two numbers of at most 18 digits each.
pub fn two_plain_numbers(text: Option<&[u8]>) -> Option<((u64, u64), Option<&[u8]>)>
    ensures { with_words result ≡ two_plain_numbers (words_left text.entry) }
{
    let (first, after) = plain_number(text)?;
    let (second, after) = plain_number(after)?;
    Some(((first, second), after))
}

/// Three numbers of at most 18 digits each.
pub fn three_plain_numbers(text: Option<&[u8]>) -> Option<(((u64, u64), u64), Option<&[u8]>)>
    ensures { with_words result ≡ three_plain_numbers (words_left text.entry) }
{
    let (numbers, after) = two_plain_numbers(text)?;
    let (last, after) = plain_number(after)?;
    Some(((numbers, last), after))
}

/// A train, its horizon, and how many of its commands are free.
pub fn train_prefix(text: Option<&[u8]>) -> Option<((u32, (u64, u32)), Option<&[u8]>)>
    ensures { with_words result ≡ train_prefix (words_left text.entry) }
{
    let (train, after) = small_number(text)?;
    let (last, after) = plain_number(after)?;
    let (free, after) = small_number(after)?;
    Some(((train, (last, free)), after))
}

/// A command, by its train and its route.
pub fn command(text: Option<&[u8]>) -> Option<(Command, Option<&[u8]>)>
    ensures { with_words result ≡ command (words_left text.entry) }
{
    let ((train, route), after) = two_numbers(text)?;
    let command = Command {
        train: TrainNo(train),
        route: RouteNo(route),
    };
    Some((command, after))
}

/// The holder that a command writes: train 0 with route 0 is none.
pub fn holder(command: Command) -> Option<Command>
    ensures { result ≡ written_holder command }
{
    if command.train.0 == 0 && command.route.0 == 0 {
        None
    } else {
        Some(command)
    }
}

/// A listed pair, after the word `p`.
pub fn pair(text: Option<&[u8]>) -> Option<((Command, Command), Option<&[u8]>)>
    ensures { with_words result ≡ pair (words_left text.entry) }
{
    let (earlier, after) = command(text)?;
    let (later, after) = command(after)?;
    Some(((earlier, later), after))
}

/// A violation, and the words after it.
pub fn violation(text: Option<&[u8]>) -> Option<(Violation, Option<&[u8]>)>
    ensures { with_words result ≡ violation (words_left text.entry) }
{
    let (kind, after) = first_word(text?);
    violation_of(kind, after)
}

/// A visit that a train's path does not make.
fn path(text: Option<&[u8]>) -> Option<(Violation, Option<&[u8]>)>
    ensures { with_words result ≡ made path_by (two_numbers (words_left text.entry)) }
{
    let ((train, visit), after) = two_numbers(text)?;
    let train = TrainNo(train);
    Some((Violation::Path { train, visit }, after))
}

/// A greatest time that has passed.
fn within(text: Option<&[u8]>) -> Option<(Violation, Option<&[u8]>)>
    ensures { with_words result ≡ made Within (small_number (words_left text.entry)) }
{
    let (within, after) = small_number(text)?;
    Some((Violation::Within { within }, after))
}

/// An order that is not kept.
fn order(text: Option<&[u8]>) -> Option<(Violation, Option<&[u8]>)>
    ensures { with_words result ≡ made Order (small_number (words_left text.entry)) }
{
    let (order, after) = small_number(text)?;
    Some((Violation::Order { order }, after))
}

/// A command that is not granted.
fn grant(text: Option<&[u8]>) -> Option<(Violation, Option<&[u8]>)>
    ensures { with_words result ≡ made grant_by (two_numbers (words_left text.entry)) }
{
    let ((train, command), after) = two_numbers(text)?;
    let train = TrainNo(train);
    Some((Violation::Grant { train, command }, after))
}

/// A visit that is not made.
fn visit(text: Option<&[u8]>) -> Option<(Violation, Option<&[u8]>)>
    ensures { with_words result ≡ made visit_by (two_numbers (words_left text.entry)) }
{
    let ((train, visit), after) = two_numbers(text)?;
    let train = TrainNo(train);
    Some((Violation::Visit { train, visit }, after))
}

/// A violation of a kind, by the numbers after the kind's word.
fn violation_of<'a>(kind: &[u8], text: Option<&'a [u8]>) -> Option<(Violation, Option<&'a [u8]>)>
    ensures { with_words result ≡ violation_of kind.now (words_left text.entry) }
{
    if kind == b"path".as_slice() {
        path(text)
    } else if kind == b"within".as_slice() {
        within(text)
    } else if kind == b"order".as_slice() {
        order(text)
    } else if kind == b"grant".as_slice() {
        grant(text)
    } else if kind == b"visit".as_slice() {
        visit(text)
    } else {
        None
    }
}
