//! The text of cones, each word after a space. An error is want of memory; then a part of what is appended
//! may stand there.

ghost use Rattle.std.specs.Prelude.{◌≡◌, ◌∷◌, ◌++◌, [], flat_map, map, decimal, codes, OnOk};
ghost use Rattle.proof_log.specs.ConeText.{route_word, list_words, command_words, violation_words, holder_words};
ghost use Rattle.proof_log.specs.ConeText.{train_words, pair_words, train_prefix_words, cone_line_words};
ghost use Rattle.proof_log.specs.Writing.{spaced};

use cone_spec::{Cone, ConeTrain};
use rail_base::plan::{Command, Violation};
use rail_base::route::RouteNo;
use rail_text::put_number;
use std::alloc::AllocError;

/// Appends a number.
pub fn put_spaced(text: &mut Vec<u8>, number: u64) -> Result<(), AllocError>
    ensures { OnOk result (text.new.items ≡ text.old.items ++ (32 ∷ decimal number)) }
{
    text.push(b' ')?;
    put_number(text, number)
}

/// Appends two numbers.
pub fn put_two(text: &mut Vec<u8>, first: u32, second: u32) -> Result<(), AllocError>
    ensures { OnOk result (text.new.items ≡ text.old.items ++ spaced (decimal first ∷ decimal second ∷ [])) }
{
    put_spaced(text, u64::from(first))?;
    put_spaced(text, u64::from(second))
}

/// Appends a word and two numbers.
pub fn put_kind(text: &mut Vec<u8>, kind: &[u8], first: u32, second: u32) -> Result<(), AllocError>
    ensures { OnOk result (text.new.items ≡ text.old.items ++ spaced (kind.now ∷ decimal first ∷ decimal second ∷ [])) }
{
    text.push(b' ')?;
    text.extend_from_slice(kind)?;
    put_two(text, first, second)
}

/// Appends a word and a number.
pub fn put_entry(text: &mut Vec<u8>, kind: &[u8], number: u32) -> Result<(), AllocError>
    ensures { OnOk result (text.new.items ≡ text.old.items ++ spaced (kind.now ∷ decimal number ∷ [])) }
{
    text.push(b' ')?;
    text.extend_from_slice(kind)?;
    put_spaced(text, u64::from(number))
}

/// Appends a path, ended by `0`.
pub fn put_path(text: &mut Vec<u8>, path: &[RouteNo]) -> Result<(), AllocError>
    ensures { OnOk result (text.new.items ≡ text.old.items ++ spaced (list_words route_word path.now)) }
{
    put_routes(text, path)?;
    text.extend_from_slice(b" 0")
}

/// Appends the trains of a cone.
pub fn put_trains(text: &mut Vec<u8>, trains: &[ConeTrain]) -> Result<(), AllocError>
    ensures { OnOk result (text.new.items ≡ text.old.items ++ flat_map (λ c. spaced (train_words c)) trains.now) }
{
    for train in trains {
        put_train(text, train)?;
    }
    Ok(())
}

/// Appends the listed pairs of a cone.
pub fn put_pairs(text: &mut Vec<u8>, pairs: &[(Command, Command)]) -> Result<(), AllocError>
    ensures { OnOk result (text.new.items ≡ text.old.items ++ flat_map (λ p. spaced (pair_words p)) pairs.now) }
{
    for pair in pairs {
        put_pair(text, *pair)?;
    }
    Ok(())
}

/// Appends a cone.
pub fn put_cone(text: &mut Vec<u8>, cone: &Cone) -> Result<(), AllocError>
    ensures { OnOk result (text.new.items ≡ text.old.items ++ spaced (cone_line_words cone.now)) }
{
    put_violation(text, cone.violation)?;
    put_trains(text, cone.trains.as_slice())?;
    put_pairs(text, cone.pairs.as_slice())
}

/// Appends a violation.
fn put_violation(text: &mut Vec<u8>, violation: Violation) -> Result<(), AllocError>
    ensures { OnOk result (text.new.items ≡ text.old.items ++ spaced (violation_words violation)) }
{
    match violation {
        Violation::Path { train, visit } => put_kind(text, b"path", train.0, visit),
        Violation::Within { within } => put_entry(text, b"within", within),
        Violation::Order { order } => put_entry(text, b"order", order),
        Violation::Grant { train, command } => put_kind(text, b"grant", train.0, command),
        Violation::Visit { train, visit } => put_kind(text, b"visit", train.0, visit),
    }
}

/// Appends a command.
fn put_command(text: &mut Vec<u8>, command: Command) -> Result<(), AllocError>
    ensures { OnOk result (text.new.items ≡ text.old.items ++ spaced (command_words command)) }
{
    put_two(text, command.train.0, command.route.0)
}

/// Appends a holder, `0 0` where there is none.
fn put_holder(text: &mut Vec<u8>, holder: Option<Command>) -> Result<(), AllocError>
    ensures { OnOk result (text.new.items ≡ text.old.items ++ spaced (holder_words holder)) }
{
    match holder {
        Some(command) => put_command(text, command),
        None => text.extend_from_slice(b" 0 0"),
    }
}

/// Appends routes.
fn put_routes(text: &mut Vec<u8>, path: &[RouteNo]) -> Result<(), AllocError>
    ensures { OnOk result (text.new.items ≡ text.old.items ++ spaced (map route_word path.now)) }
{
    for route in path {
        put_spaced(text, u64::from(route.0))?;
    }
    Ok(())
}

/// Appends the word `t`, a train, its horizon, and how many of its commands are free.
fn put_prefix(text: &mut Vec<u8>, train: &ConeTrain) -> Result<(), AllocError>
    ensures { OnOk result (text.new.items ≡ text.old.items ++ spaced (train_prefix_words train.now)) }
{
    put_entry(text, b"t", train.train.0)?;
    put_spaced(text, train.horizon)?;
    put_spaced(text, u64::from(train.free))
}

/// Appends what a cone says of a train.
fn put_train(text: &mut Vec<u8>, train: &ConeTrain) -> Result<(), AllocError>
    ensures { OnOk result (text.new.items ≡ text.old.items ++ spaced (train_words train.now)) }
{
    put_prefix(text, train)?;
    put_path(text, train.path.as_slice())?;
    put_holder(text, train.holder)
}

/// Appends a listed pair.
fn put_pair(text: &mut Vec<u8>, pair: (Command, Command)) -> Result<(), AllocError>
    ensures { OnOk result (text.new.items ≡ text.old.items ++ spaced (pair_words pair)) }
{
    text.extend_from_slice(b" p")?;
    put_command(text, pair.0)?;
    put_command(text, pair.1)
}
