//! Whether a command did what it has to.

ghost use Rattle.std.specs.Prelude.{◌≡◌, ◌&&◌, nat_eq, bytes_eq};
ghost use Rattle.std.specs.List.{list_any};
ghost use Rattle.worked_examples.specs.Answers.{may_print, begins_so};

use crate::row::command::{Command, Leaves};

/// Whether a command may end with a status and print a text.
pub fn may_answer(command: &Command, status: u8, text: &[u8]) -> bool
    ensures { result ≡ (nat_eq command.now.status status
        && (may_print command.now text.now && begins_so command.now text.now)) }
{
    command.status == status && (may_print(command, text) && begins_so(command, text))
}

/// Whether a command may leave a proof file, or none, and so many calls of the shelf.
pub fn may_leave(leaves: &Leaves<'_>, proof: Option<&str>, calls: u64) -> bool {
    let text = proof.unwrap_or("");
    let is_there = leaves
        .has_proof
        .is_none_or(|wanted| wanted == proof.is_some());
    let has_cone_count = leaves
        .cone_count
        .is_none_or(|wanted| wanted == lines_with(text, "r "));
    let has_bound_count = leaves
        .bound_count
        .is_none_or(|wanted| wanted == lines_with(text, "b "));
    let has_cones = leaves.cones.iter().all(|cone| has_line(text, cone));
    let has_calls = leaves.calls.is_none_or(|wanted| wanted == calls);
    is_there
        && has_text(leaves, text)
        && has_cone_count
        && has_bound_count
        && has_cones
        && has_calls
}

/// Whether a text is one of some.
fn is_one_of(texts: &[&str], text: &[u8]) -> bool
    ensures { result ≡ list_any (λ wanted. bytes_eq wanted.now text.now) texts.now }
{
    texts.iter().any(|wanted| wanted.as_bytes() == text)
}

/// Whether a text is one of those that a command may print.
#[tactic(auto, unfolding(crate::specs::Answers::may_print))]
fn may_print(command: &Command, text: &[u8]) -> bool
    ensures { result ≡ may_print command.now text.now }
{
    command.prints.is_empty() || is_one_of(command.prints.as_slice(), text)
}

/// Whether a text begins as it has to.
#[tactic(auto, unfolding(crate::specs::Answers::begins_so))]
fn begins_so(command: &Command, text: &[u8]) -> bool
    ensures { result ≡ begins_so command.now text.now }
{
    match command.begins {
        Some(prefix) => text.starts_with(prefix.as_bytes()),
        None => true,
    }
}

/// How many lines of a proof file begin so.
fn lines_with(proof: &str, prefix: &str) -> u64 {
    proof
        .lines()
        .filter(|line| line.starts_with(prefix))
        .count() as u64
}

/// Whether a line is one of a proof file.
fn has_line(proof: &str, wanted: &str) -> bool {
    proof.lines().any(|line| line == wanted)
}

/// Whether a proof file has the text that it has to have.
fn has_text(leaves: &Leaves<'_>, proof: &str) -> bool {
    match leaves.text {
        Some(wanted) => wanted == proof,
        None => true,
    }
}
