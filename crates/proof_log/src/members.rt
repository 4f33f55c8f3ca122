//! The lists of a line, each ended by the word `0`.

ghost use Rattle.std.specs.Prelude.{◌≡◌, List, Option, ℕ, Some, None, Err};
ghost use Rattle.proof_log.specs.Words.{members_of, literal_of, route_of, clause_number_of};
ghost use Rattle.proof_log.specs.Parts.{has_member};
ghost use Rattle.proof_log.specs.Reading.{words_left, ReadsPart};
ghost use Rattle.proof_log.specs.declared.line.LineFault.TheVariants.{Text};

use crate::line::LineFault;
use crate::words::{clause_number, first_word, literal, route};
use rail_base::list::List;
use rail_base::route::RouteNo;
use sat_clause::Lit;
use std::alloc::Global;

/// What a list of a line has as members, each written by a word.
pub trait Member: Sized + Drop {
    /// What a word writes.
    ghost member_of: { List ℕ → Option Self };

    /// Reads a word.
    fn read(word: &[u8]) -> Option<Self>
        ensures { result ≡ member_of word.now };
}

impl Member for Lit {
    ghost member_of = { literal_of };

    fn read(word: &[u8]) -> Option<Self> {
        literal(word)
    }
}

impl Member for RouteNo {
    ghost member_of = { route_of };

    fn read(word: &[u8]) -> Option<Self> {
        route(word)
    }
}

/// The number of a clause.
impl Member for u64 {
    ghost member_of = { clause_number_of };

    fn read(word: &[u8]) -> Option<Self> {
        clause_number(word)
    }
}

/// Whether a list has a member.
pub fn has_member<T>(list: &List<T>) -> bool
    ensures { result ≡ has_member list.now }
{
    !list.is_empty()
}

/// The members up to the word `0`, and the words after it.
pub fn read_members<'a, M: Member>(
    alloc: Global,
    words: Option<&'a [u8]>,
) -> Result<(List<M>, Option<&'a [u8]>), LineFault>
    ensures ok { ReadsPart result (members_of M.member_of (words_left words.entry)) }
    ensures text { result ≡ Err Text → members_of M.member_of (words_left words.entry) ≡ None }
{
    let mut members = List::new(alloc);
    let mut left = words;
    'words: while let Some(text) = left {
        let (word, after) = first_word(text);
        if word == b"0".as_slice() {
            return Ok((members, after));
        }
        let Some(member) = M::read(word) else {
            return Err(LineFault::Text);
        };
        if members.push(member).is_err() {
            return Err(LineFault::Memory);
        }
        left = after;
    }
    Err(LineFault::Text)
}
