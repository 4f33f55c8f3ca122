//! The first line of a proof file.

ghost use Rattle.std.specs.Prelude.{◌≡◌, ◌++◌, ◌∷◌, [], IfOk, Some, codes, decimal};
ghost use Rattle.proof_log.specs.Lines.{if_all};
ghost use Rattle.proof_log.specs.Heads.{base_of, base_of_word, head_of, head_after, head_beside, head_of_question, head_of_version, head_text};
ghost use Rattle.proof_log.specs.Reading.{words_left};
ghost use Rattle.proof_log.specs.Writing.{spaced};

use crate::cone_text::put_spaced;
use crate::parts::{three_plain_numbers, two_plain_numbers};
use crate::words::first_word;
use clause_spec::{BaseKind, Question, Turns};
use std::alloc::{AllocError, Global};

/// What the first line of a proof file says of the clauses before the other lines.
#[derive(Clone, Copy, PartialEq, Eq, Debug)]
pub enum Head {
    /// They are those that each plan makes true.
    Unnamed,
    /// They are those of this question. Bounds may stand in the file where it is asked by sorted trains, or by live
    /// commands.
    Of(Question),
}

impl Head {
    /// The base whose clauses a file with this head speaks of.
    pub fn base(self) -> BaseKind
        ensures { result ≡ base_of self }
    {
        match self {
            Head::Unnamed => BaseKind::Plain,
            Head::Of(question) => question.base,
        }
    }
}

/// The head that is parsed from the first line of a file, without the LF that ends it. None where it is none. Its numbers
/// have at most 18 digits.
pub fn read_head(bytes: &[u8]) -> Option<Head>
    ensures { result ≡ head_of bytes.now }
{
    let (name, after) = first_word(bytes);
    if name == b"rcvlog".as_slice() {
        head_after(after)
    } else {
        None
    }
}

/// The text of a head, without an LF.
pub fn write_head(alloc: Global, head: Head) -> Result<Vec<u8>, AllocError>
    ensures { IfOk result (λ text. text.items ≡ head_text head) }
{
    match head {
        Head::Unnamed => Vec::from_slice(alloc, b"rcvlog 1"),
        Head::Of(
            Question {
                version,
                steps,
                base: BaseKind::Plain,
            },
        ) => write_named(alloc, b"rcvlog 2", version, steps),
        Head::Of(
            Question {
                version,
                steps,
                base: BaseKind::Sorted,
            },
        ) => write_named(alloc, b"rcvlog 4", version, steps),
        Head::Of(
            Question {
                version,
                steps,
                base: BaseKind::Normal,
            },
        ) => write_named(alloc, b"rcvlog 3", version, steps),
        Head::Of(
            Question {
                version,
                steps,
                base: BaseKind::Live(Turns::All),
            },
        ) => write_named(alloc, b"rcvlog 5", version, steps),
        Head::Of(
            Question {
                version,
                steps,
                base: BaseKind::Live(Turns::Beside { within }),
            },
        ) => write_beside(alloc, version, steps, within),
    }
}

/// A head, where no word is left after it.
#[tactic(auto, using(crate::proofs::Gathering::words_are_left))]
fn whole(head: Head, after: Option<&[u8]>) -> Option<Head>
    ensures { result ≡ if_all (Some (head, words_left after.entry)) }
{
    if after.is_some() {
        return None;
    }
    Some(head)
}

/// The base that the version of a file names alone.
fn base_of_word(word: &[u8]) -> Option<BaseKind>
    ensures { result ≡ base_of_word word.now }
{
    if word == b"2".as_slice() {
        Some(BaseKind::Plain)
    } else if word == b"4".as_slice() {
        Some(BaseKind::Sorted)
    } else if word == b"3".as_slice() {
        Some(BaseKind::Normal)
    } else if word == b"5".as_slice() {
        Some(BaseKind::Live(Turns::All))
    } else {
        None
    }
}

/// The head of a question by a base, by the version of the design and the number of steps.
fn head_of_question(base: BaseKind, text: Option<&[u8]>) -> Option<Head>
    ensures { result ≡ head_of_question (Some base) (words_left text.entry) }
{
    let ((version, steps), after) = two_plain_numbers(text)?;
    let question = Question {
        version,
        steps,
        base,
    };
    whole(Head::Of(question), after)
}

/// The head of a question of trains beside a within, by the version of the design, the number of steps and that of the
/// within.
fn head_beside(text: Option<&[u8]>) -> Option<Head>
    ensures { result ≡ head_beside (words_left text.entry) }
{
    let (((version, steps), within), after) = three_plain_numbers(text)?;
    let question = Question {
        version,
        steps,
        base: BaseKind::Live(Turns::Beside { within }),
    };
    whole(Head::Of(question), after)
}

/// The head of a version of the file, by the words after it.
fn head_of_version(version: &[u8], text: Option<&[u8]>) -> Option<Head>
    ensures { result ≡ head_of_version version.now (words_left text.entry) }
{
    if version == b"1".as_slice() {
        return whole(Head::Unnamed, text);
    }
    if version == b"6".as_slice() {
        return head_beside(text);
    }
    head_of_question(base_of_word(version)?, text)
}

/// The head by the words after the first.
fn head_after(text: Option<&[u8]>) -> Option<Head>
    ensures { result ≡ head_after (words_left text.entry) }
{
    let (version, after) = first_word(text?);
    head_of_version(version, after)
}

/// The text of a head by its first two words, the version of the design and the number of steps.
fn write_named(alloc: Global, words: &[u8], version: u64, steps: u64) -> Result<Vec<u8>, AllocError>
    ensures { IfOk result (λ text. text.items ≡ words.now ++ spaced (decimal version ∷ decimal steps ∷ [])) }
{
    let mut text = Vec::from_slice(alloc, words)?;
    put_spaced(&mut text, version)?;
    put_spaced(&mut text, steps)?;
    Ok(text)
}

/// The text of a head of a question of trains beside a within.
fn write_beside(alloc: Global, version: u64, steps: u64, within: u64) -> Result<Vec<u8>, AllocError>
    ensures { IfOk result (λ text. text.items ≡ codes "rcvlog 6"
        ++ spaced (decimal version ∷ decimal steps ∷ decimal within ∷ [])) }
{
    let mut text = Vec::from_slice(alloc, b"rcvlog 6")?;
    put_spaced(&mut text, version)?;
    put_spaced(&mut text, steps)?;
    put_spaced(&mut text, within)?;
    Ok(text)
}
