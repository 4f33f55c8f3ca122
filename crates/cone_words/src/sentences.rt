//! Sentences about a line of a file. An error is want of memory; then a part of what is appended may stand there.

ghost use Rattle.std.specs.Prelude.{◌≡◌, ◌++◌, ◌∷◌, [], codes, decimal, IfOk, OnOk};
ghost use Rattle.rail_outside.specs.Lines.{lines_of};
ghost use Rattle.cone_words.specs.Phrases.{line_head, sentence};

use rail_text::put_number;
use std::alloc::{AllocError, Global};

/// The first words of a sentence about the line of this number.
pub fn line_head(alloc: Global, line: u64) -> Result<Vec<u8>, AllocError>
    ensures { IfOk result (λ text. text.items ≡ line_head line) }
{
    let mut text = Vec::from_slice(alloc, b"line ")?;
    put_number(&mut text, line)?;
    text.extend_from_slice(b": ")?;
    Ok(text)
}

/// Appends a sentence about the line of this number.
pub fn push_sentence(
    alloc: Global,
    lines: &mut Vec<Vec<u8>>,
    line: u64,
    words: &[u8],
) -> Result<(), AllocError>
    ensures { OnOk result (lines_of lines.new.items ≡ lines_of lines.old.items ++ sentence line words.now ∷ []) }
{
    let mut text = line_head(alloc, line)?;
    text.extend_from_slice(words)?;
    text.push(b'\n')?;
    lines.push(text)?;
    Ok(())
}
