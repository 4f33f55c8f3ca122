//! The lines in front of the sentences about a proof. An error is want of memory.

ghost use Rattle.std.specs.Prelude.{◌≡◌, IfOk};
ghost use Rattle.rail_outside.specs.Lines.{lines_of};
ghost use Rattle.why_cli.specs.Heads.{file_line, head_lines, none_line, time_text, version_line};

use rail_text::put_number;
use rail_words::InTime;
use sha2::{Digest, Sha256};
use std::alloc::{AllocError, Global};

/// `rcv <version>`. The version is another one where a text, a format or a definition means something else.
fn version_line(alloc: Global) -> Result<Vec<u8>, AllocError>
    ensures { IfOk result (λ line. line.items ≡ version_line) }
{
    Vec::from_slice(alloc, b"rcv 6\n")
}

/// `<file> sha256 <64 digits> bytes <n>`
fn file_line(alloc: Global, file: &[u8], bytes: &[u8]) -> Result<Vec<u8>, AllocError>
    ensures { IfOk result (λ line. line.items ≡ file_line file.now bytes.now) }
{
    let digest = Sha256::digest(bytes);
    let digits = hex::encode(alloc, digest)?;
    let mut line = Vec::from_slice(alloc, file)?;
    line.extend_from_slice(b" sha256 ")?;
    line.extend_from_slice(digits.as_bytes())?;
    line.extend_from_slice(b" bytes ")?;
    put_number(&mut line, bytes.len() as u64)?;
    line.push(b'\n')?;
    Ok(line)
}

/// ` with max_ms <ms> in within <number>`, where a greatest time is put in
fn time_text(alloc: Global, in_time: Option<InTime>) -> Result<Vec<u8>, AllocError>
    ensures { IfOk result (λ text. text.items ≡ time_text in_time) }
{
    let Some(time) = in_time else {
        return Ok(Vec::new(alloc));
    };
    let mut text = Vec::from_slice(alloc, b" with max_ms ")?;
    put_number(&mut text, u64::from(time.max_ms))?;
    text.extend_from_slice(b" in within ")?;
    put_number(&mut text, u64::from(time.within))?;
    Ok(text)
}

/// `no plan of at most <k> steps meets the design`, with the greatest time put in that is given
fn none_line(alloc: Global, in_time: Option<InTime>, steps: u32) -> Result<Vec<u8>, AllocError>
    ensures { IfOk result (λ line. line.items ≡ none_line in_time steps) }
{
    let time = time_text(alloc, in_time)?;
    let mut line = Vec::from_slice(alloc, b"no plan of at most ")?;
    put_number(&mut line, u64::from(steps))?;
    line.extend_from_slice(b" steps meets the design")?;
    line.extend_from_slice(time.as_slice())?;
    line.push(b'\n')?;
    Ok(line)
}

/// All of them, for the bytes of a design and of a proof that shows that there is no plan of so many steps.
pub(crate) fn head_lines(
    alloc: Global,
    in_time: Option<InTime>,
    design: &[u8],
    proof: &[u8],
    steps: u32,
) -> Result<Vec<Vec<u8>>, AllocError>
    ensures { IfOk result (λ lines. lines_of lines.items ≡ head_lines in_time design.now proof.now steps) }
{
    let mut lines = Vec::new(alloc);
    lines.push(version_line(alloc)?)?;
    lines.push(file_line(alloc, b"design", design)?)?;
    lines.push(file_line(alloc, b"proof", proof)?)?;
    lines.push(none_line(alloc, in_time, steps)?)?;
    Ok(lines)
}
