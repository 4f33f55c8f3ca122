//! Numbers of mm.

ghost use Rattle.std.specs.Prelude.{◌++◌, decimal, OnOk};
ghost use Rattle.rail_text.specs.Added.{AddsText};

use rail_text::put_number;
use std::alloc::AllocError;

/// Appends the decimal digits of a number.
pub(crate) fn put_wide(text: &mut Vec<u8>, number: u128) -> Result<(), AllocError>
    ensures { OnOk result (AddsText text.old text.new (decimal number)) }
{
    let mut buffer = itoa::Buffer::new();
    text.extend_from_slice(buffer.format(number).as_bytes())
}

/// Appends words, the decimal digits of a number, and words.
pub(crate) fn put_wide_between(
    text: &mut Vec<u8>,
    before: &[u8],
    number: u128,
    behind: &[u8],
) -> Result<(), AllocError>
    ensures { OnOk result (AddsText text.old text.new (before.now ++ decimal number ++ behind.now)) }
{
    text.extend_from_slice(before)?;
    put_wide(text, number)?;
    text.extend_from_slice(behind)?;
    Ok(())
}

/// Appends words and the number of a step.
pub(crate) fn put_step(text: &mut Vec<u8>, words: &[u8], step: usize) -> Result<(), AllocError>
    ensures { OnOk result (AddsText text.old text.new (words.now ++ decimal step)) }
{
    text.extend_from_slice(words)?;
    put_number(text, step as u64)?;
    Ok(())
}
