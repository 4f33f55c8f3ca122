//! Ticks, with the time that they take. An error is want of memory; then a part of what is appended may stand there.

ghost use Rattle.std.specs.Prelude.{◌≡◌, ◌<◌, ◌++◌, OnOk};
ghost use Rattle.rail_text.specs.Added.{AddsText};
ghost use Rattle.cone_words.specs.Times.{fraction_text, ms_of, seconds_text, tick_text, ticks_text, time_text};

use rail_base::design::Design;
use rail_text::put_number;
use std::alloc::AllocError;

/// Appends a number of ticks.
pub fn put_ticks(text: &mut Vec<u8>, design: &Design, ticks: u64) -> Result<(), AllocError>
    ensures { OnOk result (AddsText text.old text.new (ticks_text design.now.station ticks)) }
{
    put_number(text, ticks)?;
    text.extend_from_slice(if ticks == 1 { b" tick" } else { b" ticks" })?;
    put_time(text, design, ticks)
}

/// Appends a tick of the run.
pub fn put_tick(text: &mut Vec<u8>, design: &Design, tick: u64) -> Result<(), AllocError>
    ensures { OnOk result (AddsText text.old text.new (tick_text design.now.station tick)) }
{
    text.extend_from_slice(b"tick ")?;
    put_number(text, tick)?;
    put_time(text, design, tick)
}

/// So many ticks in ms, as far as 64 bits go.
pub fn ms_of(design: &Design, ticks: u64) -> u64
    ensures { result ≡ ms_of design.now.station ticks }
{
    ticks.saturating_mul(u64::from(design.station.tick_ms))
}

/// Appends the time that so many ticks take.
fn put_time(text: &mut Vec<u8>, design: &Design, ticks: u64) -> Result<(), AllocError>
    ensures { OnOk result (AddsText text.old text.new (time_text design.now.station ticks)) }
{
    text.extend_from_slice(b" (")?;
    put_seconds(text, ms_of(design, ticks))?;
    text.extend_from_slice(b" s)")
}

/// Appends so many ms in s.
fn put_seconds(text: &mut Vec<u8>, ms: u64) -> Result<(), AllocError>
    ensures { OnOk result (AddsText text.old text.new (seconds_text ms)) }
{
    put_number(text, ms / 1000)?;
    put_fraction(text, ms % 1000)
}

/// Appends so many thousandths, with no zero at the end.
fn put_fraction(text: &mut Vec<u8>, thousandths: u64) -> Result<(), AllocError>
    requires { thousandths < 1000 }
    ensures { OnOk result (AddsText text.old text.new (fraction_text thousandths)) }
{
    if thousandths == 0 {
        return Ok(());
    }
    let first = b'0' + (thousandths / 100) as u8;
    if thousandths % 100 == 0 {
        return text.extend_from_slice(&[b'.', first]);
    }
    let second = b'0' + (thousandths / 10 % 10) as u8;
    if thousandths % 10 == 0 {
        return text.extend_from_slice(&[b'.', first, second]);
    }
    let third = b'0' + (thousandths % 10) as u8;
    text.extend_from_slice(&[b'.', first, second, third])
}
