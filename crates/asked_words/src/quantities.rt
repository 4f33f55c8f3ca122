//! Lengths, speeds and times as people say them. An error is want of memory; then a part of what is appended may stand
//! there.

ghost use Rattle.std.specs.Prelude.{◌≡◌, ◌<◌, ◌≤◌, ◌^◌, OnOk};
ghost use Rattle.rail_text.specs.Added.{AddsText};
ghost use Rattle.asked_words.specs.Quantities.{digits_of, duration_text, fraction_text, metres_text, seconds_text};
ghost use Rattle.asked_words.specs.Quantities.{speed_text, units_text};

use rail_text::put_number;
use std::alloc::AllocError;

/// Ten to the power of `digits`, which are at most 4.
fn power_of_ten(digits: u32) -> u64
    requires { digits ≤ 4 }
    ensures value { result ≡ 10 ^ digits }
    ensures some { 0 < result }
{
    match digits {
        0 => 1,
        1 => 10,
        2 => 100,
        3 => 1000,
        _ => 10000,
    }
}

/// Appends so many digits of a number that has no more, until nothing but zeros is left.
fn put_digits(text: &mut Vec<u8>, digits: u32, number: u64) -> Result<(), AllocError>
    requires few { digits ≤ 4 }
    requires fits { number < 10 ^ digits }
    ensures { OnOk result (AddsText text.old text.new (digits_of digits number)) }
{
    if number == 0 {
        return Ok(());
    }
    let unit = power_of_ten(digits - 1);
    text.push(b'0' + (number / unit) as u8)?;
    put_digits(text, digits - 1, number % unit)?;
    Ok(())
}

/// Appends a number of units that have 10^digits parts each, by its parts.
fn put_units(text: &mut Vec<u8>, digits: u32, number: u64) -> Result<(), AllocError>
    requires { digits ≤ 4 }
    ensures { OnOk result (AddsText text.old text.new (units_text digits number)) }
{
    let unit = power_of_ten(digits);
    put_number(text, number / unit)?;
    put_fraction(text, digits, number % unit)?;
    Ok(())
}

/// Appends a point and so many digits, where there is something.
fn put_fraction(text: &mut Vec<u8>, digits: u32, number: u64) -> Result<(), AllocError>
    requires few { digits ≤ 4 }
    requires fits { number < 10 ^ digits }
    ensures { OnOk result (AddsText text.old text.new (fraction_text digits number)) }
{
    if number == 0 {
        return Ok(());
    }
    text.push(b'.')?;
    put_digits(text, digits, number)?;
    Ok(())
}

/// Appends so many mm in m.
pub fn put_metres(text: &mut Vec<u8>, mm: u32) -> Result<(), AllocError>
    ensures { OnOk result (AddsText text.old text.new (metres_text mm)) }
{
    put_units(text, 3, u64::from(mm))?;
    text.extend_from_slice(b" m")?;
    Ok(())
}

/// Appends so many mm/s in km/h.
pub fn put_speed(text: &mut Vec<u8>, mm_s: u32) -> Result<(), AllocError>
    ensures { OnOk result (AddsText text.old text.new (speed_text mm_s)) }
{
    put_units(text, 4, u64::from(mm_s) * 36)?;
    text.extend_from_slice(b" km/h")?;
    Ok(())
}

/// Appends so many ms in s.
fn put_seconds(text: &mut Vec<u8>, ms: u64) -> Result<(), AllocError>
    ensures { OnOk result (AddsText text.old text.new (seconds_text ms)) }
{
    put_units(text, 3, ms)?;
    text.extend_from_slice(b" s")?;
    Ok(())
}

/// Appends so many ms in minutes and seconds.
pub fn put_duration(text: &mut Vec<u8>, ms: u64) -> Result<(), AllocError>
    ensures { OnOk result (AddsText text.old text.new (duration_text ms)) }
{
    if ms < 60000 {
        return put_seconds(text, ms);
    }
    put_number(text, ms / 60000)?;
    text.extend_from_slice(b" min ")?;
    put_seconds(text, ms % 60000)?;
    Ok(())
}
