//! What is the same in many lines, said once at the end. An error is want of memory.

ghost use Rattle.std.specs.Prelude.{◌≡◌, filter, length, map, Some, IfOk, OnOk};
ghost use Rattle.std.specs.List.{list_any};
ghost use Rattle.rail_text.specs.Added.{AddsLines, AddsText};
ghost use Rattle.evidence_words.specs.Failings.{seen};
ghost use Rattle.proof_words.specs.Said.{lent_seen};
ghost use Rattle.proof_words.specs.Summaries.{is_same, least_shortfall, lesser, one_of_each, shortfall_text};
ghost use Rattle.proof_words.specs.Summaries.{summary_line, summary_lines};

use cone_words::ms_of;
use evidence_words::Failing;
use rail_base::design::Design;
use rail_text::put_number;
use std::alloc::{AllocError, Global};

/// Appends a line for each requirement that fails by some line.
pub(crate) fn push_summary(
    alloc: Global,
    design: &Design,
    failings: &[Failing],
    lines: &mut Vec<Vec<u8>>,
) -> Result<(), AllocError>
    ensures { OnOk result (AddsLines lines.old lines.new
        (summary_lines design.now.station (map seen failings.now))) }
{
    let kinds = one_of_each(alloc, failings)?;
    for kind in &kinds {
        let line = summary_line(alloc, design, failings, kind)?;
        lines.push(line)?;
    }
    Ok(())
}

/// One of each requirement: the first that there is.
fn one_of_each(alloc: Global, failings: &[Failing]) -> Result<Vec<&Failing>, AllocError>
    ensures { IfOk result (λ kinds. lent_seen kinds.items ≡ one_of_each (map seen failings.now)) }
{
    let mut kinds = Vec::new(alloc);
    for failing in failings {
        if !has_same(&kinds, failing) {
            kinds.push(failing)?;
        }
    }
    Ok(kinds)
}

/// Whether both are of one requirement.
fn is_same(failing: &Failing, other: &Failing) -> bool
    ensures { result ≡ is_same (seen failing.now) (seen other.now) }
{
    failing.name.as_slice() == other.name.as_slice()
}

/// Whether one of these is of the same requirement.
fn has_same(kinds: &[&Failing], failing: &Failing) -> bool
    ensures { result ≡ list_any (λ kind. is_same kind (seen failing.now)) (lent_seen kinds.now) }
{
    for kind in kinds {
        if is_same(kind, failing) {
            return true;
        }
    }
    false
}

/// How many of these are of the same requirement.
fn count_same(failings: &[Failing], failing: &Failing) -> usize
    ensures { result ≡ length (filter (is_same (seen failing.now)) (map seen failings.now)) }
{
    let mut count = 0;
    for other in failings {
        if is_same(failing, other) {
            count += 1;
        }
    }
    count
}

/// The lesser one, where there are any.
fn lesser(one: Option<u64>, other: Option<u64>) -> Option<u64>
    ensures { result ≡ lesser one other }
{
    match (one, other) {
        (None, other) => other,
        (Some(one), None) => Some(one),
        (Some(one), Some(other)) => Some(one.min(other)),
    }
}

/// The least shortfall of those of the same requirement, where there is one.
fn least_shortfall(failings: &[Failing], failing: &Failing) -> Option<u64>
    ensures { result ≡ least_shortfall (filter (is_same (seen failing.now)) (map seen failings.now)) }
{
    let mut least = None;
    for other in failings {
        if is_same(failing, other) {
            least = lesser(least, other.shortfall);
        }
    }
    least
}

/// Appends a shortfall of so many ticks.
fn put_ticks_short(text: &mut Vec<u8>, design: &Design, ticks: u64) -> Result<(), AllocError>
    ensures { OnOk result (AddsText text.old text.new (shortfall_text design.now.station (Some ticks))) }
{
    text.extend_from_slice(b", least shortfall ")?;
    put_number(text, ms_of(design, ticks))?;
    text.extend_from_slice(b" ms")?;
    Ok(())
}

/// Appends a shortfall, where there is one.
fn put_shortfall(text: &mut Vec<u8>, design: &Design, least: Option<u64>) -> Result<(), AllocError>
    ensures { OnOk result (AddsText text.old text.new (shortfall_text design.now.station least)) }
{
    match least {
        None => Ok(()),
        Some(ticks) => put_ticks_short(text, design, ticks),
    }
}

/// In how many of these lines the same requirement fails, and by how much at the least.
fn summary_line(
    alloc: Global,
    design: &Design,
    failings: &[Failing],
    failing: &Failing,
) -> Result<Vec<u8>, AllocError>
    ensures { IfOk result (λ text. text.items
        ≡ summary_line design.now.station (map seen failings.now) (seen failing.now)) }
{
    let mut text = Vec::new(alloc);
    put_number(&mut text, failings.len() as u64)?;
    text.extend_from_slice(b" lines: ")?;
    text.extend_from_slice(failing.name.as_slice())?;
    text.extend_from_slice(b" fails in ")?;
    put_number(&mut text, count_same(failings, failing) as u64)?;
    text.extend_from_slice(b" of them")?;
    put_shortfall(&mut text, design, least_shortfall(failings, failing))?;
    text.push(b'\n')?;
    Ok(text)
}
