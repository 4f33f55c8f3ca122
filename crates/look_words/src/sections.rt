//! Sections whose name may be a slip.

ghost use Rattle.std.specs.Prelude.{◌≡◌, filter, length, option_map, IfOk, OnOk, ◌==◌};
ghost use Rattle.std.specs.List.{find, flat_map};
ghost use Rattle.rail_base.specs.Numbering.{one_to};
ghost use Rattle.rail_text.specs.Added.{AddsLines};
ghost use Rattle.look_words.specs.Sections.{differ_in_one, is_letter, is_lone, name_of, near, section_looks, slip_line};
ghost use Rattle.look_words.specs.Sections.{slipped_sections, slips};

use rail_base::design::Design;
use rail_base::list::Name;
use rail_base::names::entry;
use rail_base::station::Edge;
use std::alloc::{AllocError, Global};

/// Whether a byte is no digit.
fn is_letter(byte: u8) -> bool
    ensures { result ≡ is_letter byte }
{
    byte < b'0' || byte > b'9'
}

/// Whether two names differ in one letter.
fn differ_in_one(one: &[u8], other: &[u8]) -> bool
    ensures { result ≡ differ_in_one one.now other.now }
{
    match (one, other) {
        ([], []) => false,
        ([], [y, rest @ ..]) => is_letter(*y) && rest.is_empty(),
        ([x, rest @ ..], []) => is_letter(*x) && rest.is_empty(),
        ([x, xs @ ..], [y, ys @ ..]) => {
            if x == y {
                differ_in_one(xs, ys)
            } else {
                is_letter(*x) && is_letter(*y) && xs == ys
                    || is_letter(*y) && one == ys
                    || is_letter(*x) && xs == other
            }
        }
    }
}

/// How many edges have the section.
fn count_edges(edges: &[Edge], section: usize) -> usize
    ensures { result ≡ length (filter (λ e. e.section.0 == section) edges.now) }
{
    let mut count = 0;
    for edge in edges {
        if edge.section.0 as usize == section {
            count += 1;
        }
    }
    count
}

/// Whether one edge alone has the section.
fn is_lone(design: &Design, section: usize) -> bool
    ensures { result ≡ is_lone design.now.station section }
{
    count_edges(design.station.edges.as_slice(), section) == 1
}

/// The name of a section.
fn name_of(design: &Design, section: usize) -> &[u8]
    ensures { result.now ≡ name_of design.now.station section }
{
    match entry(design.station.sections.as_slice(), section) {
        Some(name) => name.as_bytes(),
        None => &[],
    }
}

/// The first name that differs from this one in one letter.
fn near<'a>(names: &'a [Name], name: &[u8]) -> Option<&'a [u8]>
    ensures { option_map (λ other. other.now) result ≡ find (differ_in_one name.now) names.now }
{
    for other in names {
        if differ_in_one(name, other.as_bytes()) {
            return Some(other.as_bytes());
        }
    }
    None
}

/// That a section may be another.
fn slip_line(alloc: Global, name: &[u8], other: &[u8]) -> Result<Vec<u8>, AllocError>
    ensures { IfOk result (λ line. line.items ≡ slip_line name.now other.now) }
{
    let mut line = Vec::new(alloc);
    line.extend_from_slice(b"section ")?;
    line.extend_from_slice(name)?;
    line.extend_from_slice(b" is on one edge alone: is it ")?;
    line.extend_from_slice(other)?;
    line.extend_from_slice(b"?\n")?;
    Ok(line)
}

/// Appends that a section may be another, where there is one.
fn push_slip(
    alloc: Global,
    name: &[u8],
    other: Option<&[u8]>,
    lines: &mut Vec<Vec<u8>>,
) -> Result<(), AllocError>
    ensures { OnOk result (AddsLines lines.old lines.new (slips name.now (option_map (λ other. other.now) other.entry))) }
{
    let Some(other) = other else {
        return Ok(());
    };
    let line = slip_line(alloc, name, other)?;
    lines.push(line)?;
    Ok(())
}

/// Appends that a section that one edge alone has may be another.
fn push_section(
    alloc: Global,
    design: &Design,
    section: usize,
    lines: &mut Vec<Vec<u8>>,
) -> Result<(), AllocError>
    ensures { OnOk result (AddsLines lines.old lines.new (section_looks design.now.station section)) }
{
    if !is_lone(design, section) {
        return Ok(());
    }
    let name = name_of(design, section);
    let other = near(design.station.sections.as_slice(), name);
    push_slip(alloc, name, other, lines)?;
    Ok(())
}

/// Appends the sections that one edge alone has and whose name differs in one letter from that of another section.
/// An error leaves a part of the lines.
pub fn push_slipped_sections(
    alloc: Global,
    design: &Design,
    lines: &mut Vec<Vec<u8>>,
) -> Result<(), AllocError>
    ensures { OnOk result (AddsLines lines.old lines.new (slipped_sections design.now.station)) }
{
    let sections = design.station.sections.len();
    for index in 0..sections {
        push_section(alloc, design, index + 1, lines)?;
    }
    Ok(())
}
