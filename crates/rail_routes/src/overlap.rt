//! The sections that are held behind the end of a route.

ghost use Rattle.std.specs.Prelude.{◌≡◌, ◌==◌, IfOk, find, unwrap_or};
ghost use Rattle.std.specs.Option.{option_copied};
ghost use Rattle.std.specs.List.{list_any};
ghost use Rattle.rail_base.specs.Stations.{no_overlap};
ghost use Rattle.rail_spec.specs.Track.{end_overlap, overlap_sections};
ghost use Rattle.rail_routes.specs.Walks.{is_new, sections_along, AreEdges};

use crate::route::first_sections;
use rail_base::design::Design;
use rail_base::list::List;
use rail_base::route::{Finish, OverlapSection};
use rail_base::station::{EdgeNo, Overlap, SectionNo, SignalNo};
use std::alloc::{AllocError, Global};

/// The sections that the overlap at the end of a path lists and that aren't on it, each once, in the order listed.
pub(crate) fn overlaps(
    alloc: Global,
    design: &Design,
    path: &[EdgeNo],
    finish: Finish,
) -> Result<List<OverlapSection>, AllocError>
    requires { AreEdges design.now.station path.now }
    ensures { let d = design.now.station in
        IfOk result (λ held. held ≡ overlap_sections (end_overlap d finish) (sections_along d path.now)) }
{
    match end_overlap(design, finish) {
        Some(overlap) => {
            let own = first_sections(alloc, design, path)?;
            not_own(alloc, overlap, own.as_slice())
        }
        None => Ok(List::new(alloc)),
    }
}

/// The overlap at the signal where a route ends, if it ends at a signal that has one.
fn end_overlap(design: &Design, finish: Finish) -> Option<&Overlap>
    ensures { unwrap_or (option_copied result) no_overlap ≡ end_overlap design.now.station finish }
{
    match finish {
        Finish::Signal(signal) => overlap_at(design, signal),
        Finish::Exit(_) | Finish::DeadEnd(_) => None,
    }
}

/// The overlap at a signal.
fn overlap_at(design: &Design, signal: SignalNo) -> Option<&Overlap>
    ensures { option_copied result ≡ find (λ o. o.signal.0 == signal.0) design.now.station.overlaps }
{
    design
        .station
        .overlaps
        .as_slice()
        .iter()
        .find(|overlap| overlap.signal.0 == signal.0)
}

/// The sections of an overlap that aren't own, each once, in the order listed.
fn not_own(
    alloc: Global,
    overlap: &Overlap,
    own: &[SectionNo],
) -> Result<List<OverlapSection>, AllocError>
    ensures { IfOk result (λ held. held ≡ overlap_sections overlap.now own.now) }
{
    let mut held = List::new(alloc);
    for section in overlap.sections.as_slice() {
        if is_new(own, held.as_slice(), *section) {
            held.push(OverlapSection {
                section: *section,
                hold_ms: overlap.hold_ms,
            })?;
        }
    }
    Ok(held)
}

/// Whether a section is neither own nor held already.
fn is_new(own: &[SectionNo], held: &[OverlapSection], section: SectionNo) -> bool
    ensures { result ≡ is_new own.now held.now section }
{
    !is_own(own, section) && !is_held(held, section)
}

/// Whether a section is own.
fn is_own(own: &[SectionNo], section: SectionNo) -> bool
    ensures { result ≡ list_any (λ z. z.0 == section.0) own.now }
{
    own.iter().any(|other| other.0 == section.0)
}

/// Whether a section is held already.
fn is_held(held: &[OverlapSection], section: SectionNo) -> bool
    ensures { result ≡ list_any (λ p. p.section.0 == section.0) held.now }
{
    held.iter().any(|part| part.section.0 == section.0)
}
