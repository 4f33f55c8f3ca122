//! The files of a command, read.

ghost use Rattle.std.specs.Prelude.{◌≡◌, ◌≤◌, [], ◌∷◌, length, IfOk, OnOk, Some, ℕ, List};
ghost use Rattle.rail_outside.specs.Asks.{fetched};
ghost use Rattle.rail_outside.specs.Files.{Files};
ghost use Rattle.rail_outside.specs.Growth.{grown};
ghost use Rattle.cli_shell.specs.Uses.{OnlyFetches};
ghost use Rattle.cli_shell.specs.Answers.{within_limit, with_routes, design_or_answer, and_then, design_in, with_within};
ghost use Rattle.cli_shell.specs.Replies.{ReadsOrEnds, RefusesFile, OnlyRefuses};
ghost use Rattle.infra_reader.specs.Design.{design_of};
ghost use Rattle.design_table.specs.Reads.{GivesOrRefuses};

use crate::ending::Ending;
use crate::input::InputFile;
use crate::refusals::{design_refused, ending_of, no_within, too_long};
use design_table::{Code, DesignFault, EntryKind, Place};
use infra_reader::read_design;
use interlocking::Interlocking;
use rail_base::design::Design;
use rail_outside::{FetchFault, Shelf};
use rail_routes::{RouteFault, interlocking};
use std::alloc::Global;

/// The bytes of a file within its limit. The ending says that there are more, or is want of memory or a fault of the
/// shelf.
pub fn fetch<S: Shelf>(
    alloc: Global,
    shelf: &mut S,
    file: InputFile,
    name: &str,
) -> Result<Vec<u8>, Ending>
    ensures reads { (files : Files) → S.known_files shelf.old ≡ Some files
        → ReadsOrEnds (λ v. v.items) result (within_limit file (files name.now)) }
    ensures for_some_bytes { (bytes : List ℕ) × ReadsOrEnds (λ v. v.items) result (within_limit file bytes) }
    ensures refuses { RefusesFile result }
    ensures uses { OnlyFetches S.known_files S.asked S.fault_count shelf.old shelf.new
        (fetched name.now ∷ []) (result ≡ Err Ending.ShelfFault) }
    ensures asked { OnOk result (S.asked shelf.new ≡ grown (S.asked shelf.old) (fetched name.now ∷ [])) }
{
    match shelf.fetch(alloc, name, file.limit()) {
        Ok(bytes) => Ok(bytes),
        Err(FetchFault::TooLong { .. }) => Err(ending_of(too_long(alloc, file))),
        Err(FetchFault::Failed) => Err(Ending::ShelfFault),
        Err(FetchFault::Memory) => Err(Ending::Memory),
    }
}

/// The design that is parsed from the bytes, with its routes. The error is the code and the place with which it is
/// refused, or want of memory.
pub fn admit_design(alloc: Global, bytes: &[u8]) -> Result<Interlocking, DesignFault>
    ensures { GivesOrRefuses (λ i. i.design.station) result (and_then (design_of bytes.now) with_routes) }
{
    let design = read_design(alloc, bytes)?;
    listed(alloc, design)
}

/// A design with its routes, where they can be listed.
fn listed(alloc: Global, design: Design) -> Result<Interlocking, DesignFault>
    ensures reads { GivesOrRefuses (λ i. i.design.station) result (with_routes design.station) }
    ensures same { IfOk result (λ i. i.design ≡ design) }
{
    match interlocking(alloc, design) {
        Ok(interlocking) => Ok(interlocking),
        Err(RouteFault::RepeatsEdge { edge }) => Err(DesignFault::Refused {
            code: Code::D12,
            place: Place::Entry(EntryKind::Edge, u64::from(edge.0)),
        }),
        Err(RouteFault::TooMany) => Err(DesignFault::Refused {
            code: Code::D13,
            place: Place::Routes,
        }),
        Err(RouteFault::Memory) => Err(DesignFault::Memory),
    }
}

/// The design that is parsed from the bytes, with its routes. The ending says why it is refused, or is want of memory.
pub fn admit(alloc: Global, bytes: &[u8]) -> Result<Interlocking, Ending>
    ensures reads { ReadsOrEnds (λ i. i.design.station) result (design_in bytes.now) }
    ensures refuses { OnlyRefuses result }
{
    match admit_design(alloc, bytes) {
        Ok(interlocking) => Ok(interlocking),
        Err(DesignFault::Refused { code, place }) => {
            Err(ending_of(design_refused(alloc, code, place)))
        }
        Err(DesignFault::Memory) => Err(Ending::Memory),
    }
}

/// A design with its routes. The ending says why it is refused, or is want of memory.
pub fn interlock(alloc: Global, design: Design) -> Result<Interlocking, Ending>
    ensures reads { ReadsOrEnds (λ i. i.design.station) result (design_or_answer (with_routes design.station)) }
    ensures refuses { OnlyRefuses result }
    ensures same { IfOk result (λ i. i.design ≡ design) }
{
    match listed(alloc, design) {
        Ok(interlocking) => Ok(interlocking),
        Err(DesignFault::Refused { code, place }) => {
            Err(ending_of(design_refused(alloc, code, place)))
        }
        Err(DesignFault::Memory) => Err(Ending::Memory),
    }
}

/// Whether a design has a within of this number. The ending says that it has none, or is want of memory.
pub fn admit_within(alloc: Global, design: &Design, within: u32) -> Result<(), Ending>
    ensures reads { let d = design.now.station in ReadsOrEnds (λ _. d) result (with_within within d) }
    ensures refuses { OnlyRefuses result }
    ensures has { OnOk result (within ≤ length design.now.station.withins) }
{
    if within as usize <= design.station.withins.len() {
        return Ok(());
    }
    Err(ending_of(no_within(alloc)))
}
