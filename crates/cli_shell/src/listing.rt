//! The routes of a design, listed.

ghost use Rattle.std.specs.Prelude.{◌≡◌, ◌++◌, [], ◌∷◌, true, IfOk, OnOk, Some, ℕ, List};
ghost use Rattle.std.specs.List.{flat_map};
ghost use Rattle.rail_outside.specs.Asks.{fetched};
ghost use Rattle.rail_outside.specs.Files.{Files};
ghost use Rattle.rail_outside.specs.Lines.{lines_of};
ghost use Rattle.cli_shell.specs.Uses.{OnlyFetches};
ghost use Rattle.cli_shell.specs.Statuses.{is_verdict};
ghost use Rattle.cli_shell.specs.Answers.{routes_answer, routes_reply};
ghost use Rattle.cli_shell.specs.Listings.{start_text, finish_text, release_text, hold_text, overlap_text, route_line};
ghost use Rattle.cli_shell.specs.Listings.{routes_text};
ghost use Rattle.cli_shell.specs.Replies.{RepliesWith, RefusesFile, Replies};

use crate::ending::Ending;
use crate::input::InputFile;
use crate::reading::{admit, fetch};
use crate::reply::Reply;
use crate::status::Status;
use interlocking::Interlocking;
use rail_base::design::Design;
use rail_base::names::{node_name, section_name, signal_name};
use rail_base::route::{Finish, OverlapSection, Route, Start};
use rail_base::station::SectionNo;
use rail_outside::Shelf;
use rail_text::put_number;
use std::alloc::{AllocError, Global};

/// The reply that lists routes, by the name of the design's file. The ending refuses the file, or is want of memory or
/// a fault of the shelf.
pub fn routes_reply<S: Shelf>(alloc: Global, shelf: &mut S, design: &str) -> Result<Reply, Ending>
    ensures replies { (files : Files) → S.known_files shelf.old ≡ Some files
        → Replies result (routes_reply (files design.now)) }
    ensures for_some_files { (design_bytes : List ℕ) × Replies result (routes_reply design_bytes) }
    ensures verdict { IfOk result (λ reply. is_verdict reply.status ≡ true) }
    ensures refuses { RefusesFile result }
    ensures uses { OnlyFetches S.known_files S.asked S.fault_count shelf.old shelf.new
        (fetched design.now ∷ []) (result ≡ Err Ending.ShelfFault) }
{
    let bytes = fetch(alloc, shelf, InputFile::Design, design)?;
    let interlocking = admit(alloc, bytes.as_slice())?;
    Ok(list(alloc, &interlocking)?)
}

/// Appends where a route begins.
fn put_start(line: &mut Vec<u8>, design: &Design, start: Start) -> Result<(), AllocError>
    ensures { OnOk result (line.new.items ≡ line.old.items ++ start_text design.now.station start) }
{
    match start {
        Start::Boundary(node) => {
            line.extend_from_slice(b"boundary:")?;
            line.extend_from_slice(node_name(design, node))
        }
        Start::Signal(signal) => {
            line.extend_from_slice(b"signal:")?;
            line.extend_from_slice(signal_name(design, signal))
        }
    }
}

/// Appends where a route ends.
fn put_finish(line: &mut Vec<u8>, design: &Design, finish: Finish) -> Result<(), AllocError>
    ensures { OnOk result (line.new.items ≡ line.old.items ++ finish_text design.now.station finish) }
{
    match finish {
        Finish::Exit(node) => {
            line.extend_from_slice(b"boundary:")?;
            line.extend_from_slice(node_name(design, node))
        }
        Finish::Signal(signal) => {
            line.extend_from_slice(b"signal:")?;
            line.extend_from_slice(signal_name(design, signal))
        }
        Finish::DeadEnd(node) => {
            line.extend_from_slice(b"dead:")?;
            line.extend_from_slice(node_name(design, node))
        }
    }
}

/// Appends ` <section>=<offset>`, with the offset in mm at which the section is released.
fn put_release(
    line: &mut Vec<u8>,
    design: &Design,
    section: SectionNo,
    offset: i64,
) -> Result<(), AllocError>
    ensures { OnOk result (line.new.items ≡ line.old.items ++ release_text design.now.station (section, offset)) }
{
    line.push(b' ')?;
    line.extend_from_slice(section_name(design, section))?;
    line.push(b'=')?;
    put_number(line, offset.unsigned_abs())
}

/// Appends all sections with their offsets.
fn put_releases(
    line: &mut Vec<u8>,
    design: &Design,
    sections: &[(SectionNo, i64)],
) -> Result<(), AllocError>
    ensures { OnOk result (line.new.items ≡ line.old.items ++ flat_map (release_text design.now.station) sections.now) }
{
    for (section, offset) in sections {
        put_release(line, design, *section, *offset)?;
    }
    Ok(())
}

/// Appends ` <section>+<ms>`, with how long the section is held after the arrival at the route's end.
fn put_hold(line: &mut Vec<u8>, design: &Design, part: &OverlapSection) -> Result<(), AllocError>
    ensures { OnOk result (line.new.items ≡ line.old.items ++ hold_text design.now.station part.now) }
{
    line.push(b' ')?;
    line.extend_from_slice(section_name(design, part.section))?;
    line.push(b'+')?;
    put_number(line, u64::from(part.hold_ms))
}

/// Appends all overlap sections with how long each is held.
fn put_holds(
    line: &mut Vec<u8>,
    design: &Design,
    parts: &[OverlapSection],
) -> Result<(), AllocError>
    ensures { OnOk result (line.new.items ≡ line.old.items ++ flat_map (hold_text design.now.station) parts.now) }
{
    for part in parts {
        put_hold(line, design, part)?;
    }
    Ok(())
}

/// Appends ` overlap` and all overlap sections, where there is one.
fn put_overlap(
    line: &mut Vec<u8>,
    design: &Design,
    parts: &[OverlapSection],
) -> Result<(), AllocError>
    ensures { OnOk result (line.new.items ≡ line.old.items ++ overlap_text design.now.station parts.now) }
{
    if parts.is_empty() {
        return Ok(());
    }
    line.extend_from_slice(b" overlap")?;
    put_holds(line, design, parts)
}

/// `route <r> <start> <end> length <mm> sections`, and then each section and each overlap section.
fn route_line(
    alloc: Global,
    design: &Design,
    number: u64,
    route: &Route,
) -> Result<Vec<u8>, AllocError>
    ensures { IfOk result (λ line. line.items ≡ route_line design.now.station (number, route.now)) }
{
    let mut line = Vec::from_slice(alloc, b"route ")?;
    put_number(&mut line, number)?;
    line.push(b' ')?;
    put_start(&mut line, design, route.start)?;
    line.push(b' ')?;
    put_finish(&mut line, design, route.finish)?;
    line.extend_from_slice(b" length ")?;
    put_number(&mut line, route.length_mm())?;
    line.extend_from_slice(b" sections")?;
    put_releases(&mut line, design, route.sections.as_slice())?;
    put_overlap(&mut line, design, route.overlaps.as_slice())?;
    line.push(b'\n')?;
    Ok(line)
}

/// The lines of all routes.
fn route_lines(alloc: Global, design: &Design, routes: &[Route]) -> Result<Vec<Vec<u8>>, AllocError>
    ensures { IfOk result (λ lines. lines_of lines.items ≡ routes_text design.now.station routes.now) }
{
    let mut lines = Vec::new(alloc);
    for (index, route) in routes.iter().enumerate() {
        lines.push(route_line(alloc, design, index as u64 + 1, route)?)?;
    }
    Ok(lines)
}

/// The routes of a design.
fn list(alloc: Global, interlocking: &Interlocking) -> Result<Reply, AllocError>
    ensures routes_answer { RepliesWith result (routes_answer interlocking.now.design.station) }
    ensures verdict { IfOk result (λ reply. is_verdict reply.status ≡ true) }
{
    Ok(Reply {
        status: Status::Done,
        lines: route_lines(alloc, &interlocking.design, interlocking.routes.as_slice())?,
    })
}
