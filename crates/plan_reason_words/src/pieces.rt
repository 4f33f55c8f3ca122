//! Pieces of the lines: a name or a route, and the words at it.

ghost use Rattle.std.specs.Prelude.{◌++◌, OnOk};
ghost use Rattle.cone_words.specs.Routes.{route_text};
ghost use Rattle.rail_base.specs.Names.{section_name, train_name};
ghost use Rattle.rail_text.specs.Added.{AddsText};

use cone_words::put_route;
use interlocking::Interlocking;
use rail_base::names::{section_name, train_name};
use rail_base::route::RouteNo;
use rail_base::station::{SectionNo, TrainNo};
use std::alloc::AllocError;

/// Appends a train's name.
pub(crate) fn put_train(
    text: &mut Vec<u8>,
    interlocking: &Interlocking,
    train: TrainNo,
) -> Result<(), AllocError>
    ensures { OnOk result (AddsText text.old text.new (train_name interlocking.now.design.station train)) }
{
    text.extend_from_slice(train_name(&interlocking.design, train))
}

/// Appends words and a section's name.
pub(crate) fn put_section_name(
    text: &mut Vec<u8>,
    interlocking: &Interlocking,
    words: &[u8],
    section: SectionNo,
) -> Result<(), AllocError>
    ensures { let d = interlocking.now.design.station in
        OnOk result (AddsText text.old text.new (words.now ++ section_name d section)) }
{
    text.extend_from_slice(words)?;
    text.extend_from_slice(section_name(&interlocking.design, section))?;
    Ok(())
}

/// Appends words and a route.
pub(crate) fn put_after(
    text: &mut Vec<u8>,
    interlocking: &Interlocking,
    words: &[u8],
    route: RouteNo,
) -> Result<(), AllocError>
    ensures { let i = interlocking.now in OnOk result (AddsText text.old text.new
        (words.now ++ route_text i.design.station i.routes route)) }
{
    text.extend_from_slice(words)?;
    put_route(text, interlocking, route)?;
    Ok(())
}

/// Appends words, a route, and words.
pub(crate) fn put_between(
    text: &mut Vec<u8>,
    interlocking: &Interlocking,
    before: &[u8],
    route: RouteNo,
    behind: &[u8],
) -> Result<(), AllocError>
    ensures { let i = interlocking.now in OnOk result (AddsText text.old text.new
        (before.now ++ route_text i.design.station i.routes route ++ behind.now)) }
{
    text.extend_from_slice(before)?;
    put_route(text, interlocking, route)?;
    text.extend_from_slice(behind)?;
    Ok(())
}
