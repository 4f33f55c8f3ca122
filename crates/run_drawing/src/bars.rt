//! Which train holds which section when.

ghost use Rattle.std.specs.Prelude.{◌≡◌, ◌+◌, ◌*◌, ◌≤◌, [], ◌∷◌, ◌++◌, length, OnOk};
ghost use Rattle.drawing.specs.Drawing.{words_in};

use crate::axes::put_rule;
use crate::scale::{CHARACTER, LINE, Scale};
use crate::trains::train_color;
use drawing::{Anchor, Color, Picture, Point, put_bar, put_frame, put_note, put_words};
use rail_base::history::TrainHistory;
use rail_base::list::Name;
use rail_base::route::RouteNo;
use rail_base::station::SectionNo;
use std::alloc::{AllocError, Global};

/// How far below the lines of trains the row of a section of an index lies, counted from 0, in px from the top.
pub(crate) fn row_of(scale: &Scale, index: usize) -> u64 {
    (index as u64)
        .saturating_mul(LINE)
        .saturating_add(scale.bottom)
        .saturating_add(3 * LINE)
}

/// Appends a row for each section.
pub(crate) fn put_rows(
    alloc: Global,
    picture: &mut Picture,
    scale: &Scale,
    sections: &[Name],
) -> Result<(), AllocError>
    ensures words { OnOk result (words_in picture.new ≡ words_in picture.old ++ sections.now) }
    ensures size { OnOk result (length picture.new ≡ length picture.old + 2 * length sections.now) }
{
    for (index, name) in sections.iter().enumerate() {
        put_row(alloc, picture, scale, index, name.as_bytes())?;
    }
    Ok(())
}

/// Appends a bar for each section that the train of a number is given, from the grant to the release, or to the last
/// tick: a filled one where its route goes over the section, and an empty one where the section is of an overlap.
pub(crate) fn put_holdings(
    alloc: Global,
    picture: &mut Picture,
    scale: &Scale,
    train: usize,
    name: &[u8],
    history: &TrainHistory,
) -> Result<(), AllocError>
    ensures words { OnOk result (words_in picture.new ≡ words_in picture.old) }
    ensures size { let h = history.now in
        OnOk result (length picture.new ≤ length picture.old + 2 * length h.releases + 2 * length h.holds) }
{
    let color = train_color(train);
    let grants = history.grants.as_slice();
    let own = history.releases.as_slice();
    put_bars(alloc, picture, scale, Bar::Filled(color), name, grants, own)?;
    let held = history.holds.as_slice();
    put_bars(alloc, picture, scale, Bar::Empty(color), name, grants, held)
}

/// How a bar is drawn.
#[derive(Clone, Copy, Debug, PartialEq, Eq)]
enum Bar {
    /// Filled, for a section that a route goes over.
    Filled(Color),
    /// Empty, for one of the overlap at its end.
    Empty(Color),
}

/// Appends such a bar for each of these sections, from the grant of its route to the release, or to the last tick.
fn put_bars(
    alloc: Global,
    picture: &mut Picture,
    scale: &Scale,
    bar: Bar,
    name: &[u8],
    grants: &[(RouteNo, Option<u64>)],
    releases: &[(RouteNo, SectionNo, Option<u64>)],
) -> Result<(), AllocError>
    ensures words { OnOk result (words_in picture.new ≡ words_in picture.old) }
    ensures size { OnOk result (length picture.new ≤ length picture.old + 2 * length releases.now) }
{
    for (route, section, tick) in releases {
        if let Some(from) = grant_of(grants, *route) {
            let holding = Holding {
                section: *section,
                from,
                to: tick.unwrap_or(scale.ticks),
                bar,
            };
            put_holding(alloc, picture, scale, holding, name)?;
        }
    }
    Ok(())
}

/// Appends the row of a section of an index: a line across, and its name.
fn put_row(
    alloc: Global,
    picture: &mut Picture,
    scale: &Scale,
    index: usize,
    name: &[u8],
) -> Result<(), AllocError>
    ensures words { OnOk result (words_in picture.new ≡ words_in picture.old ++ name.now ∷ []) }
    ensures size { OnOk result (length picture.new ≡ length picture.old + 2) }
{
    let y = row_of(scale, index);
    put_rule(
        alloc,
        picture,
        Point { x: scale.left, y },
        Point {
            x: scale.right(),
            y,
        },
    )?;
    let place = Point {
        x: scale.left.saturating_sub(LINE / 2),
        y: y.saturating_add(4),
    };
    let text = Vec::from_slice(alloc, name)?;
    put_words(picture, place, Anchor::End, Color::Black, text)
}

/// A section that a train holds from a tick to another one, and how its bar is drawn.
#[derive(Clone, Copy, Debug)]
struct Holding {
    section: SectionNo,
    from: u64,
    to: u64,
    bar: Bar,
}

/// The tick at which a route is granted, if it is.
fn grant_of(grants: &[(RouteNo, Option<u64>)], route: RouteNo) -> Option<u64> {
    for (other, tick) in grants {
        if *other == route {
            return *tick;
        }
    }
    None
}

/// Appends the bar of a train that holds a section, with the train's name where there is room.
fn put_holding(
    alloc: Global,
    picture: &mut Picture,
    scale: &Scale,
    holding: Holding,
    name: &[u8],
) -> Result<(), AllocError>
    ensures words { OnOk result (words_in picture.new ≡ words_in picture.old) }
    ensures size { OnOk result (length picture.new ≤ length picture.old + 2) }
{
    let y = row_of(scale, (holding.section.0 as usize).saturating_sub(1));
    let left = scale.tick(holding.from);
    let width = scale.tick(holding.to).saturating_sub(left).max(1);
    let corner = Point {
        x: left,
        y: y.saturating_sub(6),
    };
    let text_color = match holding.bar {
        Bar::Filled(color) => {
            put_bar(picture, corner, width, 12, color)?;
            Color::White
        }
        Bar::Empty(color) => {
            put_frame(picture, corner, width, 12, color)?;
            color
        }
    };
    let needed = (name.len() as u64).saturating_mul(CHARACTER);
    if needed <= width {
        let place = Point {
            x: left.saturating_add(width / 2),
            y: y.saturating_add(4),
        };
        let text = Vec::from_slice(alloc, name)?;
        put_note(picture, place, Anchor::Middle, text_color, text)?;
    }
    Ok(())
}
