//! Names, each once: at its mark, or in the list of those that found no room there.

ghost use Rattle.std.specs.Prelude.{◌≡◌, ◌≤◌, ◌+◌, ◌++◌, length, map, OnOk};
ghost use Rattle.drawing.specs.Drawing.{LabelsAreApart, words_in};
ghost use Rattle.track_drawing.specs.Words.{node_name, signal_name};

use crate::spots::{Listing, section_spot, spot_of};
use drawing::{Anchor, Color, Picture, Point, Style, put_name, put_note};
use rail_base::list::Name;
use rail_base::station::{Node, Signal};
use std::alloc::{AllocError, Global};

/// The place of a name beside its mark, by its index, if there is room.
fn place_at(places: &[Option<Point>], index: usize) -> Option<Point> {
    match places.get(index) {
        Some(place) => *place,
        None => None,
    }
}

/// Begins a list of names, if there is to be one.
pub(crate) fn put_heading(
    alloc: Global,
    picture: &mut Picture,
    listing: &mut Listing,
    places: &[Option<Point>],
    heading: &[u8],
) -> Result<(), AllocError>
    ensures words { OnOk result (words_in picture.new ≡ words_in picture.old) }
    ensures apart { OnOk result (LabelsAreApart picture.old → LabelsAreApart picture.new) }
    ensures size { OnOk result (length picture.new ≤ length picture.old + 1) }
{
    if !has_gap(places) {
        return Ok(());
    }
    listing.new_line();
    let text = Vec::from_slice(alloc, heading)?;
    put_note(picture, listing.next(), Anchor::Start, Color::Black, text)?;
    listing.go_on(heading.len());
    Ok(())
}

/// Whether there is a name without a place beside its mark.
fn has_gap(places: &[Option<Point>]) -> bool {
    for place in places {
        if place.is_none() {
            return true;
        }
    }
    false
}

/// Appends the name of each section.
pub(crate) fn put_section_names(
    alloc: Global,
    picture: &mut Picture,
    listing: &mut Listing,
    places: &[Option<Point>],
    sections: &[Name],
) -> Result<(), AllocError>
    ensures words { OnOk result (words_in picture.new ≡ words_in picture.old ++ sections.now) }
    ensures apart { OnOk result (LabelsAreApart picture.old → LabelsAreApart picture.new) }
    ensures size { OnOk result (length picture.new ≡ length picture.old + length sections.now) }
{
    for (index, name) in sections.iter().enumerate() {
        let text = name.as_bytes();
        let spot = section_spot(place_at(places, index), listing, text);
        if !put_name(alloc, picture, spot, text)? {
            listing.go_on(text.len());
        }
    }
    Ok(())
}

/// Appends the name of each node.
pub(crate) fn put_node_names(
    alloc: Global,
    picture: &mut Picture,
    listing: &mut Listing,
    places: &[Option<Point>],
    nodes: &[Node],
) -> Result<(), AllocError>
    ensures words { OnOk result (words_in picture.new ≡ words_in picture.old ++ map node_name nodes.now) }
    ensures apart { OnOk result (LabelsAreApart picture.old → LabelsAreApart picture.new) }
    ensures size { OnOk result (length picture.new ≡ length picture.old + length nodes.now) }
{
    for (index, node) in nodes.iter().enumerate() {
        let text = node.name.as_bytes();
        let style = if node.boundary {
            Style::Bold
        } else {
            Style::Plain
        };
        let spot = spot_of(place_at(places, index), listing, style, Color::Black);
        if !put_name(alloc, picture, spot, text)? {
            listing.go_on(text.len());
        }
    }
    Ok(())
}

/// Appends the name of each signal.
pub(crate) fn put_signal_names(
    alloc: Global,
    picture: &mut Picture,
    listing: &mut Listing,
    places: &[Option<Point>],
    signals: &[Signal],
) -> Result<(), AllocError>
    ensures words { OnOk result (words_in picture.new ≡ words_in picture.old ++ map signal_name signals.now) }
    ensures apart { OnOk result (LabelsAreApart picture.old → LabelsAreApart picture.new) }
    ensures size { OnOk result (length picture.new ≡ length picture.old + length signals.now) }
{
    for (index, signal) in signals.iter().enumerate() {
        let text = signal.name.as_bytes();
        let spot = spot_of(place_at(places, index), listing, Style::Plain, Color::Red);
        if !put_name(alloc, picture, spot, text)? {
            listing.go_on(text.len());
        }
    }
    Ok(())
}
