//! Names at their marks, none of which meets another.

ghost use Rattle.std.specs.Prelude.{◌≡◌, ◌+◌, ◌++◌, [], ◌∷◌, true, length, IfOk, IfSome, OnOk};
ghost use Rattle.std.specs.List.{list_all};
ghost use Rattle.drawing.specs.Drawing.{LabelsAreApart, are_disjoint, areas_in, label_area, words_in};

use crate::shape::{Anchor, Area, Color, Picture, Point, Shape, Style};
use rail_base::list::Name;
use std::alloc::{AllocError, Global};

/// The farthest that labels stand, in px.
const FAR: u64 = 1_000_000_000;

/// The most characters of a label.
const LONG: usize = 1_000_000;

/// A name that is to be shown, and where it may stand.
#[derive(Clone, Copy, Debug)]
pub struct Spot {
    /// Where it begins beside its mark, if there is room.
    pub beside: Option<Point>,
    /// Where it begins otherwise.
    pub listed: Point,
    pub style: Style,
    pub color: Color,
}

/// Appends a name as a label beside its mark where it meets no other label, and else as words where it is listed, and
/// says which. `Err` is want of memory.
pub fn put_name(
    alloc: Global,
    picture: &mut Picture,
    spot: Spot,
    name: &[u8],
) -> Result<bool, AllocError>
    ensures words { OnOk result (words_in picture.new ≡ words_in picture.old ++ name.now ∷ []) }
    ensures apart { OnOk result (LabelsAreApart picture.old → LabelsAreApart picture.new) }
    ensures size { OnOk result (length picture.new ≡ length picture.old + 1) }
{
    let text = Name::from_vec(Vec::from_slice(alloc, name)?);
    match spot.beside {
        Some(place) => put_label(picture, spot, place, text),
        None => put_listed(picture, spot, text),
    }
}

/// The area of a label, unless it is too far away or too long.
fn area_at(place: Point, text: &[u8]) -> Option<Area>
    ensures { IfSome result (λ area. area ≡ label_area place text.now) }
{
    if place.x > FAR || place.y > FAR || text.len() > LONG {
        return None;
    }
    Some(Area {
        left: place.x,
        top: place.y.saturating_sub(9),
        right: place.x + 6 * text.len() as u64 + 2,
        bottom: place.y + 2,
    })
}

/// Whether no point is inside both areas.
fn are_beside(one: Area, other: Area) -> bool
    ensures { result ≡ are_disjoint one other }
{
    one.right <= other.left
        || other.right <= one.left
        || one.bottom <= other.top
        || other.bottom <= one.top
}

/// Whether a label keeps away from an area.
fn is_clear(place: Point, text: &[u8], area: Area) -> bool
    ensures { result ≡ true → are_disjoint (label_area place text.now) area ≡ true }
{
    match area_at(place, text) {
        Some(own) => are_beside(own, area),
        None => false,
    }
}

/// Whether a shape is no label, or one that keeps away from an area.
fn keeps_away(shape: &Shape, area: Area) -> bool
    ensures { result ≡ true → list_all (λ other. are_disjoint other area) (areas_in (shape.now ∷ [])) ≡ true }
{
    match shape {
        Shape::Label { place, text, .. } => is_clear(*place, text.as_bytes(), area),
        Shape::Line { .. } => true,
        Shape::Bar { .. } => true,
        Shape::Frame { .. } => true,
        Shape::Dot { .. } => true,
        Shape::Words { .. } => true,
        Shape::Dotted { .. } => true,
        Shape::Ring { .. } => true,
        Shape::Titled { .. } => true,
        Shape::TitledEnd => true,
        Shape::Note { .. } => true,
    }
}

/// Whether all labels keep away from an area.
fn has_room(shapes: &[Shape], area: Area) -> bool
    ensures { result ≡ true → list_all (λ other. are_disjoint other area) (areas_in shapes.now) ≡ true }
{
    for shape in shapes {
        if !keeps_away(shape, area) {
            return false;
        }
    }
    true
}

/// Appends a name where it is listed.
fn put_listed(picture: &mut Picture, spot: Spot, text: Name) -> Result<bool, AllocError>
    ensures words { OnOk result (words_in picture.new ≡ words_in picture.old ++ text ∷ []) }
    ensures apart { OnOk result (LabelsAreApart picture.old → LabelsAreApart picture.new) }
    ensures size { OnOk result (length picture.new ≡ length picture.old + 1) }
{
    picture.push(Shape::Words {
        place: spot.listed,
        anchor: Anchor::Start,
        color: spot.color,
        text,
    })?;
    Ok(false)
}

/// Appends a name at a place beside its mark, or else where it is listed.
fn put_label(
    picture: &mut Picture,
    spot: Spot,
    place: Point,
    text: Name,
) -> Result<bool, AllocError>
    ensures words { OnOk result (words_in picture.new ≡ words_in picture.old ++ text ∷ []) }
    ensures apart { OnOk result (LabelsAreApart picture.old → LabelsAreApart picture.new) }
    ensures size { OnOk result (length picture.new ≡ length picture.old + 1) }
{
    let Some(area) = area_at(place, text.as_bytes()) else {
        return put_listed(picture, spot, text);
    };
    if !has_room(picture.as_slice(), area) {
        return put_listed(picture, spot, text);
    }
    picture.push(Shape::Label {
        place,
        style: spot.style,
        color: spot.color,
        text,
    })?;
    Ok(true)
}
