//! Shapes that are put into a picture.

ghost use Rattle.std.specs.Prelude.{◌≡◌, ◌+◌, ◌++◌, [], ◌∷◌, length, OnErr, OnOk};
ghost use Rattle.drawing.specs.Drawing.{areas_in, words_in};

use crate::shape::{Anchor, Color, Picture, Point, Shape};
use rail_base::list::{List, Name};
use std::alloc::{AllocError, Global};

/// Appends a line from one point to the next. `Err` is want of memory, and leaves the picture as it was.
pub fn put_line(
    picture: &mut Picture,
    points: Vec<Point>,
    color: Color,
    width: u64,
) -> Result<(), AllocError>
    ensures shape { OnOk result (picture.new
        ≡ picture.old ++ Shape.Line points.items color width ∷ []) }
    ensures words { OnOk result (words_in picture.new ≡ words_in picture.old) }
    ensures areas { OnOk result (areas_in picture.new ≡ areas_in picture.old) }
    ensures size { OnOk result (length picture.new ≡ length picture.old + 1) }
    ensures same { OnErr result (picture.new ≡ picture.old) }
{
    picture.push(Shape::Line {
        points: List::from_vec(points),
        color,
        width,
    })
}

/// Appends a filled bar, by its left upper corner. `Err` is want of memory, and leaves the picture as it was.
pub fn put_bar(
    picture: &mut Picture,
    corner: Point,
    width: u64,
    height: u64,
    color: Color,
) -> Result<(), AllocError>
    ensures shape { OnOk result (picture.new ≡ picture.old ++ Shape.Bar corner width height color ∷ []) }
    ensures words { OnOk result (words_in picture.new ≡ words_in picture.old) }
    ensures areas { OnOk result (areas_in picture.new ≡ areas_in picture.old) }
    ensures size { OnOk result (length picture.new ≡ length picture.old + 1) }
    ensures same { OnErr result (picture.new ≡ picture.old) }
{
    picture.push(Shape::Bar {
        corner,
        width,
        height,
        color,
    })
}

/// Appends an empty bar with a dashed outline, by its left upper corner. `Err` is want of memory, and leaves the
/// picture as it was.
pub fn put_frame(
    picture: &mut Picture,
    corner: Point,
    width: u64,
    height: u64,
    color: Color,
) -> Result<(), AllocError>
    ensures shape { OnOk result (picture.new ≡ picture.old ++ Shape.Frame corner width height color ∷ []) }
    ensures words { OnOk result (words_in picture.new ≡ words_in picture.old) }
    ensures areas { OnOk result (areas_in picture.new ≡ areas_in picture.old) }
    ensures size { OnOk result (length picture.new ≡ length picture.old + 1) }
    ensures same { OnErr result (picture.new ≡ picture.old) }
{
    picture.push(Shape::Frame {
        corner,
        width,
        height,
        color,
    })
}

/// Appends a filled disc. `Err` is want of memory, and leaves the picture as it was.
pub fn put_dot(
    picture: &mut Picture,
    center: Point,
    radius: u64,
    color: Color,
) -> Result<(), AllocError>
    ensures shape { OnOk result (picture.new ≡ picture.old ++ Shape.Dot center radius color ∷ []) }
    ensures words { OnOk result (words_in picture.new ≡ words_in picture.old) }
    ensures areas { OnOk result (areas_in picture.new ≡ areas_in picture.old) }
    ensures size { OnOk result (length picture.new ≡ length picture.old + 1) }
    ensures same { OnErr result (picture.new ≡ picture.old) }
{
    picture.push(Shape::Dot {
        center,
        radius,
        color,
    })
}

/// Appends a text that counts as words. `Err` is want of memory, and leaves the picture as it was.
pub fn put_words(
    picture: &mut Picture,
    place: Point,
    anchor: Anchor,
    color: Color,
    text: Vec<u8>,
) -> Result<(), AllocError>
    ensures shape { OnOk result (picture.new ≡ picture.old ++ Shape.Words place anchor color text.items ∷ []) }
    ensures words { OnOk result (words_in picture.new ≡ words_in picture.old ++ text.items ∷ []) }
    ensures areas { OnOk result (areas_in picture.new ≡ areas_in picture.old) }
    ensures size { OnOk result (length picture.new ≡ length picture.old + 1) }
    ensures same { OnErr result (picture.new ≡ picture.old) }
{
    picture.push(Shape::Words {
        place,
        anchor,
        color,
        text: Name::from_vec(text),
    })
}

/// Appends a text that counts for nothing. `Err` is want of memory, and leaves the picture as it was.
pub fn put_note(
    picture: &mut Picture,
    place: Point,
    anchor: Anchor,
    color: Color,
    text: Vec<u8>,
) -> Result<(), AllocError>
    ensures shape { OnOk result (picture.new ≡ picture.old ++ Shape.Note place anchor color text.items ∷ []) }
    ensures words { OnOk result (words_in picture.new ≡ words_in picture.old) }
    ensures areas { OnOk result (areas_in picture.new ≡ areas_in picture.old) }
    ensures size { OnOk result (length picture.new ≡ length picture.old + 1) }
    ensures same { OnErr result (picture.new ≡ picture.old) }
{
    picture.push(Shape::Note {
        place,
        anchor,
        color,
        text: Name::from_vec(text),
    })
}

/// Appends a dotted line from one point to the next. `Err` is want of memory, and leaves the picture as it was.
pub fn put_dotted(
    picture: &mut Picture,
    points: Vec<Point>,
    color: Color,
    width: u64,
) -> Result<(), AllocError>
    ensures shape { OnOk result (picture.new
        ≡ picture.old ++ Shape.Dotted points.items color width ∷ []) }
    ensures words { OnOk result (words_in picture.new ≡ words_in picture.old) }
    ensures areas { OnOk result (areas_in picture.new ≡ areas_in picture.old) }
    ensures size { OnOk result (length picture.new ≡ length picture.old + 1) }
    ensures same { OnErr result (picture.new ≡ picture.old) }
{
    picture.push(Shape::Dotted {
        points: List::from_vec(points),
        color,
        width,
    })
}

/// Appends a white disc with a ring around it. `Err` is want of memory, and leaves the picture as it was.
pub fn put_ring(
    picture: &mut Picture,
    center: Point,
    radius: u64,
    color: Color,
) -> Result<(), AllocError>
    ensures shape { OnOk result (picture.new ≡ picture.old ++ Shape.Ring center radius color ∷ []) }
    ensures words { OnOk result (words_in picture.new ≡ words_in picture.old) }
    ensures areas { OnOk result (areas_in picture.new ≡ areas_in picture.old) }
    ensures size { OnOk result (length picture.new ≡ length picture.old + 1) }
    ensures same { OnErr result (picture.new ≡ picture.old) }
{
    picture.push(Shape::Ring {
        center,
        radius,
        color,
    })
}

/// Begins what has a title. `Err` is want of memory, and leaves the picture as it was.
pub fn put_title(picture: &mut Picture, title: Vec<u8>) -> Result<(), AllocError>
    ensures shape { OnOk result (picture.new ≡ picture.old ++ Shape.Titled title.items ∷ []) }
    ensures words { OnOk result (words_in picture.new ≡ words_in picture.old) }
    ensures areas { OnOk result (areas_in picture.new ≡ areas_in picture.old) }
    ensures size { OnOk result (length picture.new ≡ length picture.old + 1) }
    ensures same { OnErr result (picture.new ≡ picture.old) }
{
    picture.push(Shape::Titled {
        title: Name::from_vec(title),
    })
}

/// Ends what has a title. `Err` is want of memory, and leaves the picture as it was.
pub fn put_title_end(picture: &mut Picture) -> Result<(), AllocError>
    ensures shape { OnOk result (picture.new ≡ picture.old ++ Shape.TitledEnd ∷ []) }
    ensures words { OnOk result (words_in picture.new ≡ words_in picture.old) }
    ensures areas { OnOk result (areas_in picture.new ≡ areas_in picture.old) }
    ensures size { OnOk result (length picture.new ≡ length picture.old + 1) }
    ensures same { OnErr result (picture.new ≡ picture.old) }
{
    picture.push(Shape::TitledEnd)
}
