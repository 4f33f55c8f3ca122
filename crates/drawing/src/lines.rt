//! The lines that show a picture.

ghost use Rattle.std.specs.Prelude.{◌≡◌, ◌++◌, IfOk, OnOk};
ghost use Rattle.rail_outside.specs.Lines.{lines_of};
ghost use Rattle.drawing.specs.Lines.{bar_line, dot_line, end_line, frame_line, ground_line, head_line};
ghost use Rattle.drawing.specs.Lines.{dotted_line, line_line, ring_line, shape_line, text_line, text_look, titled_end_line, titled_line};
ghost use Rattle.drawing.specs.Drawing.{IsDrawingOf, drawing_of};

use crate::attributes::{
    anchor_text, put_attribute, put_color, put_escaped, put_points, style_text,
};
use crate::shape::{Anchor, Color, Picture, Point, Shape, Style};
use crate::size::size_of;
use std::alloc::{AllocError, Global};

/// The lines of an SVG text that shows a picture, each with its LF: a head with the size, which takes in the places of
/// all shapes, a white ground, a line for each shape in order, and an end. `Err` is want of memory.
pub fn drawing_lines(alloc: Global, picture: &Picture) -> Result<Vec<Vec<u8>>, AllocError>
    ensures { IfOk result (λ lines. IsDrawingOf picture.now (lines_of lines.items)) }
{
    let shapes = picture.as_slice();
    sized_lines(alloc, shapes, size_of(shapes))
}

/// The line of a line from point to point.
fn line_line(
    alloc: Global,
    points: &[Point],
    color: Color,
    width: u64,
) -> Result<Vec<u8>, AllocError>
    ensures { IfOk result (λ line. line.items ≡ line_line points.now color width) }
{
    let mut line = Vec::from_slice(alloc, b"<polyline points='")?;
    put_points(&mut line, points)?;
    line.extend_from_slice(b"' fill='none' stroke='")?;
    put_color(&mut line, color)?;
    line.push(b'\'')?;
    put_attribute(&mut line, b"stroke-width", width)?;
    line.extend_from_slice(b"/>\n")?;
    Ok(line)
}

/// The line of a bar.
fn bar_line(
    alloc: Global,
    corner: Point,
    width: u64,
    height: u64,
    color: Color,
) -> Result<Vec<u8>, AllocError>
    ensures { IfOk result (λ line. line.items ≡ bar_line corner width height color) }
{
    let mut line = Vec::from_slice(alloc, b"<rect")?;
    put_attribute(&mut line, b"x", corner.x)?;
    put_attribute(&mut line, b"y", corner.y)?;
    put_attribute(&mut line, b"width", width)?;
    put_attribute(&mut line, b"height", height)?;
    line.extend_from_slice(b" fill='")?;
    put_color(&mut line, color)?;
    line.extend_from_slice(b"'/>\n")?;
    Ok(line)
}

/// The line of an empty bar.
fn frame_line(
    alloc: Global,
    corner: Point,
    width: u64,
    height: u64,
    color: Color,
) -> Result<Vec<u8>, AllocError>
    ensures { IfOk result (λ line. line.items ≡ frame_line corner width height color) }
{
    let mut line = Vec::from_slice(alloc, b"<rect")?;
    put_attribute(&mut line, b"x", corner.x)?;
    put_attribute(&mut line, b"y", corner.y)?;
    put_attribute(&mut line, b"width", width)?;
    put_attribute(&mut line, b"height", height)?;
    line.extend_from_slice(b" fill='none' stroke-dasharray='3' stroke='")?;
    put_color(&mut line, color)?;
    line.extend_from_slice(b"'/>\n")?;
    Ok(line)
}

/// The line of a disc.
fn dot_line(alloc: Global, center: Point, radius: u64, color: Color) -> Result<Vec<u8>, AllocError>
    ensures { IfOk result (λ line. line.items ≡ dot_line center radius color) }
{
    let mut line = Vec::from_slice(alloc, b"<circle")?;
    put_attribute(&mut line, b"cx", center.x)?;
    put_attribute(&mut line, b"cy", center.y)?;
    put_attribute(&mut line, b"r", radius)?;
    line.extend_from_slice(b" fill='")?;
    put_color(&mut line, color)?;
    line.extend_from_slice(b"'/>\n")?;
    Ok(line)
}

/// Appends the style and the colour of a text.
fn put_look(line: &mut Vec<u8>, style: Style, color: Color) -> Result<(), AllocError>
    ensures { OnOk result (line.new.items ≡ line.old.items ++ text_look style color) }
{
    line.push(b'\'')?;
    line.extend_from_slice(style_text(style))?;
    line.extend_from_slice(b" fill='")?;
    put_color(line, color)?;
    line.extend_from_slice(b"'>")
}

/// The line of a text.
fn text_line(
    alloc: Global,
    place: Point,
    anchor: Anchor,
    style: Style,
    color: Color,
    text: &[u8],
) -> Result<Vec<u8>, AllocError>
    ensures { IfOk result (λ line. line.items ≡ text_line place anchor style color text.now) }
{
    let mut line = Vec::from_slice(alloc, b"<text")?;
    put_attribute(&mut line, b"x", place.x)?;
    put_attribute(&mut line, b"y", place.y)?;
    line.extend_from_slice(b" text-anchor='")?;
    line.extend_from_slice(anchor_text(anchor))?;
    put_look(&mut line, style, color)?;
    put_escaped(&mut line, text)?;
    line.extend_from_slice(b"</text>\n")?;
    Ok(line)
}

/// The line of a text in no style.
fn plain_line(
    alloc: Global,
    place: Point,
    anchor: Anchor,
    color: Color,
    text: &[u8],
) -> Result<Vec<u8>, AllocError>
    ensures { IfOk result (λ line. line.items ≡ text_line place anchor Style.Plain color text.now) }
{
    text_line(alloc, place, anchor, Style::Plain, color, text)
}

/// The line of a dotted line from point to point.
fn dotted_line(
    alloc: Global,
    points: &[Point],
    color: Color,
    width: u64,
) -> Result<Vec<u8>, AllocError>
    ensures { IfOk result (λ line. line.items ≡ dotted_line points.now color width) }
{
    let mut line = Vec::from_slice(alloc, b"<polyline points='")?;
    put_points(&mut line, points)?;
    line.extend_from_slice(b"' fill='none' stroke-dasharray='2 3' stroke='")?;
    put_color(&mut line, color)?;
    line.push(b'\'')?;
    put_attribute(&mut line, b"stroke-width", width)?;
    line.extend_from_slice(b"/>\n")?;
    Ok(line)
}

/// The line of a ring.
fn ring_line(alloc: Global, center: Point, radius: u64, color: Color) -> Result<Vec<u8>, AllocError>
    ensures { IfOk result (λ line. line.items ≡ ring_line center radius color) }
{
    let mut line = Vec::from_slice(alloc, b"<circle")?;
    put_attribute(&mut line, b"cx", center.x)?;
    put_attribute(&mut line, b"cy", center.y)?;
    put_attribute(&mut line, b"r", radius)?;
    line.extend_from_slice(b" fill='white' stroke-width='2' stroke='")?;
    put_color(&mut line, color)?;
    line.extend_from_slice(b"'/>\n")?;
    Ok(line)
}

/// The line that begins what has a title.
fn titled_line(alloc: Global, title: &[u8]) -> Result<Vec<u8>, AllocError>
    ensures { IfOk result (λ line. line.items ≡ titled_line title.now) }
{
    let mut line = Vec::from_slice(alloc, b"<g><title>")?;
    put_escaped(&mut line, title)?;
    line.extend_from_slice(b"</title>\n")?;
    Ok(line)
}

/// The line that ends it.
fn titled_end_line(alloc: Global) -> Result<Vec<u8>, AllocError>
    ensures { IfOk result (λ line. line.items ≡ titled_end_line) }
{
    Vec::from_slice(alloc, b"</g>\n")
}

/// The line of a shape.
fn shape_line(alloc: Global, shape: &Shape) -> Result<Vec<u8>, AllocError>
    ensures { IfOk result (λ line. line.items ≡ shape_line shape.now) }
{
    match shape {
        Shape::Line {
            points,
            color,
            width,
        } => line_line(alloc, points.as_slice(), *color, *width),
        Shape::Bar {
            corner,
            width,
            height,
            color,
        } => bar_line(alloc, *corner, *width, *height, *color),
        Shape::Frame {
            corner,
            width,
            height,
            color,
        } => frame_line(alloc, *corner, *width, *height, *color),
        Shape::Dot {
            center,
            radius,
            color,
        } => dot_line(alloc, *center, *radius, *color),
        Shape::Words {
            place,
            anchor,
            color,
            text,
        } => plain_line(alloc, *place, *anchor, *color, text.as_bytes()),
        Shape::Note {
            place,
            anchor,
            color,
            text,
        } => plain_line(alloc, *place, *anchor, *color, text.as_bytes()),
        Shape::Label {
            place,
            style,
            color,
            text,
        } => text_line(
            alloc,
            *place,
            Anchor::Start,
            *style,
            *color,
            text.as_bytes(),
        ),
        Shape::Dotted {
            points,
            color,
            width,
        } => dotted_line(alloc, points.as_slice(), *color, *width),
        Shape::Ring {
            center,
            radius,
            color,
        } => ring_line(alloc, *center, *radius, *color),
        Shape::Titled { title } => titled_line(alloc, title.as_bytes()),
        Shape::TitledEnd => titled_end_line(alloc),
    }
}

/// The line that begins a drawing of a size.
fn head_line(alloc: Global, size: Point) -> Result<Vec<u8>, AllocError>
    ensures { IfOk result (λ line. line.items ≡ head_line size) }
{
    let mut line = Vec::from_slice(alloc, b"<svg xmlns='http://www.w3.org/2000/svg'")?;
    put_attribute(&mut line, b"width", size.x)?;
    put_attribute(&mut line, b"height", size.y)?;
    line.extend_from_slice(
        b" font-family='Helvetica, Arial, sans-serif' font-size='10' stroke-linejoin='round'>\n",
    )?;
    Ok(line)
}

/// The line of the white ground under all shapes.
fn ground_line(alloc: Global) -> Result<Vec<u8>, AllocError>
    ensures { IfOk result (λ line. line.items ≡ ground_line) }
{
    Vec::from_slice(alloc, b"<rect width='100%' height='100%' fill='white'/>\n")
}

/// The line that ends a drawing.
fn end_line(alloc: Global) -> Result<Vec<u8>, AllocError>
    ensures { IfOk result (λ line. line.items ≡ end_line) }
{
    Vec::from_slice(alloc, b"</svg>\n")
}

/// The lines of a picture in a drawing of a size.
fn sized_lines(alloc: Global, shapes: &[Shape], size: Point) -> Result<Vec<Vec<u8>>, AllocError>
    ensures { IfOk result (λ lines. lines_of lines.items ≡ drawing_of size shapes.now) }
{
    let mut lines = Vec::new(alloc);
    lines.push(head_line(alloc, size)?)?;
    lines.push(ground_line(alloc)?)?;
    for shape in shapes {
        lines.push(shape_line(alloc, shape)?)?;
    }
    lines.push(end_line(alloc)?)?;
    Ok(lines)
}
