//! Parts of a line: attributes, points, colours and escaped text.

ghost use Rattle.std.specs.Prelude.{◌≡◌, ◌++◌, OnOk};
ghost use Rattle.std.specs.List.{flat_map};
ghost use Rattle.drawing.specs.Parts.{anchor_text, attribute, color_text, escaped, escaped_byte, point_text, style_text};

use crate::shape::{Anchor, Color, Point, Style};
use rail_text::put_number;
use std::alloc::AllocError;

/// 24 colours, each with a contrast of 4.5 to white at least: hues by 15 degrees, light and dark in turn.
const NAMED: &[u8] =
    b"#ca3c2f#813712#956523#594c0d#6c741b#3d550c#457c1d#1a590d#1e8026#0d5926#1e8057#0d594c\
    #1f7c84#115374#2f6ec6#1d3bcd#645ad8#5a1ed2#9a49d4#821698#be2db2#931569#ca2f70#98162b";

/// Appends ` <name>='<number>'`.
pub(crate) fn put_attribute(line: &mut Vec<u8>, name: &[u8], number: u64) -> Result<(), AllocError>
    ensures { OnOk result (line.new.items ≡ line.old.items ++ attribute name.now number) }
{
    line.push(b' ')?;
    line.extend_from_slice(name)?;
    line.extend_from_slice(b"='")?;
    put_number(line, number)?;
    line.push(b'\'')?;
    Ok(())
}

/// Appends all points.
pub(crate) fn put_points(line: &mut Vec<u8>, points: &[Point]) -> Result<(), AllocError>
    ensures { OnOk result (line.new.items ≡ line.old.items ++ flat_map point_text points.now) }
{
    for point in points {
        put_point(line, *point)?;
    }
    Ok(())
}

/// Appends a colour.
pub(crate) fn put_color(line: &mut Vec<u8>, color: Color) -> Result<(), AllocError>
    ensures { OnOk result (line.new.items ≡ line.old.items ++ color_text color) }
{
    match color {
        Color::Black => line.extend_from_slice(b"#222"),
        Color::White => line.extend_from_slice(b"#fff"),
        Color::Gray => line.extend_from_slice(b"#aaa"),
        Color::Red => line.extend_from_slice(b"#c22"),
        Color::Green => line.extend_from_slice(b"#282"),
        Color::Hue(hue) => put_hue(line, hue),
        Color::Named(number) => put_named(line, number),
    }
}

/// The attribute for a style.
pub(crate) fn style_text(style: Style) -> &'static [u8]
    ensures { result.now ≡ style_text style }
{
    match style {
        Style::Plain => b"",
        Style::Bold => b" font-weight='bold'",
        Style::Italic => b" font-style='italic'",
    }
}

/// The word for an anchor.
pub(crate) fn anchor_text(anchor: Anchor) -> &'static [u8]
    ensures { result.now ≡ anchor_text anchor }
{
    match anchor {
        Anchor::Start => b"start",
        Anchor::Middle => b"middle",
        Anchor::End => b"end",
    }
}

/// Appends a text, so that XML reads it as text.
pub(crate) fn put_escaped(line: &mut Vec<u8>, text: &[u8]) -> Result<(), AllocError>
    ensures { OnOk result (line.new.items ≡ line.old.items ++ escaped text.now) }
{
    for byte in text {
        put_escaped_byte(line, *byte)?;
    }
    Ok(())
}

/// Appends ` <x>,<y>`.
fn put_point(line: &mut Vec<u8>, point: Point) -> Result<(), AllocError>
    ensures { OnOk result (line.new.items ≡ line.old.items ++ point_text point) }
{
    line.push(b' ')?;
    put_number(line, point.x)?;
    line.push(b',')?;
    put_number(line, point.y)
}

/// Appends a hue.
fn put_hue(line: &mut Vec<u8>, hue: u64) -> Result<(), AllocError>
    ensures { OnOk result (line.new.items ≡ line.old.items ++ color_text (Color.Hue hue)) }
{
    line.extend_from_slice(b"hsl(")?;
    put_number(line, hue)?;
    line.extend_from_slice(b",65%,42%)")
}

/// Appends one of the colours that can be read on white.
fn put_named(line: &mut Vec<u8>, number: u64) -> Result<(), AllocError>
    ensures { OnOk result (line.new.items ≡ line.old.items ++ color_text (Color.Named number)) }
{
    let at = (number % 24) as usize * 7;
    line.extend_from_slice(&NAMED[at..at + 7])
}

/// Appends a byte of a text, so that XML reads it as text.
fn put_escaped_byte(line: &mut Vec<u8>, byte: u8) -> Result<(), AllocError>
    ensures { OnOk result (line.new.items ≡ line.old.items ++ escaped_byte byte) }
{
    if byte == b'&' {
        return line.extend_from_slice(b"&amp;");
    }
    if byte == b'<' {
        return line.extend_from_slice(b"&lt;");
    }
    if byte == b'>' {
        return line.extend_from_slice(b"&gt;");
    }
    if byte == b'"' {
        return line.extend_from_slice(b"&quot;");
    }
    if byte == b'\'' {
        return line.extend_from_slice(b"&#39;");
    }
    if byte < 32 || 126 < byte {
        return line.extend_from_slice(b"\xef\xbf\xbd");
    }
    line.push(byte)?;
    Ok(())
}
