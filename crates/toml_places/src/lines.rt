//! The line and the column of a place of a text.

ghost use Rattle.std.specs.Prelude.{◌≡◌, ◌<◌, ◌≤◌, ◌+◌, filter, length};
ghost use Rattle.rail_text.specs.Pieces.{is_lf};
ghost use Rattle.toml_places.specs.Lines.{before, begins_character, characters_with, column, last_line, line_number, line_text};

use rail_text::Cursor;

/// The text before the rest of it.
fn before<'a>(text: &'a [u8], rest: &[u8]) -> &'a [u8]
    ensures { result.now ≡ before text.now rest.now }
{
    &text[..text.len().saturating_sub(rest.len())]
}

/// How many LFs there are.
fn count_lines(text: &[u8]) -> u64
    ensures value { result ≡ length (filter is_lf text.now) }
    ensures within { result ≤ length text.now }
{
    let mut count = 0;
    for byte in text {
        if *byte == b'\n' {
            count += 1;
        }
    }
    count
}

/// Whether a character begins with this byte of UTF-8.
fn begins_character(byte: u8) -> bool
    ensures { result ≡ begins_character byte }
{
    byte < 128 || 192 <= byte
}

/// How many characters stand behind the last LF, where one byte more is looked at.
fn count_with(count: u64, byte: u8) -> u64
    requires { count < 18446744073709551615 }
    ensures value { result ≡ characters_with count byte }
    ensures within { result ≤ count + 1 }
{
    if byte == b'\n' {
        0
    } else if begins_character(byte) {
        count + 1
    } else {
        count
    }
}

/// How many characters stand behind the last LF.
fn count_characters(text: &[u8]) -> u64
    ensures value { result ≡ length (filter begins_character (last_line text.now)) }
    ensures within { result ≤ length text.now }
{
    let mut count = 0;
    for byte in text {
        count = count_with(count, *byte);
    }
    count
}

/// The number of the line in which the rest of a text begins, counted from 1.
pub fn line_number(text: &[u8], rest: &[u8]) -> u64
    ensures { result ≡ line_number text.now rest.now }
{
    count_lines(before(text, rest)) + 1
}

/// The column at which the rest of a text begins: the number of its first character in its line, counted from 1.
pub fn column(text: &[u8], rest: &[u8]) -> u64
    ensures { result ≡ column text.now rest.now }
{
    count_characters(before(text, rest)) + 1
}

/// The line of this number, without its LF; nothing where there is no such line.
pub fn line_text(text: &[u8], number: u64) -> &[u8]
    ensures { result.now ≡ line_text text.now number }
{
    for piece in Cursor::new(text) {
        if piece.line == number {
            return piece.bytes;
        }
    }
    &[]
}
