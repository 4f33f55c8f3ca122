//! The lines of a text.

ghost use Rattle.std.specs.Prelude.{◌≡◌, ◌+◌, ◌^◌, ◌<◌, ◌∷◌, length, position};
ghost use Rattle.rail_text.specs.Lines.{line_of_piece};
ghost use Rattle.rail_text.specs.Pieces.{is_lf, pieces, pieces_from};

/// A line of a text.
#[derive(Clone, Copy, Debug)]
pub struct Piece<'a> {
    /// Its place, counted from 1.
    pub line: u64,
    /// Whether an LF ends it, which only the last line of a text may lack.
    pub ended: bool,
    /// Its bytes, without that LF.
    pub bytes: &'a [u8],
}

/// The lines of a text, one after the other. Bytes after the last LF are one where there are any.
#[derive(Debug, Drop)]
pub struct Cursor<'a> {
    rest: &'a [u8],
    line: u64,
    ghost line_fits: { line + length rest.now < 2 ^ 64 },
}

impl<'a> Cursor<'a> {
    ghost use Rattle.rail_text.specs.Cursors.{lines_left};

    /// A cursor before the first line.
    pub fn new(bytes: &'a [u8]) -> Cursor<'a>
        ensures { lines_left result ≡ pieces bytes.entry.now }
    {
        Cursor {
            rest: bytes,
            line: 1,
        }
    }
}

/// The place of the first LF.
fn line_end(text: &[u8]) -> Option<usize>
    ensures { result ≡ position is_lf text.now }
{
    text.iter().position(|byte| *byte == b'\n')
}

/// The first line of a text that has bytes, and the bytes after it.
fn first_piece(line: u64, text: &[u8]) -> (Piece<'_>, &[u8])
    requires { 0 < length text.now }
    ensures pieces { pieces_from line text.now ≡ line_of_piece result.0 ∷ pieces_from (line + 1) result.1.now }
    ensures shorter { length result.1.now < length text.now }
{
    match line_end(text) {
        Some(end) => {
            let bytes = &text[..end];
            (
                Piece {
                    line,
                    ended: true,
                    bytes,
                },
                &text[end + 1..],
            )
        }
        None => (
            Piece {
                line,
                ended: false,
                bytes: text,
            },
            &[],
        ),
    }
}

impl<'a> Iterator for Cursor<'a> {
    ghost use Rattle.std.specs.Prelude.{length};
    ghost use Rattle.std.specs.Iterator.{at_most};
    ghost use Rattle.rail_text.specs.Cursors.{GivesNext};

    type Item = Piece<'a>;

    ghost next_gives = { λ old given new. GivesNext old given new };

    ghost remaining = { λ cursor. at_most (length cursor.rest.now) };

    fn next(&mut self) -> Option<Piece<'a>> {
        if self.rest.is_empty() {
            return None;
        }
        let (piece, rest) = first_piece(self.line, self.rest);
        self.line += 1;
        self.rest = rest;
        Some(piece)
    }
}
