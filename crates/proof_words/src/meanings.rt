//! The sentences about the lines of a proof file. An error is want of memory.

ghost use Rattle.std.specs.Prelude.{◌≡◌, true, All, IfOk, OnOk, Some};
ghost use Rattle.rail_base.specs.Numbering.{after_first};
ghost use Rattle.rail_outside.specs.Lines.{lines_of};
ghost use Rattle.rail_text.specs.Lines.{line_of_piece as piece_of};
ghost use Rattle.rail_text.specs.Cursors.{lines_left};
ghost use Rattle.rail_text.specs.Pieces.{pieces};
ghost use Rattle.proof_words.specs.Meanings.{file_sentences, lines_sentences};
ghost use Rattle.proof_words.specs.Named.{IsNamedPiece, names_line};
ghost use Rattle.rail_text.specs.Added.{AddsLines};
ghost use Rattle.proof_words.specs.Said.{said_of_line, said_of_piece, said_of_pieces};

use crate::failings::file_failings;
use crate::summary::push_summary;
use evidence_words::push_evidence;
use interlocking::Interlocking;
use proof_log::{Line, LineFault, read_line};
use rail_text::{Cursor, Piece};
use std::alloc::{AllocError, Global};

/// The sentences about a proof file, where each cone and bound names what the design has: those about its lines after
/// the head, and what they have in common.
pub(crate) fn file_sentences(
    alloc: Global,
    interlocking: &Interlocking,
    bytes: &[u8],
) -> Result<Vec<Vec<u8>>, AllocError>
    requires { All (IsNamedPiece interlocking.now.design.station) (after_first (pieces bytes.now)) }
    ensures { IfOk result (λ lines. lines_of lines.items ≡ file_sentences interlocking.now.design.station bytes.now) }
{
    let mut lines = lines_sentences(alloc, interlocking, bytes)?;
    let failings = file_failings(alloc, interlocking, bytes)?;
    push_summary(alloc, &interlocking.design, failings.as_slice(), &mut lines)?;
    Ok(lines)
}

/// The sentences about the lines of a proof file after its head.
fn lines_sentences(
    alloc: Global,
    interlocking: &Interlocking,
    bytes: &[u8],
) -> Result<Vec<Vec<u8>>, AllocError>
    requires { All (IsNamedPiece interlocking.now.design.station) (after_first (pieces bytes.now)) }
    ensures { IfOk result (λ lines. lines_of lines.items ≡ lines_sentences interlocking.now.design.station bytes.now) }
{
    let mut lines = Vec::new(alloc);
    let mut cursor = Cursor::new(bytes);
    let Some(_head) = cursor.next() else {
        return Ok(lines);
    };
    push_pieces(alloc, interlocking, cursor, &mut lines)?;
    Ok(lines)
}

/// Appends the sentences about a line of this number.
fn push_line(
    alloc: Global,
    interlocking: &Interlocking,
    number: u64,
    line: &Line,
    lines: &mut Vec<Vec<u8>>,
) -> Result<(), AllocError>
    requires { names_line interlocking.now.design.station line.now ≡ true }
    ensures { OnOk result (AddsLines lines.old lines.new (said_of_line interlocking.now number line.now)) }
{
    match line {
        Line::Derive { .. } => Ok(()),
        Line::Refute { evidence } => push_evidence(alloc, interlocking, number, evidence, lines),
        Line::Forget { .. } => Ok(()),
    }
}

/// Appends the sentences about a piece of a file.
fn push_piece(
    alloc: Global,
    interlocking: &Interlocking,
    piece: &Piece<'_>,
    lines: &mut Vec<Vec<u8>>,
) -> Result<(), AllocError>
    requires { IsNamedPiece interlocking.now.design.station (piece_of piece.now) }
    ensures { OnOk result (AddsLines lines.old lines.new (said_of_piece interlocking.now piece.now)) }
{
    match read_line(alloc, piece.bytes) {
        Ok(line) => push_line(alloc, interlocking, piece.line, &line, lines),
        Err(LineFault::Text) => Ok(()),
        Err(LineFault::Memory) => Err(AllocError),
    }
}

/// Appends the sentences about the pieces of a file that are left.
fn push_pieces(
    alloc: Global,
    interlocking: &Interlocking,
    pieces: Cursor<'_>,
    lines: &mut Vec<Vec<u8>>,
) -> Result<(), AllocError>
    requires { All (IsNamedPiece interlocking.now.design.station) (lines_left pieces) }
    ensures { OnOk result (AddsLines lines.old lines.new (said_of_pieces interlocking.now pieces.entry)) }
{
    'pieces: for piece in pieces {
        push_piece(alloc, interlocking, &piece, lines)?;
    }
    Ok(())
}
