//! What fails by the lines of a proof file. An error is want of memory.

ghost use Rattle.std.specs.Prelude.{◌≡◌, true, All, IfOk, OnOk, map};
ghost use Rattle.rail_base.specs.Numbering.{after_first};
ghost use Rattle.rail_text.specs.Cursors.{lines_left};
ghost use Rattle.rail_text.specs.Lines.{line_of_piece as piece_of};
ghost use Rattle.rail_text.specs.Pieces.{pieces};
ghost use Rattle.evidence_words.specs.Failings.{seen};
ghost use Rattle.proof_words.specs.Meanings.{file_failings};
ghost use Rattle.proof_words.specs.Named.{IsNamedPiece, names_line};
ghost use Rattle.proof_words.specs.Said.{AddsFailings, failing_by_line, failing_by_piece, failing_by_pieces};

use evidence_words::{Failing, failing_of};
use interlocking::Interlocking;
use proof_log::{Line, LineFault, read_line};
use rail_text::{Cursor, Piece};
use std::alloc::{AllocError, Global};

/// What fails by the lines of a proof file after its head, where each cone and bound names what the design has.
pub(crate) fn file_failings(
    alloc: Global,
    interlocking: &Interlocking,
    bytes: &[u8],
) -> Result<Vec<Failing>, AllocError>
    requires { All (IsNamedPiece interlocking.now.design.station) (after_first (pieces bytes.now)) }
    ensures { IfOk result (λ fs. map seen fs.items ≡ file_failings interlocking.now.design.station bytes.now) }
{
    let mut failings = Vec::new(alloc);
    let mut cursor = Cursor::new(bytes);
    let Some(_head) = cursor.next() else {
        return Ok(failings);
    };
    push_pieces(alloc, interlocking, cursor, &mut failings)?;
    Ok(failings)
}

/// Appends what fails by a line.
fn push_line(
    alloc: Global,
    interlocking: &Interlocking,
    line: &Line,
    failings: &mut Vec<Failing>,
) -> Result<(), AllocError>
    requires { names_line interlocking.now.design.station line.now ≡ true }
    ensures { OnOk result (AddsFailings failings.old failings.new (failing_by_line interlocking.now line.now)) }
{
    match line {
        Line::Derive { .. } => Ok(()),
        Line::Refute { evidence } => {
            let failing = failing_of(alloc, interlocking, evidence)?;
            failings.push(failing)?;
            Ok(())
        }
        Line::Forget { .. } => Ok(()),
    }
}

/// Appends what fails by a piece of a file.
fn push_piece(
    alloc: Global,
    interlocking: &Interlocking,
    piece: &Piece<'_>,
    failings: &mut Vec<Failing>,
) -> Result<(), AllocError>
    requires { IsNamedPiece interlocking.now.design.station (piece_of piece.now) }
    ensures { OnOk result (AddsFailings failings.old failings.new (failing_by_piece interlocking.now piece.now)) }
{
    match read_line(alloc, piece.bytes) {
        Ok(line) => push_line(alloc, interlocking, &line, failings),
        Err(LineFault::Text) => Ok(()),
        Err(LineFault::Memory) => Err(AllocError),
    }
}

/// Appends what fails by the pieces of a file that are left.
fn push_pieces(
    alloc: Global,
    interlocking: &Interlocking,
    pieces: Cursor<'_>,
    failings: &mut Vec<Failing>,
) -> Result<(), AllocError>
    requires { All (IsNamedPiece interlocking.now.design.station) (lines_left pieces) }
    ensures { OnOk result (AddsFailings failings.old failings.new (failing_by_pieces interlocking.now pieces.entry)) }
{
    'pieces: for piece in pieces {
        push_piece(alloc, interlocking, &piece, failings)?;
    }
    Ok(())
}
