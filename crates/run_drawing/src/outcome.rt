//! How a run ends.

ghost use Rattle.std.specs.Prelude.{◌≡◌, ◌+◌, ◌-◌, [], ◌∷◌, ◌++◌, length, take, IfOk, OnOk};
ghost use Rattle.rail_outside.specs.Lines.{lines_of};
ghost use Rattle.drawing.specs.Drawing.{words_in};
ghost use Rattle.run_drawing.specs.Words.{first_text, outcome_text};

use crate::scale::LINE;
use drawing::{Anchor, Color, Picture, Point, put_words};
use rail_base::design::Design;
use rail_base::history::Verdict;
use std::alloc::{AllocError, Global};
use timetable::timetable_lines;

/// Appends how a run ends.
pub(crate) fn put_outcome(
    alloc: Global,
    picture: &mut Picture,
    design: &Design,
    verdict: &Verdict,
    left: u64,
) -> Result<(), AllocError>
    ensures words { OnOk result (words_in picture.new
        ≡ words_in picture.old ++ outcome_text design.now.station verdict.now ∷ []) }
    ensures size { OnOk result (length picture.new ≡ length picture.old + 1) }
{
    let text = outcome_text(alloc, design, verdict)?;
    let place = Point { x: left, y: LINE };
    put_words(picture, place, Anchor::Start, outcome_color(verdict), text)
}

/// All bytes but the last.
fn without_last(bytes: &[u8]) -> &[u8]
    ensures { result.now ≡ take (length bytes.now - 1) bytes.now }
{
    match bytes {
        [] => bytes,
        [prefix @ .., _] => prefix,
    }
}

/// The first of some lines, without its LF.
fn first_text(alloc: Global, lines: &[Vec<u8>]) -> Result<Vec<u8>, AllocError>
    ensures { IfOk result (λ text. text.items ≡ first_text (lines_of lines.now)) }
{
    match lines {
        [] => Ok(Vec::new(alloc)),
        [first, ..] => Vec::from_slice(alloc, without_last(first.as_slice())),
    }
}

/// The text for how a run ends.
fn outcome_text(alloc: Global, design: &Design, verdict: &Verdict) -> Result<Vec<u8>, AllocError>
    ensures { IfOk result (λ text. text.items ≡ outcome_text design.now.station verdict.now) }
{
    let lines = timetable_lines(alloc, design, verdict)?;
    first_text(alloc, lines.as_slice())
}

/// Green where the plan meets the design, and else red.
fn outcome_color(verdict: &Verdict) -> Color {
    match verdict {
        Verdict::Met { .. } => Color::Green,
        Verdict::Failed { .. } | Verdict::Undecided => Color::Red,
    }
}
