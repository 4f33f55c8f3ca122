//! Stands that are done.

ghost use Rattle.std.specs.Prelude.{◌≡◌, ◌+◌, ◌≤◌, ◌++◌, length, IfOk, OnOk};
ghost use Rattle.drawing.specs.Drawing.{words_in};
ghost use Rattle.run_drawing.specs.Words.{stand_text, stand_texts};

use crate::requirements::ms_of;
use crate::scale::Scale;
use crate::trains::train_color;
use drawing::{Anchor, Picture, Point, put_words};
use rail_base::design::Design;
use rail_base::history::TrainHistory;
use rail_text::put_number;
use std::alloc::{AllocError, Global};

/// Appends for how long the train of a number, counted from 1, which goes up or down, stands at its visits.
pub(crate) fn put_stands(
    alloc: Global,
    picture: &mut Picture,
    scale: &Scale,
    design: &Design,
    number: usize,
    name: &[u8],
    train: &TrainHistory,
    upward: bool,
) -> Result<(), AllocError>
    ensures words { OnOk result (words_in picture.new ≡ words_in picture.old
        ++ stand_texts design.now.station.tick_ms name.now train.now.visits train.now.dwells) }
    ensures size { OnOk result (length picture.new ≤ length picture.old + length train.now.dwells) }
{
    let visits = train.visits.as_slice();
    for (visit, dwell) in visits.iter().zip(train.dwells.as_slice()) {
        if let Some((node, from)) = visit {
            if let Some(to) = dwell {
                let text = stand_text(alloc, design, name, *from, *to)?;
                let place = text_place(scale.point(*node, *to), upward);
                put_words(picture, place, Anchor::End, train_color(number), text)?;
            }
        }
    }
    Ok(())
}

/// `<train> stands <time> ms`
fn stand_text(
    alloc: Global,
    design: &Design,
    name: &[u8],
    from: u64,
    to: u64,
) -> Result<Vec<u8>, AllocError>
    ensures { IfOk result (λ text. text.items ≡ stand_text design.now.station.tick_ms name.now from to) }
{
    let mut text = Vec::from_slice(alloc, name)?;
    text.extend_from_slice(b" stands ")?;
    put_number(&mut text, ms_of(design, to.saturating_sub(from)))?;
    text.extend_from_slice(b" ms")?;
    Ok(text)
}

/// Where the text of a stand ends, by the point at which the train goes on: above the line of a train that goes up, and
/// else below it.
fn text_place(point: Point, upward: bool) -> Point {
    Point {
        x: point.x.saturating_sub(6),
        y: if upward {
            point.y.saturating_sub(5)
        } else {
            point.y.saturating_add(13)
        },
    }
}
