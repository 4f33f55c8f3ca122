//! Visits that are made.

ghost use Rattle.std.specs.Prelude.{◌≡◌, ◌+◌, ◌*◌, ◌≤◌, [], ◌∷◌, ◌++◌, length, IfOk, OnOk};
ghost use Rattle.drawing.specs.Drawing.{words_in};
ghost use Rattle.rail_base.specs.Names.{train_name};
ghost use Rattle.run_drawing.specs.Requirements.{visit_text};
ghost use Rattle.run_drawing.specs.Words.{visit_texts};

use crate::scale::Scale;
use crate::trains::train_color;
use drawing::{Anchor, Picture, Point, put_dot, put_words};
use rail_base::station::{NodeNo, Station};
use rail_text::put_number;
use std::alloc::{AllocError, Global};

/// Appends the visits that the train of a number has made, counted from 1, which goes up or down.
pub(crate) fn put_visits(
    alloc: Global,
    picture: &mut Picture,
    scale: &Scale,
    train: usize,
    name: &[u8],
    visits: &[Option<(NodeNo, u64)>],
    upward: bool,
) -> Result<(), AllocError>
    ensures words { OnOk result (words_in picture.new ≡ words_in picture.old ++ visit_texts name.now visits.now) }
    ensures size { OnOk result (length picture.new ≤ length picture.old + 2 * length visits.now) }
{
    for (index, visit) in visits.iter().enumerate() {
        if let Some((node, tick)) = visit {
            let point = scale.point(*node, *tick);
            put_visit(alloc, picture, point, train, name, index as u64 + 1, upward)?;
        }
    }
    Ok(())
}

/// `<train> visit <j>`
fn visit_text(alloc: Global, name: &[u8], number: u64) -> Result<Vec<u8>, AllocError>
    ensures { IfOk result (λ text. text.items ≡ visit_text name.now number) }
{
    let mut text = Vec::from_slice(alloc, name)?;
    text.extend_from_slice(b" visit ")?;
    put_number(&mut text, number)?;
    Ok(text)
}

/// Where the text of a visit at a point begins: below the line of a train that goes up, and else above it.
fn text_place(point: Point, upward: bool) -> Point {
    Point {
        x: point.x.saturating_add(6),
        y: if upward {
            point.y.saturating_add(13)
        } else {
            point.y.saturating_sub(5)
        },
    }
}

/// Appends a visit of the train of a number, counted from 1: a dot and its text.
fn put_visit(
    alloc: Global,
    picture: &mut Picture,
    point: Point,
    train: usize,
    name: &[u8],
    number: u64,
    upward: bool,
) -> Result<(), AllocError>
    ensures words { OnOk result (words_in picture.new ≡ words_in picture.old ++ visit_text name.now number ∷ []) }
    ensures size { OnOk result (length picture.new ≡ length picture.old + 2) }
{
    put_dot(picture, point, 4, train_color(train))?;
    let text = visit_text(alloc, name, number)?;
    put_words(
        picture,
        text_place(point, upward),
        Anchor::Start,
        train_color(train),
        text,
    )
}
