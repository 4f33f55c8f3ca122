//! What is asked of visits, and what came of it.

ghost use Rattle.std.specs.Prelude.{◌≡◌, ◌+◌, ◌-◌, ◌++◌, [], ◌∷◌, length, map, decimal, codes, IfOk, OnOk};
ghost use Rattle.std.specs.List.{enumerate_from};
ghost use Rattle.drawing.specs.Drawing.{words_in};
ghost use Rattle.run_drawing.specs.Requirements.{ms_of, order_text, time_text, visit_of_train, within_text};

use crate::ending::{ending_of_order, ending_of_within};
use crate::scale::LINE;
use drawing::{Anchor, Picture, Point, put_words};
use rail_base::design::Design;
use rail_base::history::TrainHistory;
use rail_base::names::train_name;
use rail_base::station::{Order, TrainNo, Within};
use rail_require::visit_tick;
use rail_text::put_number;
use std::alloc::{AllocError, Global};

/// Appends these orders, which are all.
pub(crate) fn put_orders(
    alloc: Global,
    picture: &mut Picture,
    design: &Design,
    orders: &[Order],
    history: &[TrainHistory],
    left: u64,
    top: u64,
) -> Result<(), AllocError>
    ensures words { OnOk result (words_in picture.new
        ≡ words_in picture.old ++ map (order_text design.now.station history.now) (enumerate_from 1 orders.now)) }
    ensures size { OnOk result (length picture.new ≡ length picture.old + length orders.now) }
{
    for (index, order) in orders.iter().enumerate() {
        let text = order_text(alloc, design, history, index as u64 + 1, *order)?;
        let color = ending_of_order(history, *order).color();
        put_words(
            picture,
            place_of(left, top, index),
            Anchor::Start,
            color,
            text,
        )?;
    }
    Ok(())
}

/// Appends these withins, which are all, at a last tick.
pub(crate) fn put_withins(
    alloc: Global,
    picture: &mut Picture,
    design: &Design,
    withins: &[Within],
    history: &[TrainHistory],
    last: u64,
    left: u64,
    top: u64,
) -> Result<(), AllocError>
    ensures words { OnOk result (words_in picture.new
        ≡ words_in picture.old ++ map (within_text design.now.station history.now last) (enumerate_from 1 withins.now)) }
    ensures size { OnOk result (length picture.new ≡ length picture.old + length withins.now) }
{
    for (index, within) in withins.iter().enumerate() {
        let text = within_text(alloc, design, history, last, index as u64 + 1, *within)?;
        let color = ending_of_within(design, history, last, *within).color();
        put_words(
            picture,
            place_of(left, top, index),
            Anchor::Start,
            color,
            text,
        )?;
    }
    Ok(())
}

/// Appends `<train> visit <j>`.
fn put_visit(
    text: &mut Vec<u8>,
    design: &Design,
    train: TrainNo,
    visit: u32,
) -> Result<(), AllocError>
    ensures { OnOk result (text.new.items
        ≡ text.old.items ++ visit_of_train design.now.station train visit) }
{
    text.extend_from_slice(train_name(design, train))?;
    text.extend_from_slice(b" visit ")?;
    put_number(text, u64::from(visit))
}

/// `order <o>: <train> visit <j> before <train> visit <i>: <ending>`
fn order_text(
    alloc: Global,
    design: &Design,
    history: &[TrainHistory],
    number: u64,
    order: Order,
) -> Result<Vec<u8>, AllocError>
    ensures { IfOk result (λ text. text.items ≡ order_text design.now.station history.now (number, order)) }
{
    let mut text = Vec::from_slice(alloc, b"order ")?;
    put_number(&mut text, number)?;
    text.extend_from_slice(b": ")?;
    put_visit(&mut text, design, order.first_train, order.first_visit)?;
    text.extend_from_slice(b" before ")?;
    put_visit(&mut text, design, order.then_train, order.then_visit)?;
    text.extend_from_slice(b": ")?;
    text.extend_from_slice(ending_of_order(history, order).text())?;
    Ok(text)
}

/// So many ticks, in ms.
pub(crate) fn ms_of(design: &Design, ticks: u64) -> u64
    ensures { result ≡ ms_of design.now.station.tick_ms ticks }
{
    ticks.saturating_mul(u64::from(design.station.tick_ms))
}

/// Appends ` in <time> of `, or ` in at most ` where the time is not known.
fn put_time(
    text: &mut Vec<u8>,
    design: &Design,
    from: Option<u64>,
    to: Option<u64>,
) -> Result<(), AllocError>
    ensures { OnOk result (text.new.items
        ≡ text.old.items ++ time_text design.now.station.tick_ms from to) }
{
    match (from, to) {
        (Some(from), Some(to)) => {
            text.extend_from_slice(b" in ")?;
            put_number(text, ms_of(design, to.saturating_sub(from)))?;
            text.extend_from_slice(b" of ")
        }
        (Some(_), None) => text.extend_from_slice(b" in at most "),
        (None, _) => text.extend_from_slice(b" in at most "),
    }
}

/// `within <w>: <train> visit <j> to <train> visit <i> in <time> of <greatest> ms: <ending>`
fn within_text(
    alloc: Global,
    design: &Design,
    history: &[TrainHistory],
    last: u64,
    number: u64,
    within: Within,
) -> Result<Vec<u8>, AllocError>
    ensures { IfOk result (λ text. text.items ≡ within_text design.now.station history.now last (number, within)) }
{
    let from = visit_tick(history, within.from_train, within.from_visit);
    let to = visit_tick(history, within.to_train, within.to_visit);
    let mut text = Vec::from_slice(alloc, b"within ")?;
    put_number(&mut text, number)?;
    text.extend_from_slice(b": ")?;
    put_visit(&mut text, design, within.from_train, within.from_visit)?;
    text.extend_from_slice(b" to ")?;
    put_visit(&mut text, design, within.to_train, within.to_visit)?;
    put_time(&mut text, design, from, to)?;
    put_number(&mut text, u64::from(within.max_ms))?;
    text.extend_from_slice(b" ms: ")?;
    text.extend_from_slice(ending_of_within(design, history, last, within).text())?;
    Ok(text)
}

/// Where a requirement of an index is written, counted from 0, below a height.
fn place_of(left: u64, top: u64, index: usize) -> Point {
    Point {
        x: left,
        y: (index as u64).saturating_mul(LINE).saturating_add(top),
    }
}
