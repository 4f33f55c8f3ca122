//! What came of the orders and withins. An error is want of memory; then a part of what is appended may stand there.

ghost use Rattle.std.specs.Prelude.{◌≡◌, map, length, IfOk, OnOk};
ghost use Rattle.rail_base.specs.Numbering.{one_to};
ghost use Rattle.rail_spec.specs.Requirements.{most_ticks};
ghost use Rattle.rail_text.specs.Added.{AddsLines, AddsText};
ghost use Rattle.run_drawing.specs.Requirements.{ending_text, order_ending, within_ending};
ghost use Rattle.outcome_words.specs.Requirements.{early_text, late_text, order_amount, order_line};
ghost use Rattle.outcome_words.specs.Requirements.{order_outcome, requirement_lines, span_text, spare_text};
ghost use Rattle.outcome_words.specs.Requirements.{taken_text, unknown_text, within_amount, within_line};
ghost use Rattle.outcome_words.specs.Requirements.{within_outcome};

use crate::visits::{put_missing, put_time, put_visit};
use asked_words::put_duration;
use cone_words::{most_ticks, ms_of, order_of, within_of};
use rail_base::design::Design;
use rail_base::history::TrainHistory;
use rail_base::station::{Order, Within};
use rail_require::visit_tick;
use rail_text::put_number;
use std::alloc::{AllocError, Global};

/// The word for what came of an order whose visits are made at these ticks.
fn order_word(first: Option<u64>, second: Option<u64>) -> &'static [u8]
    ensures { result.now ≡ ending_text (order_ending first second) }
{
    match (first, second) {
        (_, None) => b"open",
        (None, Some(_)) => b"broken",
        (Some(first), Some(second)) => { if first < second { b"met" } else { b"broken" } }
    }
}

/// Appends by how much an order is broken whose first visit comes so many ticks after the other.
fn put_late(text: &mut Vec<u8>, design: &Design, ticks: u64) -> Result<(), AllocError>
    ensures { OnOk result (AddsText text.old text.new (late_text design.now.station ticks)) }
{
    if ticks == 0 {
        text.extend_from_slice(b", both at once")?;
        return Ok(());
    }
    text.extend_from_slice(b", by ")?;
    put_time(text, design, ticks)?;
    Ok(())
}

/// Appends by how much an order is met or broken whose visits are made at these ticks.
fn put_lead(
    text: &mut Vec<u8>,
    design: &Design,
    order: Order,
    last: u64,
    first: u64,
    second: u64,
) -> Result<(), AllocError>
    ensures { OnOk result (AddsText text.old text.new
        (order_amount design.now.station order last (Some first) (Some second))) }
{
    if first < second {
        text.extend_from_slice(b", by ")?;
        put_time(text, design, second - first)?;
        Ok(())
    } else {
        put_late(text, design, first - second)
    }
}

/// Appends by how much, or which visit is not made by the last tick.
fn put_order_amount(
    text: &mut Vec<u8>,
    design: &Design,
    order: Order,
    last: u64,
    first: Option<u64>,
    second: Option<u64>,
) -> Result<(), AllocError>
    ensures { OnOk result (AddsText text.old text.new (order_amount design.now.station order last first second)) }
{
    match (first, second) {
        (_, None) => {
            text.extend_from_slice(b", ")?;
            put_missing(text, design, last, order.then_train, order.then_visit)
        }
        (None, Some(_)) => {
            text.extend_from_slice(b", ")?;
            put_missing(text, design, last, order.first_train, order.first_visit)
        }
        (Some(first), Some(second)) => put_lead(text, design, order, last, first, second),
    }
}

/// Appends what came of an order up to a last tick.
fn put_order_ends(
    text: &mut Vec<u8>,
    design: &Design,
    history: &[TrainHistory],
    last: u64,
    order: Order,
) -> Result<(), AllocError>
    ensures { OnOk result (AddsText text.old text.new
        (order_outcome design.now.station history.now (Some last) order)) }
{
    let first = visit_tick(history, order.first_train, order.first_visit);
    let second = visit_tick(history, order.then_train, order.then_visit);
    text.extend_from_slice(order_word(first, second))?;
    put_order_amount(text, design, order, last, first, second)?;
    Ok(())
}

/// Appends that no run shows what came of a requirement.
fn put_unknown(text: &mut Vec<u8>) -> Result<(), AllocError>
    ensures { OnOk result (AddsText text.old text.new unknown_text) }
{
    text.extend_from_slice(b"open, no run shows it")?;
    Ok(())
}

/// Appends what came of an order, as far as a run shows it.
fn put_order_outcome(
    text: &mut Vec<u8>,
    design: &Design,
    history: &[TrainHistory],
    last: Option<u64>,
    order: Order,
) -> Result<(), AllocError>
    ensures { OnOk result (AddsText text.old text.new (order_outcome design.now.station history.now last order)) }
{
    match last {
        None => put_unknown(text),
        Some(last) => put_order_ends(text, design, history, last, order),
    }
}

/// What came of the order of a number.
fn order_line(
    alloc: Global,
    design: &Design,
    history: &[TrainHistory],
    last: Option<u64>,
    number: u32,
) -> Result<Vec<u8>, AllocError>
    ensures { IfOk result (λ line. line.items ≡ order_line design.now.station history.now last number) }
{
    let order = order_of(design, number);
    let mut line = Vec::from_slice(alloc, b"order ")?;
    put_number(&mut line, u64::from(number))?;
    line.extend_from_slice(b": ")?;
    put_visit(
        &mut line,
        design,
        history,
        order.first_train,
        order.first_visit,
    )?;
    line.extend_from_slice(b", before ")?;
    put_visit(
        &mut line,
        design,
        history,
        order.then_train,
        order.then_visit,
    )?;
    line.extend_from_slice(b": ")?;
    put_order_outcome(&mut line, design, history, last, order)?;
    line.push(b'\n')?;
    Ok(line)
}

/// The word for what came of a within of so many ticks, by the ticks of its visits and a last tick.
fn within_word(most: u64, last: u64, from: Option<u64>, to: Option<u64>) -> &'static [u8]
    ensures { result.now ≡ ending_text (within_ending most last from to) }
{
    match (from, to) {
        (None, _) => b"open",
        (Some(from), Some(to)) => {
            if to.saturating_sub(from) <= most {
                b"met"
            } else {
                b"broken"
            }
        }
        (Some(from), None) => {
            if from <= last && most <= last - from {
                b"broken"
            } else {
                b"open"
            }
        }
    }
}

/// Appends how long before the first visit the other is made.
fn put_early(text: &mut Vec<u8>, design: &Design, ticks: u64) -> Result<(), AllocError>
    ensures { OnOk result (AddsText text.old text.new (early_text design.now.station ticks)) }
{
    put_time(text, design, ticks)?;
    text.extend_from_slice(b" before it, of at most ")?;
    Ok(())
}

/// Appends how long after the first visit the other is made.
fn put_taken(text: &mut Vec<u8>, design: &Design, ticks: u64) -> Result<(), AllocError>
    ensures { OnOk result (AddsText text.old text.new (taken_text design.now.station ticks)) }
{
    put_time(text, design, ticks)?;
    text.extend_from_slice(b" of at most ")?;
    Ok(())
}

/// Appends the time from one visit to another, and that it is to be at most what follows.
fn put_time_between(
    text: &mut Vec<u8>,
    design: &Design,
    from: u64,
    to: u64,
) -> Result<(), AllocError>
    ensures { OnOk result (AddsText text.old text.new (span_text design.now.station (Some from) (Some to))) }
{
    if to < from {
        put_early(text, design, from - to)
    } else {
        put_taken(text, design, to - from)
    }
}

/// Appends the same where both visits are made, and else only what is asked for.
fn put_span(
    text: &mut Vec<u8>,
    design: &Design,
    from: Option<u64>,
    to: Option<u64>,
) -> Result<(), AllocError>
    ensures { OnOk result (AddsText text.old text.new (span_text design.now.station from to)) }
{
    match (from, to) {
        (Some(from), Some(to)) => put_time_between(text, design, from, to),
        (Some(_), None) => text.extend_from_slice(b"at most "),
        (None, _) => text.extend_from_slice(b"at most "),
    }
}

/// Appends how much of the greatest time is left, or how much is missing.
fn put_spare(
    text: &mut Vec<u8>,
    design: &Design,
    within: Within,
    from: u64,
    to: u64,
) -> Result<(), AllocError>
    ensures { OnOk result (AddsText text.old text.new (spare_text design.now.station within from to)) }
{
    if to < from {
        return Ok(());
    }
    let time = ms_of(design, to - from);
    let most = u64::from(within.max_ms);
    if to - from <= most_ticks(design, &within) {
        text.extend_from_slice(b", ")?;
        put_duration(text, most.saturating_sub(time))?;
        text.extend_from_slice(b" to spare")
    } else {
        text.extend_from_slice(b" by ")?;
        put_duration(text, time.saturating_sub(most))
    }
}

/// Appends the same, or which visit is not made by the last tick.
fn put_within_amount(
    text: &mut Vec<u8>,
    design: &Design,
    within: Within,
    last: u64,
    from: Option<u64>,
    to: Option<u64>,
) -> Result<(), AllocError>
    ensures { OnOk result (AddsText text.old text.new (within_amount design.now.station within last from to)) }
{
    match (from, to) {
        (None, _) => {
            text.extend_from_slice(b", ")?;
            put_missing(text, design, last, within.from_train, within.from_visit)
        }
        (Some(_), None) => {
            text.extend_from_slice(b", ")?;
            put_missing(text, design, last, within.to_train, within.to_visit)
        }
        (Some(from), Some(to)) => put_spare(text, design, within, from, to),
    }
}

/// Appends what came of a within up to a last tick.
fn put_within_ends(
    text: &mut Vec<u8>,
    design: &Design,
    history: &[TrainHistory],
    last: u64,
    within: Within,
) -> Result<(), AllocError>
    ensures { OnOk result (AddsText text.old text.new
        (within_outcome design.now.station history.now (Some last) within)) }
{
    let from = visit_tick(history, within.from_train, within.from_visit);
    let to = visit_tick(history, within.to_train, within.to_visit);
    let most = most_ticks(design, &within);
    put_span(text, design, from, to)?;
    put_duration(text, u64::from(within.max_ms))?;
    text.extend_from_slice(b", ")?;
    text.extend_from_slice(within_word(most, last, from, to))?;
    put_within_amount(text, design, within, last, from, to)?;
    Ok(())
}

/// Appends what came of a within, as far as a run shows it.
fn put_within_outcome(
    text: &mut Vec<u8>,
    design: &Design,
    history: &[TrainHistory],
    last: Option<u64>,
    within: Within,
) -> Result<(), AllocError>
    ensures { OnOk result (AddsText text.old text.new (within_outcome design.now.station history.now last within)) }
{
    match last {
        None => {
            text.extend_from_slice(b"at most ")?;
            put_duration(text, u64::from(within.max_ms))?;
            text.extend_from_slice(b", ")?;
            put_unknown(text)
        }
        Some(last) => put_within_ends(text, design, history, last, within),
    }
}

/// What came of the within of a number.
fn within_line(
    alloc: Global,
    design: &Design,
    history: &[TrainHistory],
    last: Option<u64>,
    number: u32,
) -> Result<Vec<u8>, AllocError>
    ensures { IfOk result (λ line. line.items ≡ within_line design.now.station history.now last number) }
{
    let within = within_of(design, number);
    let mut line = Vec::from_slice(alloc, b"within ")?;
    put_number(&mut line, u64::from(number))?;
    line.extend_from_slice(b": from ")?;
    put_visit(
        &mut line,
        design,
        history,
        within.from_train,
        within.from_visit,
    )?;
    line.extend_from_slice(b", to ")?;
    put_visit(&mut line, design, history, within.to_train, within.to_visit)?;
    line.extend_from_slice(b": ")?;
    put_within_outcome(&mut line, design, history, last, within)?;
    line.push(b'\n')?;
    Ok(line)
}

/// Appends all orders.
fn push_orders(
    alloc: Global,
    design: &Design,
    history: &[TrainHistory],
    last: Option<u64>,
    lines: &mut Vec<Vec<u8>>,
) -> Result<(), AllocError>
    ensures { let d = design.now.station in OnOk result (AddsLines lines.old lines.new
        (map (order_line d history.now last) (one_to (length d.orders)))) }
{
    let orders = design.station.orders.len() as u32;
    for number in 1..orders + 1 {
        let line = order_line(alloc, design, history, last, number)?;
        lines.push(line)?;
    }
    Ok(())
}

/// Appends all withins.
fn push_withins(
    alloc: Global,
    design: &Design,
    history: &[TrainHistory],
    last: Option<u64>,
    lines: &mut Vec<Vec<u8>>,
) -> Result<(), AllocError>
    ensures { let d = design.now.station in OnOk result (AddsLines lines.old lines.new
        (map (within_line d history.now last) (one_to (length d.withins)))) }
{
    let withins = design.station.withins.len() as u32;
    for number in 1..withins + 1 {
        let line = within_line(alloc, design, history, last, number)?;
        lines.push(line)?;
    }
    Ok(())
}

/// Appends what came of each order and then of each within, up to a last tick where a run shows it.
pub(crate) fn push_requirements(
    alloc: Global,
    design: &Design,
    history: &[TrainHistory],
    last: Option<u64>,
    lines: &mut Vec<Vec<u8>>,
) -> Result<(), AllocError>
    ensures { OnOk result (AddsLines lines.old lines.new
        (requirement_lines design.now.station history.now last)) }
{
    push_orders(alloc, design, history, last, lines)?;
    push_withins(alloc, design, history, last, lines)?;
    Ok(())
}
