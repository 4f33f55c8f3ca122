//! The line that says why a train's command in a step is not right.

ghost use Rattle.std.specs.Prelude.{◌++◌, codes, OnOk};
ghost use Rattle.rail_text.specs.Added.{AddsLines, AddsText};
ghost use Rattle.plan_reason_words.specs.Ends.{finishes_text};
ghost use Rattle.plan_reason_words.specs.Reasons.{again_text, before_text, ended_text, first_visit_text, given_text};
ghost use Rattle.plan_reason_words.specs.Reasons.{reason_line, reason_lines, started_text};

use crate::ends::{put_finishes, put_starts};
use crate::pieces::{put_after, put_between, put_train};
use cone_words::{put_makes, put_nodes};
use interlocking::Interlocking;
use plan_faults::Reason;
use rail_base::route::RouteNo;
use rail_base::station::TrainNo;
use std::alloc::{AllocError, Global};

/// Appends which route a train is given.
fn put_given(
    text: &mut Vec<u8>,
    interlocking: &Interlocking,
    train: TrainNo,
    route: RouteNo,
) -> Result<(), AllocError>
    ensures { let i = interlocking.now in
        OnOk result (AddsText text.old text.new (given_text i.design.station i.routes train route)) }
{
    put_train(text, interlocking, train)?;
    put_after(text, interlocking, b" is given route ", route)?;
    Ok(())
}

/// Appends which route a train is given, and where it starts.
fn put_started(
    text: &mut Vec<u8>,
    interlocking: &Interlocking,
    train: TrainNo,
    route: RouteNo,
) -> Result<(), AllocError>
    ensures { let i = interlocking.now in
        OnOk result (AddsText text.old text.new (started_text i.design.station i.routes train route)) }
{
    put_given(text, interlocking, train, route)?;
    text.extend_from_slice(b", which ")?;
    put_starts(text, interlocking, route)?;
    Ok(())
}

/// Appends where a train's first visit is.
fn put_first_visit(
    text: &mut Vec<u8>,
    interlocking: &Interlocking,
    train: TrainNo,
) -> Result<(), AllocError>
    ensures { let d = interlocking.now.design.station in
        OnOk result (AddsText text.old text.new (first_visit_text d train)) }
{
    put_makes(text, &interlocking.design, train, 1)?;
    put_nodes(text, &interlocking.design, train, 1)?;
    text.push(b'\n')?;
    Ok(())
}

/// That a step gives two routes.
fn put_second(
    text: &mut Vec<u8>,
    interlocking: &Interlocking,
    train: TrainNo,
    route: RouteNo,
    other: RouteNo,
) -> Result<(), AllocError>
    ensures { let i = interlocking.now in OnOk result (AddsText text.old text.new
        (reason_line i.design.station i.routes train (Reason.Second route other))) }
{
    put_given(text, interlocking, train, route)?;
    put_between(
        text,
        interlocking,
        b" and, in the same step, route ",
        other,
        b"\n",
    )?;
    Ok(())
}

/// Appends that a train's first route starts somewhere.
fn put_first(
    text: &mut Vec<u8>,
    interlocking: &Interlocking,
    train: TrainNo,
    route: RouteNo,
) -> Result<(), AllocError>
    ensures { let i = interlocking.now in OnOk result (AddsText text.old text.new
        (codes "first " ++ started_text i.design.station i.routes train route)) }
{
    text.extend_from_slice(b"first ")?;
    put_started(text, interlocking, train, route)?;
    Ok(())
}

/// That the first route starts elsewhere.
fn put_begins(
    text: &mut Vec<u8>,
    interlocking: &Interlocking,
    train: TrainNo,
    route: RouteNo,
) -> Result<(), AllocError>
    ensures { let i = interlocking.now in OnOk result (AddsText text.old text.new
        (reason_line i.design.station i.routes train (Reason.Begins route))) }
{
    put_first(text, interlocking, train, route)?;
    text.extend_from_slice(b": it is to start where ")?;
    put_first_visit(text, interlocking, train)?;
    Ok(())
}

/// Appends where a route ends, as the end of a line.
fn put_end(
    text: &mut Vec<u8>,
    interlocking: &Interlocking,
    route: RouteNo,
) -> Result<(), AllocError>
    ensures { let i = interlocking.now in
        OnOk result (AddsText text.old text.new (finishes_text i.design.station i.routes route ++ codes "\n")) }
{
    put_finishes(text, interlocking, route)?;
    text.push(b'\n')?;
    Ok(())
}

/// Appends where the route before ends.
fn put_before(
    text: &mut Vec<u8>,
    interlocking: &Interlocking,
    route: RouteNo,
) -> Result<(), AllocError>
    ensures { let i = interlocking.now in
        OnOk result (AddsText text.old text.new (before_text i.design.station i.routes route)) }
{
    put_between(text, interlocking, b": its route before, ", route, b", ")?;
    put_end(text, interlocking, route)?;
    Ok(())
}

/// That a route does not start where the one before ends.
fn put_goes_on(
    text: &mut Vec<u8>,
    interlocking: &Interlocking,
    train: TrainNo,
    route: RouteNo,
    other: RouteNo,
) -> Result<(), AllocError>
    ensures { let i = interlocking.now in OnOk result (AddsText text.old text.new
        (reason_line i.design.station i.routes train (Reason.GoesOn route other))) }
{
    put_started(text, interlocking, train, route)?;
    put_before(text, interlocking, other)?;
    Ok(())
}

/// Appends that a route of an earlier step does so too.
fn put_again(
    text: &mut Vec<u8>,
    interlocking: &Interlocking,
    route: RouteNo,
) -> Result<(), AllocError>
    ensures { let i = interlocking.now in
        OnOk result (AddsText text.old text.new (again_text i.design.station i.routes route)) }
{
    put_between(
        text,
        interlocking,
        b", as its route ",
        route,
        b" of an earlier step does\n",
    )
}

/// That a start is used again.
fn put_starts_again(
    text: &mut Vec<u8>,
    interlocking: &Interlocking,
    train: TrainNo,
    route: RouteNo,
    other: RouteNo,
) -> Result<(), AllocError>
    ensures { let i = interlocking.now in OnOk result (AddsText text.old text.new
        (reason_line i.design.station i.routes train (Reason.StartsAgain route other))) }
{
    put_started(text, interlocking, train, route)?;
    put_again(text, interlocking, other)?;
    Ok(())
}

/// Appends which route a train is given, and where it ends.
fn put_ended(
    text: &mut Vec<u8>,
    interlocking: &Interlocking,
    train: TrainNo,
    route: RouteNo,
) -> Result<(), AllocError>
    ensures { let i = interlocking.now in
        OnOk result (AddsText text.old text.new (ended_text i.design.station i.routes train route)) }
{
    put_given(text, interlocking, train, route)?;
    text.extend_from_slice(b", which ")?;
    put_finishes(text, interlocking, route)?;
    Ok(())
}

/// That a signal is come to again.
fn put_ends_again(
    text: &mut Vec<u8>,
    interlocking: &Interlocking,
    train: TrainNo,
    route: RouteNo,
    other: RouteNo,
) -> Result<(), AllocError>
    ensures { let i = interlocking.now in OnOk result (AddsText text.old text.new
        (reason_line i.design.station i.routes train (Reason.EndsAgain route other))) }
{
    put_ended(text, interlocking, train, route)?;
    put_again(text, interlocking, other)?;
    Ok(())
}

/// Appends what is wrong.
fn put_reason(
    text: &mut Vec<u8>,
    interlocking: &Interlocking,
    train: TrainNo,
    reason: Reason,
) -> Result<(), AllocError>
    ensures { let i = interlocking.now in OnOk result (AddsText text.old text.new
        (reason_line i.design.station i.routes train reason)) }
{
    match reason {
        Reason::Second(route, other) => put_second(text, interlocking, train, route, other),
        Reason::Begins(route) => put_begins(text, interlocking, train, route),
        Reason::GoesOn(route, other) => put_goes_on(text, interlocking, train, route, other),
        Reason::StartsAgain(route, other) => {
            put_starts_again(text, interlocking, train, route, other)
        }
        Reason::EndsAgain(route, other) => put_ends_again(text, interlocking, train, route, other),
    }
}

/// Appends the line of a reason, where there is one.
pub fn push_reason(
    alloc: Global,
    interlocking: &Interlocking,
    train: TrainNo,
    reason: Option<Reason>,
    lines: &mut Vec<Vec<u8>>,
) -> Result<(), AllocError>
    ensures { let i = interlocking.now in OnOk result (AddsLines lines.old lines.new
        (reason_lines i.design.station i.routes train reason)) }
{
    let Some(reason) = reason else {
        return Ok(());
    };
    let mut line = Vec::new(alloc);
    put_reason(&mut line, interlocking, train, reason)?;
    lines.push(line)?;
    Ok(())
}
