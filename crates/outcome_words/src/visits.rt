//! Visits and times of a run, in words. An error is want of memory; then a part of what is appended may stand there.

ghost use Rattle.std.specs.Prelude.{◌≡◌, OnOk};
ghost use Rattle.rail_text.specs.Added.{AddsText};
ghost use Rattle.run_drawing.specs.Requirements.{visit_of_train};
ghost use Rattle.outcome_words.specs.Visits.{missing_text, place_text, time_text, visit_made, visit_text};

use asked_words::put_duration;
use cone_words::{ms_of, put_nodes};
use rail_base::design::Design;
use rail_base::history::TrainHistory;
use rail_base::names::{entry, node_name, train_name};
use rail_base::station::{NodeNo, TrainNo};
use rail_text::put_number;
use std::alloc::AllocError;

/// Appends so many ticks in minutes and seconds.
pub(crate) fn put_time(text: &mut Vec<u8>, design: &Design, ticks: u64) -> Result<(), AllocError>
    ensures { OnOk result (AddsText text.old text.new (time_text design.now.station ticks)) }
{
    put_duration(text, ms_of(design, ticks))?;
    Ok(())
}

/// Where and when a train makes a visit. None where it hasn't been made, or the history has no such visit.
fn visit_made(history: &[TrainHistory], train: TrainNo, visit: u32) -> Option<(NodeNo, u64)>
    ensures { result ≡ visit_made history.now train visit }
{
    match entry(history, train.0 as usize) {
        Some(train) => match entry(train.visits.as_slice(), visit as usize) {
            Some(made) => *made,
            None => None,
        },
        None => None,
    }
}

/// Appends the node at which a visit is made, or else those at which it may be.
fn put_place(
    text: &mut Vec<u8>,
    design: &Design,
    train: TrainNo,
    visit: u32,
    made: Option<(NodeNo, u64)>,
) -> Result<(), AllocError>
    ensures { OnOk result (AddsText text.old text.new (place_text design.now.station train visit made)) }
{
    match made {
        Some((node, _)) => {
            text.extend_from_slice(b", at ")?;
            text.extend_from_slice(node_name(design, node))?;
            Ok(())
        }
        None => put_nodes(text, design, train, visit),
    }
}

/// Appends `<train> visit <j>`.
pub(crate) fn put_visit_name(
    text: &mut Vec<u8>,
    design: &Design,
    train: TrainNo,
    visit: u32,
) -> Result<(), AllocError>
    ensures { OnOk result (AddsText text.old text.new (visit_of_train design.now.station train visit)) }
{
    text.extend_from_slice(train_name(design, train))?;
    text.extend_from_slice(b" visit ")?;
    put_number(text, u64::from(visit))?;
    Ok(())
}

/// Appends a visit with where it is made.
pub(crate) fn put_visit(
    text: &mut Vec<u8>,
    design: &Design,
    history: &[TrainHistory],
    train: TrainNo,
    visit: u32,
) -> Result<(), AllocError>
    ensures { OnOk result (AddsText text.old text.new (visit_text design.now.station history.now train visit)) }
{
    put_visit_name(text, design, train, visit)?;
    put_place(
        text,
        design,
        train,
        visit,
        visit_made(history, train, visit),
    )?;
    Ok(())
}

/// Appends that a visit is not made by a last tick.
pub(crate) fn put_missing(
    text: &mut Vec<u8>,
    design: &Design,
    last: u64,
    train: TrainNo,
    visit: u32,
) -> Result<(), AllocError>
    ensures { OnOk result (AddsText text.old text.new (missing_text design.now.station last train visit)) }
{
    put_visit_name(text, design, train, visit)?;
    text.extend_from_slice(b" is not made by ")?;
    put_time(text, design, last)?;
    Ok(())
}
