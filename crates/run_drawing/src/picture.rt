//! The whole picture.

ghost use Rattle.std.specs.Prelude.{◌≡◌, ◌+◌, ◌≤◌, ◌++◌, length, IfOk, OnOk};
ghost use Rattle.drawing.specs.Drawing.{words_in};
ghost use Rattle.run_drawing.specs.Requirements.{requirement_texts};
ghost use Rattle.run_drawing.specs.Words.{frame_size, frame_words, history_in, history_size, history_texts, last_tick};
ghost use Rattle.run_drawing.specs.Words.{run_size, run_words, train_size, train_texts};

use crate::axes::{put_levels, put_times};
use crate::bars::{put_holdings, put_rows, row_of};
use crate::outcome::put_outcome;
use crate::requirements::{put_orders, put_withins};
use crate::scale::{LINE, Scale};
use crate::stands::put_stands;
use crate::trains::{goes_up, put_train_line, put_train_names};
use crate::visits::put_visits;
use drawing::Picture;
use rail_base::design::Design;
use rail_base::history::{TrainHistory, Verdict};
use rail_base::list::List;
use rail_base::names::name_of_train;
use rail_base::route::Route;
use rail_base::station::Station;
use std::alloc::{AllocError, Global};

/// The picture of what a run of a plan shows, by the routes of the design. Its words are how the run ends, the names of
/// all trains and of all sections, each in the order of their numbers, and train by train `<train> visit <j>` for each
/// visit that is made and `<train> stands <time> ms` for each stand that is done, in the order of its visits, and then
/// what is asked of each order and each within and what came of it, as
/// `order <o>: <train> visit <j> before <train> visit <i>: met`.
///
/// Across runs the time, in s; down lie the nodes, by their levels along the track. A train's line leads through the
/// nodes that it passes, and stays at one where it stands, or where a route from there is granted later. Below there is
/// a row for each section with a bar from the grant to the release, or to the deciding tick, which is empty where the
/// section is of an overlap, and below that a text for each requirement.
///
/// `Err` is want of memory.
pub fn run_picture(
    alloc: Global,
    design: &Design,
    routes: &[Route],
    verdict: &Verdict,
) -> Result<Picture, AllocError>
    ensures words { IfOk result (λ picture.
        words_in picture ≡ run_words design.now.station verdict.now) }
    ensures size { IfOk result (λ picture.
        length picture ≤ run_size design.now.station verdict.now) }
{
    let station = &design.station;
    let history = history_in(verdict);
    let last = last_tick(verdict);
    let scale = Scale::new(alloc, station, last)?;
    let below = row_of(&scale, station.sections.len()).saturating_add(LINE);
    let mut picture: Picture = List::new(alloc);
    put_frame(alloc, &mut picture, &scale, design, verdict)?;
    put_history(alloc, &mut picture, &scale, design, routes, history)?;
    put_requirements(
        alloc,
        &mut picture,
        design,
        history,
        last,
        scale.left,
        below,
    )?;
    Ok(picture)
}

/// What happened to the trains.
fn history_in(verdict: &Verdict) -> &[TrainHistory]
    ensures { result.now ≡ history_in verdict.now }
{
    match verdict {
        Verdict::Met { history, .. } => history.as_slice(),
        Verdict::Failed { history, .. } => history.as_slice(),
        Verdict::Undecided => &[],
    }
}

/// The deciding tick; 0 where the verdict is undecided.
fn last_tick(verdict: &Verdict) -> u64
    ensures { result ≡ last_tick verdict.now }
{
    match verdict {
        Verdict::Met { tick, .. } => *tick,
        Verdict::Failed { tick, .. } => *tick,
        Verdict::Undecided => 0,
    }
}

/// Appends what happened to the train of a number, counted from 1: its line, the sections that it held, its visits, and
/// its stands.
fn put_train(
    alloc: Global,
    picture: &mut Picture,
    scale: &Scale,
    design: &Design,
    routes: &[Route],
    number: usize,
    train: &TrainHistory,
) -> Result<(), AllocError>
    ensures words { OnOk result (words_in picture.new
        ≡ words_in picture.old ++ train_texts design.now.station number train.now) }
    ensures size { OnOk result (length picture.new ≤ length picture.old + train_size train.now) }
{
    let name = name_of_train(&design.station, number);
    let upward = goes_up(scale, train);
    put_train_line(alloc, picture, scale, routes, number, train)?;
    put_holdings(alloc, picture, scale, number, name, train)?;
    put_visits(
        alloc,
        picture,
        scale,
        number,
        name,
        train.visits.as_slice(),
        upward,
    )?;
    put_stands(alloc, picture, scale, design, number, name, train, upward)
}

/// Appends what happened to all trains.
fn put_history(
    alloc: Global,
    picture: &mut Picture,
    scale: &Scale,
    design: &Design,
    routes: &[Route],
    history: &[TrainHistory],
) -> Result<(), AllocError>
    ensures words { OnOk result (words_in picture.new
        ≡ words_in picture.old ++ history_texts design.now.station history.now) }
    ensures size { OnOk result (length picture.new ≤ length picture.old + history_size history.now) }
{
    for (index, train) in history.iter().enumerate() {
        put_train(alloc, picture, scale, design, routes, index + 1, train)?;
    }
    Ok(())
}

/// Appends all requirements, below a height, by what happened up to a last tick.
fn put_requirements(
    alloc: Global,
    picture: &mut Picture,
    design: &Design,
    history: &[TrainHistory],
    last: u64,
    left: u64,
    top: u64,
) -> Result<(), AllocError>
    ensures words { OnOk result (words_in picture.new
        ≡ words_in picture.old ++ requirement_texts design.now.station history.now last) }
    ensures size { let d = design.now.station in
        OnOk result (length picture.new ≡ length picture.old + length d.orders + length d.withins) }
{
    let many = design.station.orders.len() as u64;
    let below = many.saturating_mul(LINE).saturating_add(top);
    let orders = design.station.orders.as_slice();
    put_orders(alloc, picture, design, orders, history, left, top)?;
    let withins = design.station.withins.as_slice();
    put_withins(alloc, picture, design, withins, history, last, left, below)
}

/// Appends the axes, how the run ends, and the names of trains and sections.
fn put_frame(
    alloc: Global,
    picture: &mut Picture,
    scale: &Scale,
    design: &Design,
    verdict: &Verdict,
) -> Result<(), AllocError>
    ensures words { OnOk result (words_in picture.new
        ≡ words_in picture.old ++ frame_words design.now.station verdict.now) }
    ensures size { OnOk result (length picture.new ≤ length picture.old + frame_size design.now.station) }
{
    let station = &design.station;
    let sections = station.sections.as_slice();
    let bottom = row_of(scale, sections.len());
    put_times(alloc, picture, scale, bottom)?;
    put_levels(alloc, picture, scale, station.nodes.as_slice())?;
    put_outcome(alloc, picture, design, verdict, scale.left)?;
    put_train_names(alloc, picture, scale, station.trains.as_slice())?;
    put_rows(alloc, picture, scale, sections)
}
