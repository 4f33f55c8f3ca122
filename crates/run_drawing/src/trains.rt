//! Trains: their names, and their lines over time and place.

ghost use Rattle.std.specs.Prelude.{◌≡◌, ◌+◌, ◌≤◌, ◌++◌, length, map, OnOk};
ghost use Rattle.drawing.specs.Drawing.{words_in};
ghost use Rattle.run_drawing.specs.Words.{name_of};

use crate::scale::Scale;
use drawing::{Anchor, Color, Picture, Point, numbered_color, put_line, put_words};
use rail_base::history::TrainHistory;
use rail_base::route::{Route, RouteNo};
use rail_base::station::{NodeNo, Train};
use std::alloc::{AllocError, Global};

/// The colour of the train of a number, counted from 1.
pub(crate) fn train_color(number: usize) -> Color {
    numbered_color(number as u64)
}

/// Appends the name of each train in its colour.
pub(crate) fn put_train_names(
    alloc: Global,
    picture: &mut Picture,
    scale: &Scale,
    trains: &[Train],
) -> Result<(), AllocError>
    ensures words { OnOk result (words_in picture.new ≡ words_in picture.old ++ map name_of trains.now) }
    ensures size { OnOk result (length picture.new ≡ length picture.old + length trains.now) }
{
    for (index, train) in trains.iter().enumerate() {
        let text = Vec::from_slice(alloc, train.name.as_bytes())?;
        put_words(
            picture,
            scale.train_name(index),
            Anchor::Start,
            train_color(index + 1),
            text,
        )?;
    }
    Ok(())
}

/// Whether a train goes up, from the first node of its path to the last.
pub(crate) fn goes_up(scale: &Scale, history: &TrainHistory) -> bool {
    match history.passes.as_slice() {
        [(first, _), .., (last, _)] => scale.point(*last, 0).y < scale.point(*first, 0).y,
        _ => false,
    }
}

/// Appends the line of the train of a number, counted from 1.
pub(crate) fn put_train_line(
    alloc: Global,
    picture: &mut Picture,
    scale: &Scale,
    routes: &[Route],
    number: usize,
    history: &TrainHistory,
) -> Result<(), AllocError>
    ensures words { OnOk result (words_in picture.new ≡ words_in picture.old) }
    ensures size { OnOk result (length picture.new ≡ length picture.old + 1) }
{
    let points = points_of(alloc, scale, routes, history)?;
    put_line(picture, points, train_color(number), 2)
}

/// For how many nodes of a path a route of a number leads; 0 where there is no such route.
fn edge_count(routes: &[Route], number: RouteNo) -> usize {
    match routes.get((number.0 as usize).saturating_sub(1)) {
        Some(route) => route.edges.len(),
        None => 0,
    }
}

/// For each node of a path at which a route begins, the tick at which that route is granted; 0 for the others and where
/// it isn't. The error is want of memory.
fn grants_at_nodes(
    alloc: Global,
    routes: &[Route],
    history: &TrainHistory,
) -> Result<Vec<u64>, AllocError> {
    let mut at_nodes = vec![in alloc; 0; history.passes.len()]?;
    let mut node: usize = 0;
    for (route, tick) in history.grants.as_slice() {
        if let Some(tick) = tick {
            if node < at_nodes.len() {
                at_nodes[node] = *tick;
            }
        }
        node = node.saturating_add(edge_count(routes, *route));
    }
    Ok(at_nodes)
}

/// The tick at which a train has stood at a visit that it has made at a node in a tick; 0 where there is no such visit,
/// or it has not stood there.
fn end_of_stand(history: &TrainHistory, node: NodeNo, tick: u64) -> u64 {
    let visits = history.visits.as_slice();
    for (visit, dwell) in visits.iter().zip(history.dwells.as_slice()) {
        if *visit == Some((node, tick)) {
            return dwell.unwrap_or(0);
        }
    }
    0
}

/// Appends a node that is passed, and again the tick up to which the train stays there, where it does.
fn put_pass(
    points: &mut Vec<Point>,
    scale: &Scale,
    node: NodeNo,
    pass: u64,
    until: u64,
) -> Result<(), AllocError> {
    points.push(scale.point(node, pass))?;
    if pass < until {
        points.push(scale.point(node, until))?;
    }
    Ok(())
}

/// The points of a train's line. The error is want of memory.
fn points_of(
    alloc: Global,
    scale: &Scale,
    routes: &[Route],
    history: &TrainHistory,
) -> Result<Vec<Point>, AllocError> {
    let grants = grants_at_nodes(alloc, routes, history)?;
    let mut points = Vec::new(alloc);
    for (index, (node, tick)) in history.passes.as_slice().iter().enumerate() {
        if let Some(tick) = tick {
            let grant = grants.get(index).copied().unwrap_or(0);
            let until = grant.max(end_of_stand(history, *node, *tick));
            put_pass(&mut points, scale, *node, *tick, until)?;
        }
    }
    Ok(points)
}
