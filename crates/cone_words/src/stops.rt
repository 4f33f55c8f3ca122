//! The sentences about where the trains of a cone stand. An error is want of memory; then a part of what is appended
//! may be there.

ghost use Rattle.std.specs.Prelude.{◌≡◌, ◌∷◌, [], IfOk, OnOk};
ghost use Rattle.std.specs.List.{list_any};
ghost use Rattle.rail_base.specs.Numbering.{after_first};
ghost use Rattle.rail_base.specs.Routes.{route_at};
ghost use Rattle.rail_base.specs.Stations.{whole_ticks};
ghost use Rattle.rail_spec.specs.Places.{leads_to};
ghost use Rattle.rail_spec.specs.Plans.{has_node};
ghost use Rattle.interlocking.specs.Plans.{on};
ghost use Rattle.rail_text.specs.Added.{AddsLines};
ghost use Rattle.cone_words.specs.Phrases.{sentence};
ghost use Rattle.cone_words.specs.Stops.{goes_to, is_stop, stop_sentences, stop_sentences_of, stop_text};
ghost use Rattle.cone_words.specs.Stops.{stops_sentences};

use crate::phrases::put_joined_nodes;
use crate::sentences::push_sentence;
use crate::times::put_ticks;
use cone_spec::ConeTrain;
use interlocking::Interlocking;
use rail_base::design::Design;
use rail_base::list::List;
use rail_base::names::{entry, train_name};
use rail_base::route::{RouteNo, RouteTable};
use rail_base::station::{NodeNo, TrainNo};
use std::alloc::{AllocError, Global};

/// Appends where a train of a cone stands.
pub(crate) fn push_stops(
    alloc: Global,
    interlocking: &Interlocking,
    line: u64,
    train: &ConeTrain,
    lines: &mut Vec<Vec<u8>>,
) -> Result<(), AllocError>
    ensures { OnOk result (AddsLines lines.old lines.new (on interlocking.now stop_sentences line train.now)) }
{
    let trains = interlocking.design.station.trains.as_slice();
    match entry(trains, train.train.0 as usize) {
        Some(found) => {
            let visits = found.visits.as_slice();
            let dwell_ms = found.dwell_ms.as_slice();
            push_each_stop(alloc, interlocking, line, train, visits, dwell_ms, lines)
        }
        None => Ok(()),
    }
}

/// Appends where a train of a cone stands, of these visits and times to stand in ms.
fn push_each_stop(
    alloc: Global,
    interlocking: &Interlocking,
    line: u64,
    train: &ConeTrain,
    visits: &[List<NodeNo>],
    dwell_ms: &[u32],
    lines: &mut Vec<Vec<u8>>,
) -> Result<(), AllocError>
    ensures { OnOk result (AddsLines lines.old lines.new
        (on interlocking.now stops_sentences line train.now visits.now dwell_ms.now)) }
{
    for (nodes, ms) in visits.iter().zip(dwell_ms) {
        push_stop(
            alloc,
            interlocking,
            line,
            train,
            nodes.as_slice(),
            *ms,
            lines,
        )?;
    }
    Ok(())
}

/// Appends that a train of a cone stands at a visit, where it has to and its path leads there.
fn push_stop(
    alloc: Global,
    interlocking: &Interlocking,
    line: u64,
    train: &ConeTrain,
    nodes: &[NodeNo],
    ms: u32,
    lines: &mut Vec<Vec<u8>>,
) -> Result<(), AllocError>
    ensures { OnOk result (AddsLines lines.old lines.new
        (on interlocking.now stop_sentences_of line train.now (nodes.now, ms))) }
{
    if !is_stop(&interlocking.routes, train, nodes, ms) {
        return Ok(());
    }
    push_standing(
        alloc,
        &interlocking.design,
        line,
        train.train,
        nodes,
        ms,
        lines,
    )
}

/// Appends that a train stands at a visit for so many ms.
fn push_standing(
    alloc: Global,
    design: &Design,
    line: u64,
    train: TrainNo,
    nodes: &[NodeNo],
    ms: u32,
    lines: &mut Vec<Vec<u8>>,
) -> Result<(), AllocError>
    ensures { OnOk result (AddsLines lines.old lines.new
        (sentence line (stop_text design.now.station train (nodes.now, ms)) ∷ [])) }
{
    let text = stop_text(alloc, design, train, nodes, ms)?;
    push_sentence(alloc, lines, line, &text)?;
    Ok(())
}

/// That a train stands at a visit for so many ms, in ticks.
fn stop_text(
    alloc: Global,
    design: &Design,
    train: TrainNo,
    nodes: &[NodeNo],
    ms: u32,
) -> Result<Vec<u8>, AllocError>
    ensures { IfOk result (λ text. text.items ≡ stop_text design.now.station train (nodes.now, ms)) }
{
    let mut text = Vec::from_slice(alloc, train_name(design, train))?;
    text.extend_from_slice(b" stands for ")?;
    put_ticks(&mut text, design, whole_ticks(design, ms))?;
    text.extend_from_slice(b" at ")?;
    put_joined_nodes(&mut text, design, nodes)?;
    Ok(text)
}

/// So many ms in ticks, rounded up.
fn whole_ticks(design: &Design, ms: u32) -> u64
    ensures { result ≡ whole_ticks design.now.station ms }
{
    let tick_ms = u64::from(design.station.tick_ms);
    (u64::from(ms) + tick_ms - 1) / tick_ms
}

/// Whether a train of a cone has to stand at a visit, and its path leads there.
fn is_stop(routes: &RouteTable, train: &ConeTrain, nodes: &[NodeNo], ms: u32) -> bool
    ensures { result ≡ is_stop routes.now train.now (nodes.now, ms) }
{
    0 < ms && goes_to(routes, train.path.as_slice(), nodes)
}

/// Whether a path leads to one of these nodes.
fn goes_to(routes: &RouteTable, path: &[RouteNo], nodes: &[NodeNo]) -> bool
    ensures { result ≡ goes_to routes.now path.now nodes.now }
{
    path.iter().any(|route| leads_to(routes, *route, nodes))
}

/// Whether a route leads to one of these nodes.
fn leads_to(routes: &RouteTable, route: RouteNo, nodes: &[NodeNo]) -> bool
    ensures { result ≡ leads_to nodes.now (route_at routes.now route) }
{
    match entry(routes.as_slice(), route.0 as usize) {
        Some(route) => has_later_node(route.nodes.as_slice(), nodes),
        None => false,
    }
}

/// Whether a place of a route, but for its start, is at one of these nodes.
fn has_later_node(places: &[(NodeNo, i64)], nodes: &[NodeNo]) -> bool
    ensures { result ≡ list_any (λ p. has_node nodes.now p.0) (after_first places.now) }
{
    match places.split_first() {
        Some((_, later)) => later.iter().any(|place| has_node(nodes, place.0)),
        None => false,
    }
}

/// Whether a node is one of these.
fn has_node(nodes: &[NodeNo], node: NodeNo) -> bool
    ensures { result ≡ has_node nodes.now node }
{
    nodes.iter().any(|other| other.0 == node.0)
}
