//! Where routes start, and where they end.

ghost use Rattle.std.specs.Prelude.{◌≡◌, ◌++◌, IfOk, OnOk, map};
ghost use Rattle.rail_base.specs.Stations.{IsNode, IsSignal};
ghost use Rattle.rail_laws.specs.Elementary.{IsStart};
ghost use Rattle.rail_spec.specs.Track.{finish_at, start_end, starts, starts_at};
ghost use Rattle.rail_base.specs.declared.route.Start.TheVariants as start;

use crate::track::{Track, is_boundary, signal_end, through};
use rail_base::route::{Finish, Start};
use rail_base::station::{End, NodeNo, Side, SignalNo};
use std::alloc::{AllocError, Global};

/// How a route ends that reaches a node by this end, if it ends there.
pub(crate) fn finish_at(track: &Track<'_>, end: End) -> Option<Finish>
    requires { IsNode track.now.design.now.station end.node }
    ensures { result ≡ finish_at track.now.design.now.station end }
{
    if is_boundary(track.design, end.node) {
        return Some(Finish::Exit(end.node));
    }
    let onward = track.at(through(end));
    match onward.signals.as_slice().first() {
        Some(signal) => Some(Finish::Signal(*signal)),
        None => {
            if onward.edges.is_empty() {
                Some(Finish::DeadEnd(end.node))
            } else {
                None
            }
        }
    }
}

/// The end by which a route leaves its start: of a boundary, the one where its edge is.
pub(crate) fn start_end(track: &Track<'_>, start: Start) -> End
    requires { IsStart track.now.design.now.station start }
    ensures { result ≡ start_end track.now.design.now.station start }
{
    match start {
        Start::Boundary(node) => {
            let at_a = End {
                node,
                side: Side::A,
            };
            if track.at(at_a).edges.is_empty() {
                through(at_a)
            } else {
                at_a
            }
        }
        Start::Signal(signal) => signal_end(track.design, signal),
    }
}

/// All starts, in the order of their nodes.
pub(crate) fn starts(alloc: Global, track: &Track<'_>) -> Result<Vec<Start>, AllocError>
    ensures { IfOk result (λ all. all.items ≡ starts track.now.design.now.station) }
{
    let mut all = Vec::new(alloc);
    for index in 0..track.design.station.nodes.len() {
        add_starts_at(&mut all, track, NodeNo(index as u32 + 1))?;
    }
    Ok(all)
}

/// Adds the signals to the starts.
fn add_signals(starts: &mut Vec<Start>, signals: &[SignalNo]) -> Result<(), AllocError>
    ensures { OnOk result (starts.new.items ≡ starts.old.items ++ map start.Signal signals.now) }
{
    for signal in signals {
        starts.push(Start::Signal(*signal))?;
    }
    Ok(())
}

/// Adds the starts at a node: itself where it is a boundary, and else its signals, toward a before toward b.
fn add_starts_at(starts: &mut Vec<Start>, track: &Track<'_>, node: NodeNo) -> Result<(), AllocError>
    requires { IsNode track.now.design.now.station node }
    ensures { OnOk result (starts.new.items ≡ starts.old.items ++ starts_at track.now.design.now.station node) }
{
    if is_boundary(track.design, node) {
        starts.push(Start::Boundary(node))?;
        return Ok(());
    }
    let at_a = End {
        node,
        side: Side::A,
    };
    let toward_a = &track.at(at_a).signals;
    let toward_b = &track.at(through(at_a)).signals;
    add_signals(starts, toward_a.as_slice())?;
    add_signals(starts, toward_b.as_slice())
}
