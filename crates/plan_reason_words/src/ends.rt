//! Where routes start and end.

ghost use Rattle.std.specs.Prelude.{◌++◌, OnOk};
ghost use Rattle.rail_base.specs.Names.{node_name, signal_name};
ghost use Rattle.rail_text.specs.Added.{AddsText};
ghost use Rattle.plan_reason_words.specs.Ends.{finish_text, finishes_text, start_text, starts_text};

use interlocking::Interlocking;
use plan_faults::{finish_of, start_of};
use rail_base::design::Design;
use rail_base::names::{node_name, signal_name};
use rail_base::route::{Finish, RouteNo, Start};
use rail_base::station::{NodeNo, SignalNo};
use std::alloc::AllocError;

/// Appends words and the name of a node.
fn put_node(
    text: &mut Vec<u8>,
    design: &Design,
    words: &[u8],
    node: NodeNo,
) -> Result<(), AllocError>
    ensures { OnOk result (AddsText text.old text.new (words.now ++ node_name design.now.station node)) }
{
    text.extend_from_slice(words)?;
    text.extend_from_slice(node_name(design, node))?;
    Ok(())
}

/// Appends words and the name of a signal.
fn put_signal(
    text: &mut Vec<u8>,
    design: &Design,
    words: &[u8],
    signal: SignalNo,
) -> Result<(), AllocError>
    ensures { OnOk result (AddsText text.old text.new (words.now ++ signal_name design.now.station signal)) }
{
    text.extend_from_slice(words)?;
    text.extend_from_slice(signal_name(design, signal))?;
    Ok(())
}

/// Appends where a start is.
fn put_start(text: &mut Vec<u8>, design: &Design, start: Start) -> Result<(), AllocError>
    ensures { OnOk result (AddsText text.old text.new (start_text design.now.station start)) }
{
    match start {
        Start::Boundary(node) => put_node(text, design, b"starts at boundary ", node),
        Start::Signal(signal) => put_signal(text, design, b"starts at signal ", signal),
    }
}

/// Appends where an end is.
fn put_finish(text: &mut Vec<u8>, design: &Design, finish: Finish) -> Result<(), AllocError>
    ensures { OnOk result (AddsText text.old text.new (finish_text design.now.station finish)) }
{
    match finish {
        Finish::Exit(node) => put_node(text, design, b"leaves at boundary ", node),
        Finish::Signal(signal) => put_signal(text, design, b"ends at signal ", signal),
        Finish::DeadEnd(node) => {
            put_node(text, design, b"ends where the track does, at node ", node)
        }
    }
}

/// Appends where the route of a number starts.
pub(crate) fn put_starts(
    text: &mut Vec<u8>,
    interlocking: &Interlocking,
    route: RouteNo,
) -> Result<(), AllocError>
    ensures { let i = interlocking.now in
        OnOk result (AddsText text.old text.new (starts_text i.design.station i.routes route)) }
{
    put_start(
        text,
        &interlocking.design,
        start_of(&interlocking.routes, route),
    )
}

/// Appends where the route of a number ends.
pub(crate) fn put_finishes(
    text: &mut Vec<u8>,
    interlocking: &Interlocking,
    route: RouteNo,
) -> Result<(), AllocError>
    ensures { let i = interlocking.now in
        OnOk result (AddsText text.old text.new (finishes_text i.design.station i.routes route)) }
{
    put_finish(
        text,
        &interlocking.design,
        finish_of(&interlocking.routes, route),
    )
}
