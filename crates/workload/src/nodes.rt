//! The nodes of the station, their numbers, and the signals at them.

ghost use Rattle.std.specs.Prelude.{◌≡◌, ◌≤◌, ◌-◌, ◌∷◌, [], ◌++◌, flat_map, false, true, IfOk, OnOk, codes};
ghost use Rattle.rail_base.specs.Numbering.{one_to};
ghost use Rattle.workload.specs.Track.{inner, nodes, left_node, right, fork, join, signals_of, signals, numbered_name};
ghost use Rattle.workload.specs.Track.{boundaries, inner_pair, signal};

use crate::names::{numbered_name, plain};
use rail_base::list::List;
use rail_base::station::{Node, NodeNo, Side, Signal};
use std::alloc::{AllocError, Global};

/// The boundary in the west.
pub const WEST: NodeNo = NodeNo(1);

/// The boundary in the east.
pub const EAST: NodeNo = NodeNo(2);

/// The west end of a track.
pub fn left_node(track: u32) -> NodeNo
    requires { track ≤ 7 }
    ensures { result.0 ≡ left_node track }
{
    NodeNo(2 * track + 1)
}

/// The east end of a track.
pub fn right(track: u32) -> NodeNo
    requires { track ≤ 7 }
    ensures { result.0 ≡ right track }
{
    NodeNo(2 * track + 2)
}

/// Where the way from the west reaches a track: at its switch, or at the end of the last track.
pub fn fork(size: u32, track: u32) -> NodeNo
    requires size { size ≤ 6 }
    requires track { track ≤ 7 }
    ensures { result.0 ≡ fork size track }
{
    if track < size {
        NodeNo(2 * size + 2 * track + 1)
    } else {
        left_node(track)
    }
}

/// Where the way to the east leaves a track: at its switch, or at the end of the last track.
pub fn join(size: u32, track: u32) -> NodeNo
    requires size { size ≤ 6 }
    requires track { track ≤ 7 }
    ensures { result.0 ≡ join size track }
{
    if track < size {
        NodeNo(2 * size + 2 * track + 2)
    } else {
        right(track)
    }
}

/// The nodes in the order of their numbers.
pub fn nodes(alloc: Global, size: u32) -> Result<List<Node>, AllocError>
    requires at_least_one { 1 ≤ size }
    requires at_most_six { size ≤ 6 }
    ensures { IfOk result (λ all. all ≡ nodes size) }
{
    let mut nodes = boundaries(alloc)?;
    push_inner_pairs(alloc, &mut nodes, b"l", b"r", size)?;
    push_inner_pairs(alloc, &mut nodes, b"p", b"q", size - 1)?;
    Ok(List::from_vec(nodes))
}

/// The signals of all tracks.
pub fn signals(alloc: Global, size: u32) -> Result<List<Signal>, AllocError>
    requires { size ≤ 6 }
    ensures { IfOk result (λ all. all ≡ signals size) }
{
    let mut signals = Vec::new(alloc);
    for track in 1..size + 1 {
        push_signal(alloc, &mut signals, b"re", track, right(track), Side::B)?;
        push_signal(alloc, &mut signals, b"lw", track, left_node(track), Side::A)?;
    }
    Ok(List::from_vec(signals))
}

/// Adds a node inside the station.
fn push_inner(
    alloc: Global,
    nodes: &mut Vec<Node>,
    letters: &[u8],
    number: u32,
) -> Result<(), AllocError>
    ensures { OnOk result (nodes.new.items ≡ nodes.old.items ++ inner letters.now number ∷ []) }
{
    nodes.push(Node {
        name: numbered_name(alloc, letters, number)?,
        boundary: false,
    })?;
    Ok(())
}

/// Adds two nodes for each of so many tracks, with these letters.
fn push_inner_pairs(
    alloc: Global,
    nodes: &mut Vec<Node>,
    first: &[u8],
    second: &[u8],
    tracks: u32,
) -> Result<(), AllocError>
    requires { tracks ≤ 6 }
    ensures { OnOk result (nodes.new.items
        ≡ nodes.old.items ++ flat_map (inner_pair first.now second.now) (one_to tracks)) }
{
    for track in 1..tracks + 1 {
        push_inner(alloc, nodes, first, track)?;
        push_inner(alloc, nodes, second, track)?;
    }
    Ok(())
}

/// The two boundaries.
fn boundaries(alloc: Global) -> Result<Vec<Node>, AllocError>
    ensures { IfOk result (λ both. both.items ≡ boundaries) }
{
    let west = Node {
        name: plain(alloc, b"w")?,
        boundary: true,
    };
    let east = Node {
        name: plain(alloc, b"e")?,
        boundary: true,
    };
    Ok(vec![in alloc; west, east]?)
}

/// Adds a signal with these letters and the number of its track.
fn push_signal(
    alloc: Global,
    signals: &mut Vec<Signal>,
    letters: &[u8],
    track: u32,
    node: NodeNo,
    toward: Side,
) -> Result<(), AllocError>
    ensures { OnOk result (signals.new.items ≡ signals.old.items ++ signal letters.now track node toward ∷ []) }
{
    signals.push(Signal {
        name: numbered_name(alloc, letters, track)?,
        node,
        toward,
    })?;
    Ok(())
}
