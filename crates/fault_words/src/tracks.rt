//! The track of a sheet, by names. An error is want of memory.

ghost use Rattle.std.specs.Prelude.{◌≡◌, ◌++◌, ◌&&◌, ◌∷◌, [], bytes_eq, if◌then◌else◌, length, IfOk, OnOk};
ghost use Rattle.design_table.specs.Texts.{texts};
ghost use Rattle.design_table.specs.Parsed.{edge_seen, sheet_seen, signal_seen};
ghost use Rattle.fault_words.specs.Tracks.{edges_at, ends_at, inner_node, is_boundary, is_side, name_at, signal_beside};
ghost use Rattle.fault_words.specs.Tracks.{visits_of};

use design_table::{EdgeEntry, Sheet, Side};
use std::alloc::{AllocError, Global};

/// Appends an edge's name, where an end of it is at this side of the node.
fn push_name<'a>(names: &mut Vec<&'a str>, is_there: bool, name: &'a str) -> Result<(), AllocError>
    ensures { OnOk result (texts names.new.items
        ≡ texts names.old.items ++ (if is_there then name.now ∷ [] else [])) }
{
    if is_there {
        names.push(name)?;
    }
    Ok(())
}

/// Whether an end is at this side of the node.
fn is_at(end: &str, end_side: Side, node: &str, side: Side) -> bool
    ensures { result ≡ (bytes_eq end.now node.now && is_side end_side side) }
{
    end == node && end_side == side
}

/// Appends an edge's name for each end of it that is at this side of the node.
fn push_ends<'a>(
    names: &mut Vec<&'a str>,
    edge: &EdgeEntry<'a>,
    node: &str,
    side: Side,
) -> Result<(), AllocError>
    ensures { OnOk result (texts names.new.items
        ≡ texts names.old.items ++ ends_at node.now side (edge_seen edge.now)) }
{
    push_name(
        names,
        is_at(edge.from, edge.from_side, node, side),
        edge.name,
    )?;
    push_name(names, is_at(edge.to, edge.to_side, node, side), edge.name)?;
    Ok(())
}

/// The edges at a side of the node of this name.
pub(crate) fn edges_at<'a>(
    alloc: Global,
    sheet: &Sheet<'a>,
    node: &str,
    side: Side,
) -> Result<Vec<&'a str>, AllocError>
    ensures { IfOk result (λ names. texts names.items ≡ edges_at (sheet_seen sheet.now) node.now side) }
{
    let mut names = Vec::new(alloc);
    for edge in sheet.edges.as_slice() {
        push_ends(&mut names, edge, node, side)?;
    }
    Ok(names)
}

/// Whether a boundary has this name.
pub(crate) fn is_boundary(sheet: &Sheet, name: &str) -> bool
    ensures { result ≡ is_boundary (sheet_seen sheet.now) name.now }
{
    for node in sheet.nodes.as_slice() {
        if node.name == name && node.boundary {
            return true;
        }
    }
    false
}

/// The first signal at this node for this side.
pub(crate) fn signal_beside<'a>(sheet: &Sheet<'a>, node: &str, side: Side) -> &'a str
    ensures { result.now ≡ signal_beside (sheet_seen sheet.now) node.now side }
{
    for signal in sheet.signals.as_slice() {
        if is_at(signal.node, signal.toward, node, side) {
            return signal.name;
        }
    }
    ""
}

/// The first of these names that is no boundary's.
pub(crate) fn inner_node<'a>(sheet: &Sheet, names: &[&'a str]) -> &'a str
    ensures { result.now ≡ inner_node (sheet_seen sheet.now) (texts names.now) }
{
    for name in names {
        if !is_boundary(sheet, name) {
            return name;
        }
    }
    ""
}

/// How many visits the train of this name has.
pub(crate) fn visits_of(sheet: &Sheet, name: &str) -> usize
    ensures { result ≡ visits_of (sheet_seen sheet.now) name.now }
{
    for train in sheet.trains.as_slice() {
        if train.name == name {
            return train.visits.len();
        }
    }
    0
}
