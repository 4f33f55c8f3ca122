//! The titles of marks: what is said of one where a reader points at it.

use crate::scene::{NodeEnds, section_name};
use rail_base::list::Name;
use rail_base::station::{Edge, Node, Overlap, Signal};
use rail_text::put_number;
use std::alloc::{AllocError, Global};

/// Appends a length, in m.
fn put_metres(title: &mut Vec<u8>, length_mm: u32) -> Result<(), AllocError> {
    put_number(title, u64::from(length_mm / 1000))?;
    let rest = length_mm % 1000;
    if rest > 0 {
        title.push(b'.')?;
        put_number(title, u64::from(rest / 100))?;
        put_number(title, u64::from(rest / 10 % 10))?;
        put_number(title, u64::from(rest % 10))?;
    }
    title.extend_from_slice(b" m")
}

/// Appends a speed, in km/h.
fn put_speed(title: &mut Vec<u8>, speed_mm_s: u32) -> Result<(), AllocError> {
    let speed = u64::from(speed_mm_s) * 36 + 5000;
    put_number(title, speed / 10_000)?;
    title.extend_from_slice(b" km/h")
}

/// What is said of an edge: its name, length, speed limit and section.
pub(crate) fn edge_title(
    alloc: Global,
    edge: Option<&Edge>,
    sections: &[Name],
) -> Result<Vec<u8>, AllocError> {
    let mut title = Vec::new(alloc);
    if let Some(edge) = edge {
        title.extend_from_slice(edge.name.as_bytes())?;
        title.extend_from_slice(b": ")?;
        put_metres(&mut title, edge.length_mm)?;
        title.extend_from_slice(b", ")?;
        put_speed(&mut title, edge.speed_mm_s)?;
        title.extend_from_slice(b", section ")?;
        title.extend_from_slice(section_name(sections, edge.section.0))?;
    }
    Ok(title)
}

/// What is said of two tracks that share a section.
pub(crate) fn crossing_title(alloc: Global, section: &[u8]) -> Result<Vec<u8>, AllocError> {
    let mut title = Vec::from_slice(alloc, b"two tracks share section ")?;
    title.extend_from_slice(section)?;
    Ok(title)
}

/// What is said of a node: what it is, and its name.
pub(crate) fn node_title(
    alloc: Global,
    node: &Node,
    ends: NodeEnds,
) -> Result<Vec<u8>, AllocError> {
    let before: &[u8] = if node.boundary {
        b"boundary "
    } else if ends.is_broken() {
        b""
    } else if ends.is_end() {
        b"dead end "
    } else if ends.is_points() {
        b"points "
    } else {
        b""
    };
    let after: &[u8] = if node.boundary {
        b""
    } else if ends.is_broken() {
        b": no train can pass"
    } else if ends.is_end() || ends.is_points() || !ends.ends_section {
        b""
    } else {
        b": here a section ends"
    };
    let mut title = Vec::from_slice(alloc, before)?;
    title.extend_from_slice(node.name.as_bytes())?;
    title.extend_from_slice(after)?;
    Ok(title)
}

/// What is said of a signal: its name, its direction, and the overlap behind it.
pub(crate) fn signal_title(
    alloc: Global,
    signal: &Signal,
    is_right: bool,
    overlap: Option<&Overlap>,
    sections: &[Name],
) -> Result<Vec<u8>, AllocError> {
    let mut title = Vec::from_slice(alloc, b"signal ")?;
    title.extend_from_slice(signal.name.as_bytes())?;
    title.extend_from_slice(if is_right {
        b", for trains to the right"
    } else {
        b", for trains to the left"
    })?;
    if let Some(overlap) = overlap {
        title.extend_from_slice(b"; overlap:")?;
        for section in overlap.sections.as_slice() {
            title.push(b' ')?;
            title.extend_from_slice(section_name(sections, section.0))?;
        }
        title.extend_from_slice(b", held ")?;
        put_number(&mut title, u64::from(overlap.hold_ms))?;
        title.extend_from_slice(b" ms")?;
    }
    Ok(title)
}
