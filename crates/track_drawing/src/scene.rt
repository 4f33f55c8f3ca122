//! The track as it is laid out, and what is known of its nodes.

use drawing::Point;
use rail_base::list::Name;
use rail_base::station::{End, NodeNo, Side, Station};
use std::alloc::{AllocError, Global};
use track_layout::Layout;

/// What ends at a node.
#[derive(Clone, Copy, Debug, PartialEq, Eq)]
pub(crate) struct NodeEnds {
    /// How many edges end at its left side.
    pub(crate) left: usize,
    /// How many edges end at its right side.
    pub(crate) right: usize,
    /// The section of the first edge there.
    section: Option<u32>,
    /// Whether an edge there is of another section.
    pub(crate) ends_section: bool,
}

/// The layout of a station, and what ends at its nodes.
#[derive(Drop)]
pub(crate) struct Scene {
    pub(crate) layout: Layout,
    pub(crate) ends: Vec<NodeEnds>,
}

/// The index of a node, counted from 0.
pub(crate) fn index_of(node: NodeNo) -> usize {
    (node.0 as usize).saturating_sub(1)
}

/// The name of a section; none where there is no such section.
pub(crate) fn section_name(sections: &[Name], section: u32) -> &[u8] {
    match sections.get((section as usize).saturating_sub(1)) {
        Some(name) => name.as_bytes(),
        None => b"",
    }
}

impl Scene {
    /// The scene of a layout. The error is want of memory.
    pub(crate) fn new(
        alloc: Global,
        station: &Station,
        layout: Layout,
    ) -> Result<Scene, AllocError> {
        let none = NodeEnds {
            left: 0,
            right: 0,
            section: None,
            ends_section: false,
        };
        let mut scene = Scene {
            layout,
            ends: vec![in alloc; none; station.nodes.len()]?,
        };
        for edge in station.edges.as_slice() {
            scene.add(edge.from, edge.section.0);
            scene.add(edge.to, edge.section.0);
        }
        Ok(scene)
    }

    /// Adds an end of an edge of a section.
    fn add(&mut self, end: End, section: u32) {
        let is_right = self.is_right(end.node, end.side);
        if let Some(at) = self.ends.get_mut(index_of(end.node)) {
            if is_right {
                at.right = at.right.saturating_add(1);
            } else {
                at.left = at.left.saturating_add(1);
            }
            match at.section {
                Some(first) => at.ends_section = at.ends_section || first != section,
                None => at.section = Some(section),
            }
        }
    }

    /// Where a node lies.
    pub(crate) fn point(&self, node: usize) -> Point {
        match self.layout.points.as_slice().get(node) {
            Some(point) => *point,
            None => Point { x: 0, y: 0 },
        }
    }

    /// Whether a side of a node leads to the right.
    pub(crate) fn is_right(&self, node: NodeNo, side: Side) -> bool {
        match self.layout.nodes.as_slice().get(index_of(node)) {
            Some(place) => place.right == side,
            None => side == Side::B,
        }
    }

    /// What ends at a node.
    pub(crate) fn ends_at(&self, node: usize) -> NodeEnds {
        match self.ends.get(node) {
            Some(ends) => *ends,
            None => NodeEnds {
                left: 0,
                right: 0,
                section: None,
                ends_section: false,
            },
        }
    }
}

impl NodeEnds {
    /// Whether no train can pass: two edges end at one side, and none at the other.
    pub(crate) fn is_broken(self) -> bool {
        (self.left == 0 && self.right >= 2) || (self.right == 0 && self.left >= 2)
    }

    /// Whether the track ends there.
    pub(crate) fn is_end(self) -> bool {
        self.left == 0 || self.right == 0
    }

    /// Whether more than two edges end there.
    pub(crate) fn is_points(self) -> bool {
        self.left.saturating_add(self.right) > 2
    }
}

/// A place so far to the right, or to the left.
pub(crate) fn beside(x: u64, right: bool, px: u64) -> u64 {
    if right {
        x.saturating_add(px)
    } else {
        x.saturating_sub(px)
    }
}
