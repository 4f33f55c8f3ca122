//! Which edges end at which side of a node, and lists that are asked with care.

use rail_base::station::{Edge, Node, NodeNo, Side};
use std::alloc::{AllocError, Global};

/// At most two edges, those that end at one side of a node, in file order.
#[derive(Clone, Copy, Debug, PartialEq, Eq)]
pub(crate) struct Pair {
    pub(crate) first: Option<usize>,
    pub(crate) second: Option<usize>,
}

impl Pair {
    /// No edge.
    pub(crate) fn none() -> Pair {
        Pair {
            first: None,
            second: None,
        }
    }

    /// The same edges and one more, where there is room.
    pub(crate) fn with(self, edge: usize) -> Pair {
        if self.first.is_none() {
            Pair {
                first: Some(edge),
                second: self.second,
            }
        } else {
            Pair {
                first: self.first,
                second: Some(edge),
            }
        }
    }

    /// The same edges without one.
    pub(crate) fn without(self, edge: usize) -> Pair {
        if self.first == Some(edge) {
            Pair {
                first: self.second,
                second: None,
            }
        } else if self.second == Some(edge) {
            Pair {
                first: self.first,
                second: None,
            }
        } else {
            self
        }
    }

    /// How many there are.
    pub(crate) fn len(self) -> usize {
        if self.first.is_none() {
            0
        } else if self.second.is_none() {
            1
        } else {
            2
        }
    }

    /// Both places.
    pub(crate) fn both(self) -> [Option<usize>; 2] {
        [self.first, self.second]
    }
}

/// The edges that end at each side of a node.
#[derive(Clone, Copy, Debug, PartialEq, Eq)]
pub(crate) struct Ends {
    pub(crate) a: Pair,
    pub(crate) b: Pair,
}

impl Ends {
    /// The edges at a side.
    pub(crate) fn at(self, side: Side) -> Pair {
        match side {
            Side::A => self.a,
            Side::B => self.b,
        }
    }

    /// The same edges and one more at a side.
    fn with(self, side: Side, edge: usize) -> Ends {
        match side {
            Side::A => Ends {
                a: self.a.with(edge),
                b: self.b,
            },
            Side::B => Ends {
                a: self.a,
                b: self.b.with(edge),
            },
        }
    }
}

/// The index of a node, counted from 0.
pub(crate) fn index_of(node: NodeNo) -> usize {
    (node.0 as usize).saturating_sub(1)
}

/// The other side.
pub(crate) fn other_side(side: Side) -> Side {
    match side {
        Side::A => Side::B,
        Side::B => Side::A,
    }
}

/// The number at an index; 0 where the list is shorter.
pub(crate) fn number_at(numbers: &[usize], index: usize) -> usize {
    numbers.get(index).copied().unwrap_or(0)
}

/// The length at an index; 0 where the list is shorter.
pub(crate) fn length_at(lengths: &[u64], index: usize) -> u64 {
    lengths.get(index).copied().unwrap_or(0)
}

/// The number at an index, if there is one.
pub(crate) fn entry_at(entries: &[Option<usize>], index: usize) -> Option<usize> {
    match entries.get(index) {
        Some(entry) => *entry,
        None => None,
    }
}

/// Whether the flag at an index is set.
pub(crate) fn is_set(flags: &[bool], index: usize) -> bool {
    flags.get(index).copied().unwrap_or(false)
}

/// Sets what stands at an index, where there is one.
pub(crate) fn set_at<T: Copy>(items: &mut [T], index: usize, item: T) {
    if let Some(place) = items.get_mut(index) {
        *place = item;
    }
}

/// The edges at each node.
pub(crate) fn ends_of(
    alloc: Global,
    nodes: &[Node],
    edges: &[Edge],
) -> Result<Vec<Ends>, AllocError> {
    let none = Ends {
        a: Pair::none(),
        b: Pair::none(),
    };
    let mut ends = vec![in alloc; none; nodes.len()]?;
    for (index, edge) in edges.iter().enumerate() {
        for end in [edge.from, edge.to] {
            let node = index_of(end.node);
            if let Some(at) = ends.get(node).copied() {
                set_at(ends.as_mut_slice(), node, at.with(end.side, index));
            }
        }
    }
    Ok(ends)
}
