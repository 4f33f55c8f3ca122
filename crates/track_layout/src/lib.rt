//! Where the track of a design is drawn.
//!
//! Each node has a left and a right side, by breadth first from the first boundary of its piece of track; an edge that
//! joins two sides that look alike, or closes a circle, is a turn. Of the legs of points those go straight on that are
//! the fastest and do not turn off at their other end. The heaviest path of edges that go straight on into one another is
//! a track, then the heaviest of those that are left, and so on. A track that begins and ends on two others, with no
//! signal inside, is a crossover: a sloping line between the two. All others are laid in rows, where they cross the least.
//!
//! Each node has a place along its piece, so that each edge is as long as it says as far as that can be, and a column
//! with the nodes at its place. All numbers are whole and all orders total: one design, one layout.
//!
//! Proved of a layout: the line of each edge begins at the point of its one node and ends at that of the other, and no
//! two flat parts of lines lie over one another. Nothing is claimed of how straight and short the lines are.
#![tactic(auto)]

mod bends;
mod ends;
mod graph;
mod layout;
mod levels;
mod lines;
mod paths;
mod place;
mod places;
mod rods;
mod rows;
mod sheet;
mod sides;
mod spread;
mod straight;
mod tracks;
mod widths;

pub use layout::layout_of;
pub use levels::{Spread, drawn_levels};
pub use lines::points_of;
pub use place::{EdgePlace, Flat, Layout, NodePlace, Track};
pub use widths::name_width;
