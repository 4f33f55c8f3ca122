//! The picture of a track: its edges with their sections by colour, its nodes, its boundaries and its signals, each
//! with its name.
//!
//! Proved of it: the line of each edge joins its two nodes and has the colour of its section's name alone, no two flat
//! parts of lines lie over one another, each name stands once at its mark or in the list below, and no name at a mark meets
//! another one.
#![tactic(auto)]

mod crossings;
mod edges;
mod names;
mod nodes;
mod picture;
mod room;
mod scene;
mod signals;
mod spots;
mod titles;

pub use picture::track_picture;
