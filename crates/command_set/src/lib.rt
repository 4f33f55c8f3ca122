//! The commands that a base speaks of: all commands of a design, or the live ones alone.
#![tactic(auto)]

pub mod laws;
mod likeness;
mod lookup;
mod places;
mod rows;
mod set;

pub use places::place_in_row;
pub use set::CommandSet;
