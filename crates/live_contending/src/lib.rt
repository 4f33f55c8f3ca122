//! The pairs of a set's commands that contend. None is kept: the place of each follows from the routes that share a
//! section.
#![tactic(auto)]

mod pairs;
mod places;
mod rivals;
mod rows;
mod sharing;
mod starts;

pub use pairs::ContendingPairs;
pub use rows::row_of;
