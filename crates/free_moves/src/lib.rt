//! The least ticks that a train takes on a walk, however other trains move.
//!
//! Places and lengths are in mm from the start of the walk, and speeds in mm per tick.
#![tactic(auto)]

mod following;
mod gains;
mod legs;
mod moves;
mod steps;
mod ticks;
mod trips;

pub use following::goes_further;
pub use ticks::{on_ticks, run_ticks};
