//! Whether certificates of lower bounds show what they say: the ticks that chains of trains take at the least.
//!
//! Places and lengths are in mm from the start of a walk.
#![tactic(auto)]

mod ahead;
mod chain;
mod claim;
mod failure;
mod legs;
mod requirement;
mod stretches;
mod walks;

pub use failure::shows_failure;
pub use legs::Ride;
pub use requirement::{visit_from, visit_to};
pub use stretches::{stretches_of, ticks_followed};
pub use walks::first_routes;
