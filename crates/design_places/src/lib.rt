//! Where the place that a design's refusal names stands in the design's text.
#![tactic(auto)]

mod places;
mod shown;

pub use places::place_in;
pub use shown::{push_place, push_spot};
