//! Designs with another greatest time in one of their withins, and what stays the same there.
#![tactic(auto)]

mod changed;
pub mod laws;

pub use changed::with_max_ms;
