//! The laws of the definitions of a railway.
#![tactic(auto)]

pub mod dwells;
pub mod laws;
pub mod overlaps;
