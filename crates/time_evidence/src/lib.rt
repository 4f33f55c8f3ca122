//! What stays shown where the greatest time of a within is smaller.
#![tactic(auto)]

pub mod laws;
