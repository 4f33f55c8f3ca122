//! Plans that run alike, and the normal plan of each that is feasible.
#![tactic(auto)]

pub mod laws;
