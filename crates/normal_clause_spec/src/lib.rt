//! The clauses that the model of each normal plan makes true.
#![tactic(auto)]

pub mod laws;
