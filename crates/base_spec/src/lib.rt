//! Which clauses each base has, over which variables, and that every feasible plan has values for them.
#![tactic(auto)]

pub mod laws;
