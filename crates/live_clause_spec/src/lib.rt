//! The clauses over live commands alone: those that stand on a way of their train.
#![tactic(auto)]

pub mod laws;
