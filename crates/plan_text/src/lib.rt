//! Plans as text: compact JSON, in which the trains of each step stand in file order.
#![tactic(auto)]

pub mod laws;
mod values;
pub mod writing;
