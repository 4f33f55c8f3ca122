//! The clauses that the model of every feasible plan makes true, and what they say.
#![tactic(auto)]

pub mod laws;
mod question;

pub use question::{BaseKind, Question, Turns, VariableCounts};
