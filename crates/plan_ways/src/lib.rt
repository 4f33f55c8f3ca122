//! The ways that a plan can give a train, each once. Wherever a call answers with an error, it is want of memory.
#![tactic(auto)]

mod paths;
mod routes;
mod ways;

pub use ways::plan_ways;
