//! Runs of plans, tick by tick, and their verdicts.
#![tactic(auto)]

mod histories;
mod marks;
mod moves;
mod pairs;
mod ride;
mod verdicts;

pub use verdicts::simulate;
