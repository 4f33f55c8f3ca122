//! Sets of numbers.
#![tactic(auto)]

mod set;

pub use set::NumberSet;
