//! How many steps can be asked for over a design, in words. Wherever a call answers with an error, it is want of
//! memory.
#![tactic(auto)]

mod counting;
mod greatest;
pub mod laws;
mod lines;

pub use lines::limit_lines;
