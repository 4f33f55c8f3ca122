//! A recorder that wants memory at chosen calls, to try what a solver does when a line is not recorded.
#![tactic(auto)]

mod halting;

pub use halting::Halting;
