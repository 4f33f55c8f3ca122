//! Which routes can keep a train from a section of another.
#![tactic(auto)]

mod chains;
mod keeping;
mod onward;

pub use keeping::keepers;
