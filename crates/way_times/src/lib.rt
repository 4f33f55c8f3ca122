//! How long a train takes from one visit to another where nothing is in its way. Wherever a call answers with an error,
//! it is want of memory.
#![tactic(auto)]

mod alone;
mod least;

pub use least::least_alone;
