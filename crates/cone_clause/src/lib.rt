//! The clause of a cone over the variables of a base, which speaks of all commands or of some.
#![tactic(auto)]

mod contention;
pub mod laws;
mod listing;
mod numbered;
mod onward;
mod pairs;
mod places;
mod signs;
mod used;
mod variables;

pub use crate::contention::Contention;
pub use crate::listing::clause_of;
