//! Whether a clause follows from live ones by its hints.
#![tactic(auto)]

mod assigned;
mod check;
mod marks;

pub use check::{Marks, follows};
pub use sat_clause::Follow;
