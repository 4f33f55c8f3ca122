//! Replies that are made of files by their names: where a file cannot be read, a line says so by its name.
#![tactic(auto)]

mod fetching;
mod reporting;
mod unmade;

pub use fetching::fetch_named;
pub use reporting::report;
pub use unmade::{Unmade, unmade_by};
