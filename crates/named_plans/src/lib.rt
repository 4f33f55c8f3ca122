//! Plans in which each route is the list of the names by which it is shown: written, and turned into plans with
//! numbers.
#![tactic(auto)]

pub mod laws;
mod numbering;
mod shape;
mod values;
mod writing;

pub use numbering::numbered_text;
pub use writing::named_lines;
