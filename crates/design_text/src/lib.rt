//! The text of a design: its numbers, and then each array that has entries, with a line for each of them. The reader of
//! designs gives the design back.
#![tactic(auto)]

mod entry;
mod field;
mod laws;
mod lines;
mod part;

pub use laws::{texts_are_short, texts_read_back};
pub use lines::design_lines;
