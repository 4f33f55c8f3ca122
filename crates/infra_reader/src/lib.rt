//! The reader of designs: the station that is parsed from a document, or the first refusal.
//!
//! Codes are asked in ascending order, each at its places in the order of the walk: the top keys in order, at an
//! array the array itself, then its entries, each with its keys in order. So the first place that is met is
//! that of the lowest code.
#![tactic(auto)]

mod design;
pub mod laws;
mod limits;
mod names;
mod resolve;
mod rules;
mod walk;

pub use design::read_design;
