//! The plan that values of a base's variables give.
#![tactic(auto)]

mod decoding;
mod laws;

pub use decoding::decode;
pub use laws::live_clauses_are_true;
