//! The text of a search: a proof file to which a line is added for each clause that is derived, and for each plan that
//! failed.
#![tactic(auto)]

mod laws;
mod text;

pub use laws::{denials_are_so, ended_runs_are_accepted};
pub use text::Text;
