//! What a proof file shows of a design.
#![tactic(auto)]

mod evidence;
mod judging;
mod laws;

pub use evidence::{ByDesign, EvidenceLine};
pub use judging::judge;
pub use laws::yes_is_infeasible;
