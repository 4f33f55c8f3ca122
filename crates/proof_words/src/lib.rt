//! What a proof file says of a design: its cones and bounds in sentences with the names of the design, where it shows
//! that there is no plan.
#![tactic(auto)]

mod explaining;
mod failings;
mod laws;
mod meanings;
mod summary;

pub use explaining::{Explained, explain};
pub use laws::sentences_of_proofs_deny;
