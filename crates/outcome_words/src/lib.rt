//! What a run shows of a plan, in words with the names of the design: what came of each requirement, and by how much;
//! and where each train waits, for how long, and for whose release of what; and where it stands, and for how long.
//! Wherever a call answers with an error, it is want of memory.
#![tactic(auto)]

mod laws;
mod outcome;
mod requirements;
mod run;
mod stands;
mod visits;
mod waiting;
mod waits;

pub use laws::{outcomes_are_so, waits_are_so};
pub use outcome::push_outcome;
