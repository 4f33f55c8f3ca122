//! Assigned literals in order, and why a clause that is false follows from what was decided.
#![tactic(auto)]

mod assigned;
mod entry;
mod needed;
mod pace;
mod pair;
mod scan;
mod settled;
mod status;
mod step;
mod trail;
mod walk;
mod watch;

pub use pace::{Pace, Parts};
pub use step::Step;
pub use trail::Trail;
pub use walk::{Learnt, analyze, analyze_final, refute_choice};
