//! Whether a proof file shows that there is no plan, from the clauses of a base, of cones and of bounds alone.
#![tactic(auto)]

mod check_result;
mod database;
mod judge;
mod laws;
mod line;
mod refuter;

pub use check_result::{CheckResult, Reason};
pub use judge::{head_in, judge_log};
pub use laws::check_is_sound;
pub use refuter::{RefuteFault, Refuter};
