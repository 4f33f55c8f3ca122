//! Proofs, as the programs check them: the clauses of a design, and what the file of a proof shows.
#![tactic(auto)]

mod checking;
mod texts;

pub use checking::{check_reply, encode, make_reply, timed};
