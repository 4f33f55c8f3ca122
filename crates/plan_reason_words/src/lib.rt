//! Why a plan is refused, in words: the train or the route that is not there, the reason against a train's command in a
//! step, or the command that keeps a train from a section and how much track its train lacks. Wherever a call answers
//! with an error, it is want of memory.
#![tactic(auto)]

mod ends;
mod kept;
mod laws;
mod names;
mod numbers;
mod pieces;
mod reason_lines;
mod unknown;

pub use kept::push_kept;
pub use laws::{keepers_are_so, reasons_are_so, steps_are_too_many, unknown_commands_are_there};
pub use reason_lines::push_reason;
pub use unknown::push_unknown;
