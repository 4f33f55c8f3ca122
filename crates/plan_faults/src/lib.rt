//! Why a plan is refused: the reason for which a train's command is not right after those before it, and the command that
//! keeps another from a section, with how much track its train lacks. Wherever a call answers with an error, it is want
//! of memory.
#![tactic(auto)]

mod between;
mod commands;
mod keepers;
mod laws;
mod reasons;
mod routes;

pub use between::{lacking_mm, wanted_mm};
pub use commands::{command_number, given_in, step_at};
pub use keepers::keeper;
pub use laws::{blocked_commands_have_keepers, misplaced_commands_have_reasons};
pub use reasons::{Reason, reason_in};
pub use routes::{finish_of, start_of};
