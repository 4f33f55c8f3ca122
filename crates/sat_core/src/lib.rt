//! A solver of clauses under assumptions. It learns clauses, and a recorder keeps each one with the reason why it
//! follows.
#![tactic(auto)]

mod assignment;
mod attaching;
mod keep;
mod list_recorder;
mod order;
mod recorder;
mod restarts;
mod round;
mod round_end;
mod solver;
mod spans;
mod targets;
mod units;

pub use assignment::Assignment;
pub use list_recorder::{Line, ListRecorder};
pub use recorder::{RecordFault, Recorder};
pub use solver::{Answer, Core, Solver};
