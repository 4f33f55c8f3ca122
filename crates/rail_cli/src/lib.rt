//! The commands of `rcv`: from the words of a command line, over a shelf of files, to the lines that are printed and
//! the status to end with. The steps that all programs share stand in `cli_shell`, and checks of proofs in
//! `proof_shell`.
#![tactic(auto)]

mod laws;
mod least;
mod reliable;
mod run;
mod searching;
mod texts;
mod trial;

pub use laws::{stored_proofs_pass, stored_times_pass};
pub use reliable::run_words_reliably;
pub use run::{run_watched, run_words};
