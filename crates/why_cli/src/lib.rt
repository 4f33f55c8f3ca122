//! What `rcv_why` does: from the words of a command line, over a shelf of files, to what is printed: of a design what is
//! wrong with it, or what it asks for; of a plan what is wrong with it, or what its run shows; of a proof the sentences
//! about its cones and bounds, or what a check of the files answers where it is not yes.
#![tactic(auto)]

mod admitting;
mod designs;
mod explaining;
mod heads;
mod laws;
mod plans;
mod replying;
mod run;

pub use laws::{
    explains_where_yes, heads_name_steps, no_steps_is_usage, refuses_as_check, says_digests,
    silence_is_usage,
};
pub use run::run_why;
