//! The words of the command line of `rcv_why`: those of `rcv check` without its name, of which the steps and, where no
//! greatest time is put into a within, the proof may be left out.
#![tactic(auto)]

mod laws;
mod wanted;

pub use laws::{
    name_is_read, names_are_read, steps_are_read, time_and_steps_are_read, time_is_read,
};
pub use wanted::{Wanted, check_words, read_wanted, words_with_proof};
