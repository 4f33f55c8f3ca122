//! The words of the command line, read by a fixed `clap` command.
#![tactic(auto)]

mod command;
mod laws;
mod request;

pub use laws::{
    any_is_read, bounds_are_read, check_in_time_is_read, check_is_read, normal_is_read,
    others_are_quiet, progress_is_read, requests_are_in_range, routes_is_read, silence_has_a_cause,
    simulate_is_read, tightest_bounds_are_read, tightest_is_read, tightest_progress_is_read,
    trial_is_read, verify_is_read,
};
pub use request::{
    Asked, InTime, Request, SearchMode, WordsFault, read_asked, read_in_time, read_words,
};
