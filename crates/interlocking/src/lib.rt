//! A design with its elementary routes, and numbers of steps.
#![tactic(auto)]

mod railway;
mod routes;
mod sets;
mod steps;
mod track;

pub use railway::Interlocking;
pub use steps::Steps;
pub use track::{end_at_one_signal, goes_on, has_node, starts_in};
