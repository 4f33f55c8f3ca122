//! What the commands of a plan wait for, found by queues of commands by section.
#![tactic(auto)]

mod enter;
mod lists;
mod planned;
mod sections;
mod turns;
mod waits;

pub use planned::journeys;
