//! Trains that are alike: of one vehicle, with the same visits and dwell times, and with orders and withins that stay
//! as they are where the two are exchanged. Plans in which they are exchanged, and plans in which they come in turn.
#![tactic(auto)]

pub mod laws;
mod likeness;
mod pairs;

pub use likeness::are_alike;
pub use pairs::{neighbors, neighbors_beside};
