//! Graphs of numbered nodes: in how few steps one comes from some of them to each other.
#![tactic(auto)]

mod back;
mod steps;

pub use back::turned_back;
pub use steps::least_steps;
