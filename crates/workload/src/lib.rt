//! Stations that are made from numbers, for trials.
#![tactic(auto)]

mod design;
mod draws;
mod edges;
mod names;
mod nodes;
mod traffic;

pub use design::make;
