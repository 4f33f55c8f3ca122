//! The types of a railway design, of its routes, of plans and of what a run of a plan gives.
//!
//! Distances are in mm, speeds in mm/s, times in ms. A tick is the one step of a run; its length is the design's.
#![tactic(auto)]

pub mod design;
pub mod history;
pub mod list;
pub mod names;
pub mod plan;
pub mod route;
pub mod state;
pub mod station;
