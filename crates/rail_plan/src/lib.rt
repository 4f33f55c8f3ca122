//! Plans: reading them, the paths and the order that they give, and whether they can be carried out.
#![tactic(auto)]

pub mod clearance;
pub mod fault;
pub mod formed;
mod holds;
pub mod laws;
mod names;
pub mod normal;
pub mod paths;
pub mod place;
pub mod reading;
mod text;
