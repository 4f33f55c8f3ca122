//! The ways of trains: by which routes in a row a train makes its visits, and what that says of plans.
#![tactic(auto)]

pub mod laws;
