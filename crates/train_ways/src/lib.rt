//! The ways of trains: whether a train has one, the shortest, its live routes, and how many steps any plan needs.
#![tactic(auto)]

mod onward;
mod pairs;
mod reached;
mod steps;
mod visits;
mod ways;

pub use onward::OnwardRoutes;
pub use visits::made_behind;
