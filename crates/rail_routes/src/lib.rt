//! The elementary routes of a design.
//!
//! They are found depth first from each start in file order, by a stack of the edges that are still to be tried.
#![tactic(auto)]

mod fault;
pub mod laws;
mod overlap;
mod path;
mod route;
mod search;
mod starts;
mod table;
mod track;

pub use fault::RouteFault;
pub use table::interlocking;
