//! Chains of commands of a plan that fails, each of which waits for what another train releases, and cones from which
//! the ticks of a chain may be counted.
//!
//! Of chains, links and their ticks nothing is claimed: whether a bound that is made of them holds is judged elsewhere.
//! Places and lengths are in mm.
#![tactic(auto)]

mod chains;
mod cones;
pub mod goals;
mod horizons;
pub mod known;
pub mod links;
pub mod paths;
pub mod search;
pub mod tables;
pub mod ticks;
mod waits;
