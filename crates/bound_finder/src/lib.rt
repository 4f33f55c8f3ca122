//! Looks for lower bounds by which a plan fails: chains of trains that wait for each other and take too long, with
//! places that are widened.
//!
//! Of what is found it is claimed alone that the design has all that it names. Whether a bound holds, and whether it
//! excludes the plan, is judged elsewhere; here it is only sought where that is likely, and where it excludes many
//! other plans. Places and lengths are in mm.
#![tactic(auto)]

mod choosing;
mod finder;
mod routes;
mod search;
mod sizes;
mod widening;

pub use finder::Finder;
