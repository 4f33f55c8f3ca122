//! What the ways of the trains say of a design, in words. Wherever a call answers with an error, it is want of memory.
#![tactic(auto)]

mod ways;

pub use ways::push_ways;
