//! How quick trains can be where nothing is in their way, in words. Wherever a call answers with an error, it is want of
//! memory.
#![tactic(auto)]

mod times;

pub use times::push_least_times;
