//! What bounds and cones mean, in sentences with the names of the design. A route is named by where it starts and ends,
//! with its number behind. Each sentence begins with the number of a file's line, and ends with an LF. Wherever a call
//! answers with an error, it is want of memory.
#![tactic(auto)]

mod bounds;
mod failing;
mod laws;
mod legs;
mod places;
mod sentences;

pub use failing::{Failing, failing_of};
pub use laws::{sentences_deny, ticks_are_those_of_bounds};
pub use sentences::push_evidence;
