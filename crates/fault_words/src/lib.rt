//! One sentence that says in words what is wrong with a design that is refused.
#![tactic(auto)]

mod entries;
mod faults;
mod forms;
pub mod laws;
mod limits;
mod names;
mod tracks;
mod words;

pub use faults::fault_sentence;
pub use forms::form_sentence;
pub use names::first_place;
