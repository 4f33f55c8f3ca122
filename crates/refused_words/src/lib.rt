//! A refused design in words: where its fault stands in the text, and what is wrong there.
#![tactic(auto)]

mod faults;
mod refused;
mod unread;

pub use faults::fault_lines;
pub use refused::push_refused;
pub use unread::unread_lines;
