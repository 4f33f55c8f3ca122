//! A refused plan in words: where the command stands that it is refused for, and what is wrong there. Wherever a call
//! answers with an error, it is want of memory.
#![tactic(auto)]

mod faults;
mod unread;

pub use faults::plan_fault_lines;
