//! What a designer should look at, in words: what is allowed in a design, and seldom meant. Wherever a call answers
//! with an error, it is want of memory.
#![tactic(auto)]

mod ends;
mod entries;
mod looks;
mod sections;

pub use ends::push_dead_ends;
pub use entries::push_open_entries;
pub use looks::push_looks;
pub use sections::push_slipped_sections;
