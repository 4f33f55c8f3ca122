//! What a design asks for, in words, so that it can be read and signed: its trains with their vehicles and visits, its
//! orders and greatest times, and how much of everything there is. Wherever a call answers with an error, it is want
//! of memory.
#![tactic(auto)]

mod asked;
mod quantities;

pub use asked::{dwell_of, push_asked};
pub use quantities::{put_duration, put_metres, put_speed};
