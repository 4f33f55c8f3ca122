//! Plans that are refused, by their text: how its shape differs from that of a plan, and where a command of it stands.
//! Wherever a call answers with an error, it is want of memory.
#![tactic(auto)]

mod places;
mod shapes;

pub use places::command_place;
pub use shapes::push_shape;
