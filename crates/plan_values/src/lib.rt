//! The values of which the text of a plan is made, and the commands in them whose train and route are there. A text that
//! is refused has them too, whatever its shape. Wherever a call answers with an error, it is want of memory.
#![tactic(auto)]

mod commands;
mod values;

pub use commands::{commands_in, train_named};
pub use values::{array_of, command_of, json_value, step_in, steps_at, steps_in, written_in};
