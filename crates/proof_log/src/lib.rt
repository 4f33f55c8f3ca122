//! The lines of proof files, as values and as text.
#![tactic(auto)]

mod bound_text;
mod bounds;
mod cone_text;
mod cones;
mod head;
mod laws;
mod legs;
mod line;
mod members;
mod origins;
mod parts;
mod read;
mod requirements;
mod words;
mod write;

pub use head::{Head, read_head, write_head};
pub use laws::{heads_have_one_text, heads_read_back, lines_have_one_text, lines_read_back};
pub use line::{Line, LineFault};
pub use read::read_line;
pub use write::{write_derive, write_line};
