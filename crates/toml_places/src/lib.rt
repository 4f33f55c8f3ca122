//! Where the lines, entries and keys of a TOML document begin, and in which line and column that is. A place is the
//! text from there on. A text is taken to be a document that `toml` reads; of another one the places before the first
//! fault are found. Wherever a call answers with an error, it is want of memory.
#![tactic(auto)]

mod extents;
mod finding;
mod lines;
mod starts;

pub use finding::{entries_of, keys_of, name_at, top_lines};
pub use lines::{column, line_number, line_text};
pub use starts::document_lines;
