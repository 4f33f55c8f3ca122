//! Numbers and lines as bytes, both ways.
#![tactic(auto)]

mod cursor;
mod laws;
mod numbers;

pub use cursor::{Cursor, Piece};
pub use laws::{numbers_read_back, pieces_join_back};
pub use numbers::{number, put_number};
