//! What the orders of a design say before the first plan: which commands are not given before which others.
#![tactic(auto)]

mod pairs;
mod said;

pub use pairs::pairs_of_order;
pub use said::line_of_order;
