//! The names of edges by which routes are shown.
#![tactic(auto)]

pub mod laws;
mod names;
mod numbers;
mod values;

pub use names::shown_routes;
pub use numbers::number_named;
pub use values::names_value;
