//! The picture of a run: a line for each train over time and place, its visits, how long it stands there, what is asked
//! of them, and which train holds which section when.
#![tactic(auto)]

mod axes;
mod bars;
mod ending;
mod laws;
mod outcome;
mod picture;
mod requirements;
mod scale;
mod stands;
mod trains;
mod visits;

pub use laws::endings_are_so;
pub use picture::run_picture;
