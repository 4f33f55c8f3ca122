//! Whether what a certificate of a lower bound names is there in a design.
#![tactic(auto)]

mod before;
mod beginning;
mod choices;
mod covering;
mod legs;
mod lists;
mod meeting;
mod origin;
mod places;
mod reaching;
mod requirement;
mod stated;
mod tracks;
mod visit;
mod visits;

pub use covering::is_covered;
pub use meeting::contend_over_own;
pub use stated::names_design;
pub use visit::{Visit, visit_of};
