//! The clause of a certificate over the variables of the base.
#![tactic(auto)]

pub mod laws;
mod listing;
mod meetings;
mod numbered;
mod order;
mod places;
mod remainder;
mod starts;
mod variables;

pub use crate::listing::clause_of;
