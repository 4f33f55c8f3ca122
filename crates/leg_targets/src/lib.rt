//! The places on walks to which the legs of certificates lead: where a visit can be made, and where a route is
//! released.
//!
//! Places and lengths are in mm from the start of a walk.
#![tactic(auto)]

mod targets;

pub use targets::{Visit, release_place, target, visit_place};
