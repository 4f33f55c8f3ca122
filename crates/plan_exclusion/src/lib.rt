//! Why plans that fail are excluded: cones and lower bounds as lines of a proof, with the clauses that they show.
#![tactic(auto)]

mod denied;
mod exclusion;
mod laws;

pub use exclusion::FailedPlan;
pub use laws::evidence_denies_its_plan;
