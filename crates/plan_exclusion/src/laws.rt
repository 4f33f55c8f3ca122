//! A law of cones and bounds, the contract of a function that does nothing.

ghost use Rattle.plan_exclusion.specs.Laws.{EvidenceDeniesItsPlan};

/// What shows that a plan fails has a clause that is false in the plan's model.
pub fn evidence_denies_its_plan()
    ensures { EvidenceDeniesItsPlan }
{}
