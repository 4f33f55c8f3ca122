//! Laws of searches, each the contract of a function that does nothing.

ghost use Rattle.clause_spec.specs.declared.question.BaseKind.{BaseKind};
ghost use Rattle.verify_loop.specs.Outcomes.{RefutedDiffer};
ghost use Rattle.rail_laws.specs.Plans.{EachDesign};

/// The plans that failed in a search are pairwise different, so no search is spent on one plan twice.
pub fn refuted_plans_differ()
    ensures { (base : BaseKind) → EachDesign (RefutedDiffer base) }
{}
