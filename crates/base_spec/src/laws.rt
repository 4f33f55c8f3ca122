//! Laws of all bases, each the contract of a function that does nothing.

ghost use Rattle.std.specs.Prelude.{ℕ, ◌≡◌, ◌≤◌, List, length};
ghost use Rattle.rail_base.specs.declared.station.Station.{Station};
ghost use Rattle.rail_base.specs.declared.route.Route.{Route};
ghost use Rattle.rail_alike.specs.Alike.{with_max_ms};
ghost use Rattle.clause_spec.specs.declared.question.BaseKind.{BaseKind};
ghost use Rattle.clause_spec.specs.declared.question.BaseKind.TheVariants.{Live};
ghost use Rattle.clause_spec.specs.declared.question.Turns.TheVariants.{Beside};
ghost use Rattle.base_spec.specs.Bases.{clauses_of, variables_of};
ghost use Rattle.base_spec.specs.Laws.{AreInRangeOf, BeginsWithPlain, FeasibleHaveModelsBy, ModelsGivePlans};
ghost use Rattle.rail_laws.specs.Plans.{EachStep};

/// Where a plan of k steps is feasible, there is one for n steps, all given by step k, with values that make the
/// clauses of the base true.
pub fn feasible_plans_have_models_by()
    ensures { (kind : BaseKind) → EachStep (FeasibleHaveModelsBy kind) }
{}

/// Values that make the clauses of a base true give a plan that has such values.
pub fn models_give_plans()
    ensures { (kind : BaseKind) (d : Station) (n : ℕ) → 1 ≤ n → ModelsGivePlans kind d n }
{}

/// Values that make the clauses of a base true make those of the plain base true.
pub fn bases_begin_with_the_plain_one()
    ensures { (kind : BaseKind) (d : Station) (routes : List Route) (n : ℕ) → 1 ≤ n
        → BeginsWithPlain kind d routes n }
{}

/// The variables are numbered from 1, and none of the clauses says by which step all is given at the latest.
pub fn literals_are_in_range_of_bases()
    ensures { (kind : BaseKind) (d : Station) (routes : List Route) (n : ℕ) → 1 ≤ n → AreInRangeOf kind d routes n }
{}

/// Beside a within the base of live commands is the same whatever the greatest time of that within is.
pub fn bases_stay_beside_a_within()
    ensures clauses { (d : Station) (routes : List Route) (n w ms : ℕ) → 1 ≤ w → w ≤ length d.withins
        → clauses_of (Live (Beside w)) (with_max_ms d w ms) routes n ≡ clauses_of (Live (Beside w)) d routes n }
    ensures variables { (d : Station) (routes : List Route) (n w ms : ℕ)
        → variables_of (Live (Beside w)) (with_max_ms d w ms) routes n ≡ variables_of (Live (Beside w)) d routes n }
{}
