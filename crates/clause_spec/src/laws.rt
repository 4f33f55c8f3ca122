//! Laws of the base, each the contract of a function that does nothing.

ghost use Rattle.std.specs.Prelude.{ℕ, ◌≤◌, List};
ghost use Rattle.rail_base.specs.declared.station.Station.{Station};
ghost use Rattle.rail_base.specs.declared.route.Route.{Route};
ghost use Rattle.rail_spec.specs.Track.{routes_of};
ghost use Rattle.rail_spec.specs.Feasible.{IsInfeasible};
ghost use Rattle.clause_spec.specs.Laws.{NoneBy, AreLiteralsInRange, EachBase, FeasibleHaveModels, DecodedHaveModels};
ghost use Rattle.clause_spec.specs.Laws.{PlansHaveModels, ModelsArePlans, BoundsPairs};

/// The model of a plan that can be carried out, and whose paths make all visits, makes the base true.
pub fn plans_are_models()
    ensures { EachBase PlansHaveModels }
{}

/// So does the model of each feasible plan.
pub fn feasible_plans_are_models()
    ensures { (d : Station) (n : ℕ) → 1 ≤ n → FeasibleHaveModels d n }
{}

/// Values that make the base true give a plan that can be carried out, and whose model has them.
pub fn models_are_plans()
    ensures { EachBase ModelsArePlans }
{}

/// Its model makes the base true, too.
pub fn decoded_plans_are_models()
    ensures { EachBase DecodedHaveModels }
{}

/// The variables of the base are numbered from 1, and none of its clauses says by which step all is given at the
/// latest.
pub fn literals_are_in_range()
    ensures { (d : Station) (routes : List Route) (n : ℕ) → 1 ≤ n → AreLiteralsInRange d routes n }
{}

/// Where no values that make the base of n steps true say that all is given by step k, no plan of k steps is feasible.
pub fn none_by_is_infeasible()
    ensures { (d : Station) (n k : ℕ) → 1 ≤ k → k ≤ n → NoneBy d (routes_of d) n k → IsInfeasible d k }
{}

/// A base with no more literals than a limit has at most half as many pairs of commands that contend.
pub fn bases_within_a_limit_have_few_pairs()
    ensures { (d : Station) (routes : List Route) (n : ℕ) → BoundsPairs d routes n }
{}
