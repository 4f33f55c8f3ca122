//! Laws of the base of normal plans, each the contract of a function that does nothing.

ghost use Rattle.std.specs.Prelude.{ℕ, ◌≤◌, List};
ghost use Rattle.rail_base.specs.declared.station.Station.{Station};
ghost use Rattle.rail_base.specs.declared.route.Route.{Route};
ghost use Rattle.clause_spec.specs.Laws.{EachBase};
ghost use Rattle.normal_clause_spec.specs.Laws.{NormalPlansHaveModels, FeasibleNormalHaveModels, AgreeOnBase};
ghost use Rattle.normal_clause_spec.specs.Laws.{HoldAlikeOnBase, AreInNormalRange};
ghost use Rattle.normal_clause_spec.specs.Normal.{FeasibleHaveNormalModels, NoneNormalIsInfeasible};
ghost use Rattle.normal_clause_spec.specs.Walks.{LeadsBySteps};
ghost use Rattle.rail_laws.specs.Plans.{EachStep};

/// The model of a normal plan that can be carried out, and whose paths make all visits, makes the base of normal plans
/// true.
pub fn normal_plans_are_models()
    ensures { EachBase NormalPlansHaveModels }
{}

/// So does the model of each feasible plan that is normal.
pub fn feasible_normal_plans_are_models()
    ensures { (d : Station) (n : ℕ) → 1 ≤ n → FeasibleNormalHaveModels d n }
{}

/// On the variables of the base it has the values of the model there.
pub fn models_agree_on_the_base()
    ensures { (d : Station) (routes : List Route) (n : ℕ) → AgreeOnBase d routes n }
{}

/// So a clause over these is true of the one where it is true of the other.
pub fn clauses_of_the_base_hold_alike()
    ensures { (d : Station) (routes : List Route) (n : ℕ) → HoldAlikeOnBase d routes n }
{}

/// The variables are numbered from 1, and none of the clauses says by which step all is given at the latest.
pub fn normal_literals_are_in_range()
    ensures { EachBase AreInNormalRange }
{}

/// A chain leads from a route to another exactly where steps do that come to no route with the start of the first.
pub fn chains_lead_where_steps_do()
    ensures { (routes : List Route) → LeadsBySteps routes }
{}

/// Where a plan of k steps is feasible in an admitted design, there is a normal one, feasible for n steps, whose model
/// makes the base of normal plans true, and says that all is given by step k.
pub fn feasible_plans_have_normal_models()
    ensures { EachStep FeasibleHaveNormalModels }
{}

/// Where no values that make this base true, and clauses over the variables of the base that hold of all feasible
/// plans, say that all is given by step k, no plan of k steps is feasible.
pub fn none_normal_is_infeasible()
    ensures { EachStep NoneNormalIsInfeasible }
{}
