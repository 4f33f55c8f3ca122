//! Laws of plans that run alike, each the contract of a function that does nothing.

ghost use Rattle.rail_laws.specs.Plans.{EachFeasible, EachPlan};
ghost use Rattle.normal_plan_spec.specs.Alike.{IsFeasibleWhereAsGood, MeetAlikeInOneOrder, RunAlikeInOneOrder};
ghost use Rattle.normal_plan_spec.specs.Normal.{HasNormalPlan};

/// Plans with the same path for each train, and with the same order of each two commands, run alike. So the one meets
/// the design exactly where the other does.
pub fn plans_in_one_order_run_alike()
    ensures run { EachPlan RunAlikeInOneOrder }
    ensures met { EachPlan MeetAlikeInOneOrder }
{}

/// A plan that is as good as a feasible one is feasible.
pub fn plans_as_good_are_feasible()
    ensures { IsFeasibleWhereAsGood }
{}

/// For each feasible plan there is a normal one that is feasible, runs as it does and has no more steps.
pub fn feasible_plans_have_normal_ones()
    ensures { EachFeasible (λ d n plan. HasNormalPlan d n plan) }
{}
