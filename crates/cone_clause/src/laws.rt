//! Laws of the clauses of cones, each the contract of a function that does nothing.

ghost use Rattle.std.specs.Prelude.{◌≤◌};
ghost use Rattle.rail_base.specs.Admitted.{IsAdmitted};
ghost use Rattle.cone_clause.specs.Laws.{SaysTheSame, ConesHoldInModel, RefutedIsInfeasible, ConesStandInOrder};
ghost use Rattle.clause_spec.specs.Laws.{EachBase};
ghost use Rattle.rail_laws.specs.Plans.{EachWellFormed, EachFeasible, EachStep};

/// In the model of a well-formed plan the clause of a cone is true where it is true of the plan, and false where it is
/// false.
pub fn clauses_say_the_same()
    ensures { EachWellFormed (λ d routes n plan. 1 ≤ n → SaysTheSame d routes n plan) }
{}

/// So the clause of a valid cone is true in the model of every feasible plan.
pub fn cones_hold_in_models_of_feasible_plans()
    ensures { EachFeasible (λ d n plan. 1 ≤ n → ConesHoldInModel d n plan) }
{}

/// Where no values that make the base of n steps and the clauses of valid cones true say that all is given by step k,
/// no plan of k steps is feasible.
pub fn refuted_designs_are_infeasible()
    ensures { EachStep (λ d n k. IsAdmitted d → RefutedIsInfeasible d n k) }
{}

/// The literals of the clause stand in strictly increasing order of their variables.
pub fn clauses_stand_in_order()
    ensures { EachBase ConesStandInOrder }
{}
