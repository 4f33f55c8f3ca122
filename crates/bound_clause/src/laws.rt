//! Laws of the clauses of certificates, each the contract of a function that does nothing.

ghost use Rattle.std.specs.Prelude.{◌≤◌};
ghost use Rattle.rail_base.specs.Admitted.{IsAdmitted};
ghost use Rattle.bound_clause.specs.Laws.{BoundsHoldInModel, BoundsStandInOrder, RefutedIsInfeasible};
ghost use Rattle.clause_spec.specs.declared.question.Turns.{Turns};
ghost use Rattle.clause_spec.specs.Laws.{EachBase};
ghost use Rattle.rail_laws.specs.Plans.{EachFeasible, EachStep};

/// The clause of a valid certificate is true in the model of every feasible plan.
pub fn bounds_hold_in_models_of_feasible_plans()
    ensures { EachFeasible (λ d n plan. 1 ≤ n → BoundsHoldInModel d n plan) }
{}

/// Its literals stand in strictly increasing order of their variables.
pub fn clauses_stand_in_order()
    ensures { EachBase BoundsStandInOrder }
{}

/// Where no values that make the sorted base of n steps and the clauses of valid cones and certificates true say that
/// all is given by step k, no plan of k steps is feasible, sorted or not.
pub fn refuted_designs_are_infeasible()
    ensures { (turns : Turns) → EachStep (λ d n k. IsAdmitted d → RefutedIsInfeasible turns d n k) }
{}
