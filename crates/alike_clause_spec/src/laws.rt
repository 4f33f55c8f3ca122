//! Laws of clauses that keep trains in turn, each the contract of a function that does nothing.

ghost use Rattle.std.specs.Prelude.{ℕ, ◌≤◌, List};
ghost use Rattle.rail_base.specs.declared.station.Station.{Station};
ghost use Rattle.rail_base.specs.declared.route.Route.{Route};
ghost use Rattle.rail_base.specs.declared.plan.Command.{Command};
ghost use Rattle.rail_spec.specs.Feasible.{IsFeasible};
ghost use Rattle.clause_spec.specs.declared.question.Turns.{Turns};
ghost use Rattle.alike_clause_spec.specs.Turns.{TurnsHold};
ghost use Rattle.alike_clause_spec.specs.Sorted.{AreInRange, HasSortedModel, sorted_base, NoneSortedIsInfeasible};
ghost use Rattle.rail_laws.specs.Plans.{EachWellFormed, EachStep};

/// The model of a plan with the pairs in turn makes their clauses true.
pub fn pairs_in_turn_make_clauses_true()
    ensures { EachWellFormed TurnsHold }
{}

/// Where there is a feasible plan of k steps, there is one whose model makes the sorted base true, and says that all is
/// given by step k.
pub fn feasible_plans_have_sorted_models()
    ensures { (turns : Turns) → EachStep (λ d n k. (plan : List (List Command)) → IsFeasible d k plan
        → HasSortedModel turns d n k) }
{}

/// Where no values that make the sorted base true, and others that hold of all feasible plans, say that all is given by
/// step k, no plan of k steps is feasible.
pub fn none_sorted_is_infeasible()
    ensures { (turns : Turns) → EachStep (NoneSortedIsInfeasible turns) }
{}

/// The variables of the sorted base are numbered from 1, and none of its clauses says by which step all is given at the
/// latest.
pub fn sorted_literals_are_in_range()
    ensures { (turns : Turns) (d : Station) (routes : List Route) (n : ℕ) → 1 ≤ n
        → AreInRange d routes n (sorted_base turns d routes n) }
{}
