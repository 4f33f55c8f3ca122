//! What a valid cone says of all plans, each law the contract of a function that does nothing.

ghost use Rattle.std.specs.Prelude.{◌≡◌, false, List};
ghost use Rattle.rail_base.specs.declared.station.Station.{Station};
ghost use Rattle.rail_base.specs.declared.station.TrainNo.{TrainNo};
ghost use Rattle.rail_base.specs.declared.route.Route.{Route};
ghost use Rattle.rail_base.specs.Admitted.{IsAdmitted};
ghost use Rattle.rail_spec.specs.Plans.{path};
ghost use Rattle.rail_spec.specs.Requirements.{meets};
ghost use Rattle.cone_spec.specs.Cones.{named};
ghost use Rattle.cone_spec.specs.declared.Cone.{Cone};
ghost use Rattle.cone_spec.specs.Laws.{Begins, EachRefuted, FollowsCone, NamesWholePath, BreaksInTime, ValidConesHold};
ghost use Rattle.cone_spec.specs.Laws.{StaysPastHorizon, ConesAreOrderly};
ghost use Rattle.rail_laws.specs.Plans.{EachDesign, EachFeasible};

/// Past its horizon a train of a cone stays as it is: its grants, its head, its speed, and how long it has stood.
pub fn trains_stay_past_their_horizons()
    ensures { (d : Station) (routes : List Route) (k : Cone) → StaysPastHorizon d routes k }
{}

/// Runs of cones of an admitted design are orderly, so that their trains stop at their places and stand there, as in
/// the runs of plans.
pub fn cones_are_orderly()
    ensures { EachDesign ConesAreOrderly }
{}

/// In the run of a plan that a cone refutes each train is where it is in the cone's run, up to its horizon, with the
/// same grants, speed and ticks stood, and none of its waiting commands is granted.
pub fn trains_follow_the_cone()
    ensures { EachRefuted FollowsCone }
{}

/// Such a train's path begins as the cone says.
pub fn paths_begin_as_in_the_cone()
    ensures { EachRefuted (λ d routes k plan. (t : TrainNo) → Begins (named k t).path (path plan t)) }
{}

/// Where the violation is that a path misses a visit, the train's path is the cone's.
pub fn path_cones_name_whole_paths()
    ensures { EachRefuted NamesWholePath }
{}

/// The cone's violation is certain of such a plan at some tick up to the horizon of the design.
pub fn violations_hold_of_such_plans()
    ensures { EachRefuted (λ d routes k plan. IsAdmitted d → BreaksInTime d routes k plan) }
{}

/// So the plan doesn't meet the design.
pub fn such_a_plan_fails()
    ensures { EachRefuted (λ d routes k plan. IsAdmitted d → meets d routes plan ≡ false) }
{}

/// And the clause of a valid cone is true of every feasible plan.
pub fn clauses_hold_of_feasible_plans()
    ensures { EachFeasible ValidConesHold }
{}
