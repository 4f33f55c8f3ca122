//! Laws of ways and plans, each the contract of a function that does nothing.

ghost use Rattle.std.specs.Prelude.{ℕ};
ghost use Rattle.rail_base.specs.declared.station.Station.{Station};
ghost use Rattle.rail_spec.specs.Track.{routes_of};
ghost use Rattle.rail_laws.specs.Plans.{EachWellFormed};
ghost use Rattle.way_spec.specs.Laws.{CommandsAreLive, HasMostRoutes, HasShortPlan, NeedsWays, NoneOfAny};
ghost use Rattle.way_spec.specs.Laws.{OfEveryFeasible, PathsAreWays, TakesFewest, TakesFewestOfAll};
ghost use Rattle.way_spec.specs.Laws.{VisitingPathsAreWays};
ghost use Rattle.way_spec.specs.Ways.{IsMostSteps};

/// In a plan that makes all visits of a train the routes of the train, in order, are a way of it. So in a feasible plan
/// those of each train are, and the route of each command is live.
pub fn paths_of_feasible_plans_are_ways()
    ensures visiting { EachWellFormed VisitingPathsAreWays }
    ensures paths { OfEveryFeasible PathsAreWays }
    ensures live { OfEveryFeasible CommandsAreLive }
{}

/// So where a train has no way no plan is feasible, and no plan has fewer steps than the shortest way of a train has
/// routes.
pub fn plans_take_the_fewest_routes()
    ensures none { (d : Station) → NeedsWays d }
    ensures fewest { OfEveryFeasible TakesFewest }
    ensures of_all { OfEveryFeasible TakesFewestOfAll }
{}

/// No train has more commands than it can have routes at the most. So where a plan of any number of steps is feasible,
/// one is of at most as many as all trains have together.
pub fn plans_need_no_empty_steps()
    ensures routes { OfEveryFeasible HasMostRoutes }
    ensures short { (d : Station) (m : ℕ) → IsMostSteps d (routes_of d) m → HasShortPlan d m }
    ensures any { (d : Station) (m : ℕ) → IsMostSteps d (routes_of d) m → NoneOfAny d m }
{}
