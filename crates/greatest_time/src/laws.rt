//! What another greatest time leaves as it is, each law the contract of a function that does nothing.

ghost use Rattle.std.specs.Prelude.{◌≡◌};
ghost use Rattle.rail_base.specs.Stations.{horizon};
ghost use Rattle.rail_spec.specs.Track.{routes_of};
ghost use Rattle.greatest_time.specs.Laws.{EachChange, EachWithin, SameButWithins, LaterTimeStands};
ghost use Rattle.greatest_time.specs.Laws.{OwnTimeChangesNothing, HasTime, StaysAdmitted, PassesAdmission};
ghost use Rattle.greatest_time.specs.Laws.{RunsAlike, StatesAlike, VisitsAlike, SamePlans};
ghost use Rattle.greatest_time.specs.Laws.{MoreTimeIsFeasible, LessTimeIsInfeasible, MakesBoth, TakesAlike};
ghost use Rattle.greatest_time.specs.Laws.{IsFeasibleFrom, HorizonDecides};

/// There are as many withins, all but them is as it was, and so are the routes and the horizon.
pub fn all_else_stays()
    ensures rest { EachChange SameButWithins }
    ensures routes { EachChange (λ d e. routes_of e ≡ routes_of d) }
    ensures horizon { EachChange (λ d e. horizon e ≡ horizon d) }
{}

/// The time that is put in is the greatest time, however often another was put in before; and with its own greatest
/// time a design is as it is.
pub fn times_are_put_in()
    ensures time { EachWithin HasTime }
    ensures later { EachWithin LaterTimeStands }
    ensures own { EachWithin OwnTimeChangesNothing }
{}

/// With a greatest time of at most a day an admitted design is admitted.
pub fn changed_designs_are_admitted()
    ensures admitted { EachWithin StaysAdmitted }
    ensures test { EachWithin PassesAdmission }
{}

/// Trains run alike, and make their visits at the same ticks.
pub fn runs_stay()
    ensures runs { EachChange RunsAlike }
    ensures states { EachChange StatesAlike }
    ensures visits { EachChange VisitsAlike }
{}

/// The same plans are well formed and can be carried out, and are done at the same ticks.
pub fn plans_stay()
    ensures { EachChange SamePlans }
{}

/// More time makes no plan infeasible, so less time makes none feasible.
pub fn more_time_is_feasible()
    ensures more { EachWithin MoreTimeIsFeasible }
    ensures less { EachWithin LessTimeIsInfeasible }
{}

/// A feasible plan makes both visits of each within, at the same ticks with every greatest time, and is feasible
/// exactly with the greatest times from the one on that it takes.
pub fn plans_are_feasible_from_their_time_on()
    ensures makes { EachWithin MakesBoth }
    ensures alike { EachWithin TakesAlike }
    ensures exactly { EachWithin IsFeasibleFrom }
{}

/// No visit is later than the horizon, so where nothing is feasible with the horizon's time, nothing is with any.
pub fn the_horizon_decides()
    ensures { EachWithin HorizonDecides }
{}
