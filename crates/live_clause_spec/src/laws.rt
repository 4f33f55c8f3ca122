//! Laws of live commands and their base, each the contract of a function that does nothing.

ghost use Rattle.std.specs.Prelude.{ℕ};
ghost use Rattle.rail_base.specs.declared.station.Station.{Station};
ghost use Rattle.rail_laws.specs.Plans.{EachStep};
ghost use Rattle.clause_spec.specs.declared.question.Turns.{Turns};
ghost use Rattle.live_clause_spec.specs.Laws.{AreCounted, AreDecodedAlike, AreListed, AreLiveInRange};
ghost use Rattle.live_clause_spec.specs.Laws.{AreNumbered, AreSpread, FeasibleAreLive, FeasibleHaveLiveModels};
ghost use Rattle.live_clause_spec.specs.Laws.{ListsLive, LiveModelsGivePlans, ModelsAreAlike, ModelsAreSpread};
ghost use Rattle.live_clause_spec.specs.Laws.{ModelsSay, OfAnyLive, OfEachDesign, TellsLive};

/// A command is live where its route stands in a way of its train. So every command of a feasible plan is.
pub fn live_commands_stand_in_ways()
    ensures tells { OfEachDesign TellsLive }
    ensures lists { OfEachDesign ListsLive }
    ensures feasible { (d : Station) (n : ℕ) → FeasibleAreLive d n }
{}

/// The number of a live variable is its place among them, and the clauses name none but these.
pub fn live_variables_are_numbered()
    ensures places { OfAnyLive AreNumbered }
    ensures count { OfAnyLive AreCounted }
    ensures in_range { (turns : Turns) → OfAnyLive (AreLiveInRange turns) }
{}

/// What is left of the clauses can be listed without those that go.
pub fn clauses_left_are_listed()
    ensures { (turns : Turns) → OfAnyLive (AreListed turns) }
{}

/// Values of the live variables make the base that is left true exactly where they make the sorted base true, with dead
/// variables false. So it is of the model of each plan that has live commands alone.
pub fn values_are_spread()
    ensures values { (turns : Turns) → OfAnyLive (AreSpread turns) }
    ensures models { OfAnyLive ModelsAreSpread }
    ensures says { OfAnyLive ModelsSay }
    ensures alike { (turns : Turns) → OfAnyLive (ModelsAreAlike turns) }
{}

/// Where there is a feasible plan of k steps, there is one whose values make the live base true, and say that all is
/// given by step k.
pub fn feasible_plans_have_live_models()
    ensures { (turns : Turns) → EachStep (FeasibleHaveLiveModels turns) }
{}

/// Values that make the base that is left true give a plan that has live commands alone.
pub fn live_models_give_plans()
    ensures plans { (turns : Turns) → OfAnyLive (LiveModelsGivePlans turns) }
    ensures decoded { OfAnyLive AreDecodedAlike }
{}
