//! Laws of sets of commands, each the contract of a function that does nothing.

ghost use Rattle.rail_base.specs.declared.station.Station.{Station};
ghost use Rattle.rail_base.specs.declared.route.Route.{Route};
ghost use Rattle.std.specs.Prelude.{List};
ghost use Rattle.clause_spec.specs.declared.question.Turns.{Turns};
ghost use Rattle.live_clause_spec.specs.Laws.{OfAnyLive};
ghost use Rattle.command_set.specs.Laws.{AllAreASet, AllNamed, AllPairs, AreSets, BasesAreAlike};
ghost use Rattle.command_set.specs.Laws.{OfEachTest, PairsAreAlike, TellsAlike};

/// The commands of a design that pass a test are a set, and whether a command of the design is one of them is the test.
/// So the pairs of them are those by the test, and what is left of the base is the same.
pub fn sets_are_tests()
    ensures sets { OfEachTest AreSets }
    ensures tells { OfEachTest TellsAlike }
    ensures pairs { OfEachTest PairsAreAlike }
    ensures bases { (turns : Turns) → OfAnyLive (BasesAreAlike turns) }
{}

/// All commands of a design are a set, whose pairs are all that contend. Each of a train and a route is one of them.
pub fn all_commands_are_a_set()
    ensures set { (d : Station) (routes : List Route) → AllAreASet d routes }
    ensures pairs { (d : Station) (routes : List Route) → AllPairs d routes }
    ensures named { (d : Station) (routes : List Route) → AllNamed d routes }
{}
