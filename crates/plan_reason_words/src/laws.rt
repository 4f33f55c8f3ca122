//! Laws of the lines, each the contract of a function that does nothing.

ghost use Rattle.std.specs.Prelude.{ℕ, List};
ghost use Rattle.rail_base.specs.declared.route.Route.{Route};
ghost use Rattle.rail_base.specs.declared.station.Station.{Station};
ghost use Rattle.plan_reason_words.specs.Laws.{BlockedIsSo, MisplacedIsSo, StepsAreMany, UnknownIsThere};

/// A plan that is refused for a command has a command there whose train or route is not there.
pub fn unknown_commands_are_there()
    ensures { (d : Station) (routes : List Route) (text : List ℕ) → UnknownIsThere d routes text }
{}

/// A plan that is refused for a step has more than 256.
pub fn steps_are_too_many()
    ensures { (d : Station) (routes : List Route) (text : List ℕ) → StepsAreMany d routes text }
{}

/// A plan that is refused for a train's command in a step has a reason against it, and it is so.
pub fn reasons_are_so()
    ensures { (d : Station) (routes : List Route) (text : List ℕ) → MisplacedIsSo d routes text }
{}

/// A plan that is refused for a section has a command that keeps the train from it.
pub fn keepers_are_so()
    ensures { (d : Station) (routes : List Route) (text : List ℕ) → BlockedIsSo d routes text }
{}
