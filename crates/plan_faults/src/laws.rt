//! Laws of plans that are refused, each the contract of a function that does nothing.

ghost use Rattle.std.specs.Prelude.{List};
ghost use Rattle.rail_base.specs.declared.plan.Command.{Command};
ghost use Rattle.rail_base.specs.declared.route.Route.{Route};
ghost use Rattle.rail_base.specs.declared.station.Station.{Station};
ghost use Rattle.plan_faults.specs.Laws.{BlockedHasKeeper, MisplacedHasReason};

/// Where a plan is refused since a train's command in a step is not right after those before it, there is a reason, and
/// it is so.
pub fn misplaced_commands_have_reasons()
    ensures { (d : Station) (routes : List Route) (plan : List (List Command)) → MisplacedHasReason d routes plan }
{}

/// Where a plan is refused since a train's command in a step can't be given for a section, some command keeps it from
/// the section: one of that step, or one whose train lacks track to leave the section.
pub fn blocked_commands_have_keepers()
    ensures { (d : Station) (routes : List Route) (plan : List (List Command)) → BlockedHasKeeper d routes plan }
{}
