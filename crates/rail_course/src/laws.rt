//! What the runs of well-formed plans may take for granted.

ghost use Rattle.std.specs.Prelude.{◌≤◌, length};
ghost use Rattle.rail_spec.specs.Track.{routes_of};
ghost use Rattle.rail_spec.specs.Dispatches.{Dispatch};
ghost use Rattle.rail_base.specs.declared.route.Route.{Route};
ghost use Rattle.rail_base.specs.declared.station.Station.{Station};
ghost use Rattle.rail_course.specs.Tracks.{PathsAreInRange};
ghost use Rattle.rail_course.specs.Ready.{WaitsGiveWhatIsReady};
ghost use Rattle.rail_course.specs.Waits.{IsReadyWhenOver};
ghost use Rattle.rail_laws.specs.Plans.{InEveryRun};
ghost use Rattle.std.specs.Prelude.{List};

/// The paths of a well-formed plan over an admitted station are in range.
pub fn plans_are_in_range()
    ensures { InEveryRun (λ d plan. length (routes_of d) ≤ 2000 → PathsAreInRange d plan) }
{}

/// In any dispatch a command may be granted exactly where its waits are over.
pub fn commands_are_ready_when_their_waits_are_over()
    ensures { (d : Station) (routes : List Route) (p : Dispatch) → IsReadyWhenOver d routes p }
{}

/// So the waits for all that a command is to wait for say what is ready.
pub fn all_waits_give_what_is_ready()
    ensures { (d : Station) (routes : List Route) (p : Dispatch) → WaitsGiveWhatIsReady d routes p }
{}
