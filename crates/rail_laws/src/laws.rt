//! Laws of the definitions, each the contract of a function that does nothing.

ghost use Rattle.std.specs.Prelude.{◌≡◌, ◌↔◌, ◌≤◌, true, List, length};
ghost use Rattle.rail_spec.specs.Motion.{SpanSeen};
ghost use Rattle.rail_base.specs.declared.station.Station.{Station};
ghost use Rattle.rail_base.specs.declared.route.Route.{Route};
ghost use Rattle.rail_base.specs.declared.station.EdgeNo.{EdgeNo};
ghost use Rattle.rail_spec.specs.Plans.{is_executable, length_mm};
ghost use Rattle.rail_spec.specs.Safety.{KeepsToTrack};
ghost use Rattle.rail_base.specs.Members.{In, Pairs, Differ};
ghost use Rattle.rail_spec.specs.Track.{routes_of, all_walks, RepeatsEdge};
ghost use Rattle.rail_laws.specs.Elementary.{IsRouteOf, RouteBefore, IsAsItsEdges, SomeClosesBadly, NoneRepeats};
ghost use Rattle.rail_laws.specs.Elementary.{HasOverlapsBeside};
ghost use Rattle.rail_base.specs.Admitted.{IsAdmitted};
ghost use Rattle.rail_laws.specs.Progress.{IsGrantedInTime};
ghost use Rattle.rail_spec.specs.Verdict.{IsVerdict};
ghost use Rattle.rail_laws.specs.Plans.{EachDesign, EachPlan, EachFormed, EachRunnable, InEveryRun, AllComeThrough};
ghost use Rattle.rail_laws.specs.Plans.{GrantsFailByHorizon, IsDoneInTime, FailsForTimeByHorizon, HoldersAreApart};
ghost use Rattle.rail_laws.specs.Plans.{MeetsOrFails, StaysApart, PathsStaySmall, StatesStaySmall};
ghost use Rattle.rail_laws.specs.Speeds.{OnEachTrack, LimitsAreThoseOfPoints, LimitsBindUnderTrains, PermittedByPoints};
ghost use Rattle.rail_laws.specs.Speeds.{NextIsGreatest, NextOfNoneIsZero, PermittedGoesDown, BrakingStaysPermitted};
ghost use Rattle.rail_laws.specs.Speeds.{MovesWhereItMay};

/// A move keeps the limits exactly where each point that it covers has a limit of at least its speed.
pub fn limits_are_those_of_points()
    ensures { (ss : List SpanSeen) → LimitsAreThoseOfPoints ss }
{}

/// A move keeps the limits from so far behind its head exactly where each point of the move has, from itself back over
/// that length, no limit below its speed.
pub fn limits_bind_until_the_tail_has_left()
    ensures { (ss : List SpanSeen) → LimitsBindUnderTrains ss }
{}

/// A speed is permitted exactly where the train may reach it and can brake from there, point by point.
pub fn permitted_speeds_are_those_of_points()
    ensures { OnEachTrack PermittedByPoints }
{}

/// The next speed is the greatest permitted one where any is permitted, and else 0.
pub fn next_speeds_are_greatest()
    ensures greatest { OnEachTrack NextIsGreatest }
    ensures none { OnEachTrack NextOfNoneIsZero }
{}

/// A speed below a permitted one is permitted.
pub fn permitted_speeds_go_down()
    ensures { OnEachTrack PermittedGoesDown }
{}

/// After a permitted move full braking is permitted.
pub fn braking_stays_permitted()
    ensures { OnEachTrack BrakingStaysPermitted }
{}

/// In a run of an executable plan no two trains hold one section.
pub fn holders_are_apart()
    ensures { EachPlan (λ d routes plan. is_executable d routes plan ≡ true → HoldersAreApart d routes plan) }
{}

/// The routes of an admitted design are its elementary routes.
pub fn routes_are_elementary()
    ensures { EachDesign (λ d. (r : Route) → In r (routes_of d) ↔ IsRouteOf d r) }
{}

/// They stand by start, and then by the first edge in which two differ; so each is there once.
pub fn routes_stand_in_order()
    ensures in_order { EachDesign (λ d. Pairs (RouteBefore d) (routes_of d)) }
    ensures each_once { EachDesign (λ d. Differ (routes_of d)) }
{}

/// The search meets an edge again exactly where a path closes badly there; where none does each closed path is a route.
pub fn paths_close_badly_where_an_edge_is_met_again()
    ensures again { EachDesign (λ d. (e : EdgeNo) → In (RepeatsEdge e) (all_walks d) ↔ SomeClosesBadly d e) }
    ensures routes { (d : Station) → NoneRepeats d → length (routes_of d) ≡ length (all_walks d) }
{}

/// A route's length, nodes and sections are those of its edges.
pub fn routes_are_as_their_edges()
    ensures { EachDesign (λ d. (r : Route) → In r (routes_of d) → IsAsItsEdges d r) }
{}

/// A route's overlap sections are listed by the overlap at its end, are none of its own, and are there once each.
pub fn overlaps_lie_beside_routes()
    ensures { EachDesign (λ d. (r : Route) → In r (routes_of d) → HasOverlapsBeside d r) }
{}

/// In no run of a well-formed, executable plan of an admitted design does a train hold or stand on a section that
/// another holds or stands on.
pub fn trains_never_clash()
    ensures { EachFormed StaysApart }
{}

/// Where the end of authority is ahead, or there is none, at least 1 is permitted.
pub fn trains_move_where_they_may()
    ensures { OnEachTrack MovesWhereItMay }
{}

/// In every runnable plan of an admitted design each command is granted in time.
pub fn every_command_is_granted()
    ensures { EachRunnable IsGrantedInTime }
{}

/// So a plan fails by a command that isn't granted only where the horizon comes before that tick.
pub fn grants_fail_by_the_horizon_alone()
    ensures { EachRunnable GrantsFailByHorizon }
{}

/// A plan doesn't fail at its deciding tick exactly where it meets the design.
pub fn plans_are_met_where_they_do_not_fail()
    ensures met { EachPlan (λ d routes plan. IsAdmitted d → MeetsOrFails d routes plan) }
    ensures verdict { EachPlan (λ d routes plan. IsAdmitted d → IsVerdict d routes plan) }
{}

/// By the tick by which all commands are granted each train has come to the end of its path, and has left where that
/// exits.
pub fn trains_come_through()
    ensures { EachRunnable AllComeThrough }
{}

/// So where the paths make all visits all is done by then, and a runnable plan fails for want of time only at an
/// earlier horizon.
pub fn plans_are_done_in_time()
    ensures done { EachRunnable IsDoneInTime }
    ensures late { EachRunnable FailsForTimeByHorizon }
{}

/// Routes, paths, places and speeds stay small.
pub fn numbers_stay_small()
    ensures routes { EachDesign (λ d. (r : Route) → In r (routes_of d) → length_mm r ≤ 40000000000) }
    ensures paths { InEveryRun (λ d plan. length (routes_of d) ≤ 2000 → PathsStaySmall d plan) }
    ensures states { EachPlan (λ d routes plan. IsAdmitted d → StatesStaySmall d routes plan) }
{}

/// In every run of a well-formed plan a train never passes its end of authority, nor covers a point above its limit.
pub fn trains_keep_to_their_track()
    ensures { EachFormed KeepsToTrack }
{}
