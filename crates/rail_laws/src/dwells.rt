//! Laws of trains that stand at their visits, each the contract of a function that does nothing.

ghost use Rattle.std.specs.Prelude.{ℕ, List, Option};
ghost use Rattle.rail_base.specs.declared.state.PathNode.{PathNode};
ghost use Rattle.rail_spec.specs.Dispatches.{of_plan};
ghost use Rattle.rail_laws.specs.Plans.{EachFormed};
ghost use Rattle.rail_laws.specs.Standing.{IsOrderly, StandsInOrder, EachDispatch, TrainsStand, TrainsStandNoLonger};
ghost use Rattle.rail_laws.specs.Standing.{TrainsWait, TrainsStandAtVisits, AuthorityNeverFalls};

/// A train whose head is at its place when a tick begins stands there for the tick, and no other train stands longer.
pub fn trains_stand_at_their_places()
    ensures { EachDispatch TrainsStand }
{}

/// A train is never past its place, and so never past a visit before it has stood its ticks there, exactly there.
pub fn trains_wait_at_their_places()
    ensures place { EachDispatch TrainsWait }
    ensures visits { EachDispatch TrainsStandAtVisits }
{}

/// How long a train has stood never falls, and is never more than it has to stand in all, nor than the ticks so far.
pub fn trains_stand_no_longer()
    ensures { EachDispatch TrainsStandNoLonger }
{}

/// The end of a train's authority never falls back: not with a new route, nor where it leaves a place.
pub fn authority_never_falls_back()
    ensures { EachDispatch AuthorityNeverFalls }
{}

/// Runs of well-formed plans are orderly, so that all this holds of them.
pub fn plans_are_orderly()
    ensures { EachFormed (λ d routes plan. IsOrderly d routes (of_plan routes plan)) }
{}

/// The ticks stood in all tell those at each visit, and a train has still to stand at the first at which some are left.
pub fn visits_are_stood_in_order()
    ensures { (ws : List ℕ) (places : List (Option PathNode)) (stood : ℕ) → StandsInOrder ws places stood }
{}
